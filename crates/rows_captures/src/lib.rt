//! Rows on captures, which are read, written, explained and diagnosed, and on the conformance statement (ANSI/ASHRAE
//! 135, Annexes A and J and clause 9.3; pcap and pcapng). The program `rows` runs them.
//!
//! - `explaining`: captures that are explained. Rows of packets and of what they show are those of `rows_packets`.
//! - `stating`: the rows of the statement.
#![tactic(auto)]

mod explaining;
mod stating;

use rows_packets::run_packets;
use sheets::{Bench, Counts, Given, Report, Row, Stop, two_words};
use std::alloc::AllocError;
use words::Spelling;

/// What these rows run on.
pub struct CaptureRows;

impl Bench for CaptureRows {
    fn run(
        given: Given<'_>,
        _name: &str,
        rows: &[Row<'_>],
        report: &mut Report<'_>,
    ) -> Result<(), AllocError> {
        for row in rows {
            report.add(row, run_row(given, rows, row))?;
        }
        Ok(())
    }
}

/// Runs a row. Rows that give a piece its name are read where it is asked for.
fn run_row(given: Given<'_>, rows: &[Row<'_>], row: &Row<'_>) -> Result<Counts, Stop> {
    let Some(wanted) = row.wanted else {
        return Ok(Counts::none());
    };
    let (word, words) = two_words(row.asked);
    match word {
        "explain" => explaining::run(given, Spelling::Numbers, rows, words, wanted),
        "named" => explaining::run(given, Spelling::Names, rows, words, wanted),
        "text" => stating::run(given, pics::Form::Text, words, wanted),
        "markdown" => stating::run(given, pics::Form::Markdown, words, wanted),
        _ => run_packets(given, rows, word, words, wanted),
    }
}
