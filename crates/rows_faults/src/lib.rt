//! Rows on the messages that tell what is wrong with a site file or a script: the whole message of each mistake, with
//! its place, the line and the caret; scripts as `bacsite fmt` prints them; and what shows only when a script runs
//! (ANSI/ASHRAE 135, clauses 3.2, 6, 9, 12, 15 and J, written for a person to read). The program `rows` runs them.
//!
//! - `told`: what is told, also where an allocation is refused.
#![tactic(auto)]

mod told;

use sheets::{Bench, Counts, Given, Part, Report, Row, Stop, two_words};
use std::alloc::AllocError;

/// What these rows run on.
pub struct Faults;

impl Bench for Faults {
    fn run(
        given: Given<'_>,
        _name: &str,
        rows: &[Row<'_>],
        report: &mut Report<'_>,
    ) -> Result<(), AllocError> {
        for row in rows {
            report.add(row, run_row(given, rows, row))?;
        }
        Ok(())
    }
}

/// Runs a row. Rows that describe a file are read where it is asked for.
fn run_row(given: Given<'_>, rows: &[Row<'_>], row: &Row<'_>) -> Result<Counts, Stop> {
    let Some(wanted) = row.wanted else {
        return Ok(Counts::none());
    };
    let (word, words) = two_words(row.asked);
    match word {
        "script" => told::run_script(given, words, wanted),
        "online" => told::run_online(given, words, wanted),
        "changed" => told::run_changed(given, words, wanted),
        "altered" => told::run_changed_site(given, rows, words, wanted),
        "coloured" => told::run_coloured(given, words, wanted),
        "site" => told::run_site(given, rows, words, wanted),
        "large" => told::run_large(given, rows, words, wanted),
        "notes" => told::run_notes(given, rows, words, wanted),
        "live" => told::run_live(given, rows, words, wanted),
        "mended" => told::run_mended(given, words, wanted),
        _ => Err(Stop::Unread(Part::Asked)),
    }
}
