//! Rows on the parts of a site, on which parts fit together, and on what a site is asked (ANSI/ASHRAE 135, clauses 3.2,
//! 6, 9, 12 and J). The program `rows` runs them.
//!
//! - `places`: places and addresses in words.
//! - `described`: sites that rows describe.
//! - `devices`: devices and their objects in words.
//! - `judging`: parts that are a site, or not.
//! - `large`: sites of many networks and devices.
//! - `asking`: what a site is asked.
#![tactic(auto)]

mod asking;
mod described;
mod devices;
mod judging;
mod large;
mod places;

use described::Described;
use sheets::{Bench, Counts, Given, Report, Row, Stop, two_words};
use std::alloc::AllocError;

/// What these rows run on.
pub struct Sites;

impl Bench for Sites {
    fn run(
        given: Given<'_>,
        _name: &str,
        rows: &[Row<'_>],
        report: &mut Report<'_>,
    ) -> Result<(), AllocError> {
        for row in rows {
            report.add(row, run_row(given, rows, row))?;
        }
        Ok(())
    }
}

/// Runs a row. Rows that describe a site are read where it is judged or asked.
fn run_row(given: Given<'_>, rows: &[Row<'_>], row: &Row<'_>) -> Result<Counts, Stop> {
    let Some(wanted) = row.wanted else {
        return Ok(Counts::none());
    };
    let (word, words) = two_words(row.asked);
    match word {
        "judge" => judging::run(given, Described { rows, words }, wanted),
        "large" => large::run(given, words, wanted),
        _ => asking::run(given, rows, row.asked, wanted),
    }
}
