//! Rows on site files and scripts: which parts a site file describes, why it describes none, and which steps the lines
//! of a script ask for (ANSI/ASHRAE 135, clauses 3.2, 5.4, 6, 9, 12, 15, 16.10 and J). The program `rows` runs them.
//!
//! - `escaped`: texts of several lines in one row.
//! - `files`: site files that rows describe, and what is read of them.
//! - `parts`: the parts of a site in words.
//! - `scripts`: what is read of scripts.
#![tactic(auto)]

mod escaped;
mod files;
mod parts;
mod scripts;

use sheets::{Bench, Counts, Given, Part, Report, Row, Stop, two_words};
use std::alloc::AllocError;

/// What these rows run on.
pub struct Texts;

impl Bench for Texts {
    fn run(
        given: Given<'_>,
        _name: &str,
        rows: &[Row<'_>],
        report: &mut Report<'_>,
    ) -> Result<(), AllocError> {
        for row in rows {
            report.add(row, run_row(given, rows, row))?;
        }
        Ok(())
    }
}

/// Runs a row. Rows that describe a file are read where it is asked for.
fn run_row(given: Given<'_>, rows: &[Row<'_>], row: &Row<'_>) -> Result<Counts, Stop> {
    let Some(wanted) = row.wanted else {
        return Ok(Counts::none());
    };
    let (word, words) = two_words(row.asked);
    match word {
        "parts" => files::run_parts(given, rows, words, wanted),
        "changed" => files::run_changed(given, rows, words, wanted),
        "read" => files::run_read(given, rows, words, wanted),
        "script" => scripts::run(given, words, wanted),
        _ => Err(Stop::Unread(Part::Asked)),
    }
}
