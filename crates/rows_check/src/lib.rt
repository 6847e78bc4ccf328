//! Rows on what is told of site files and of scripts for them: each fault of a file, of a key and of a site, each bad
//! line, and what a script names that is not there (ANSI/ASHRAE 135, clauses 3.2, 6, 9, 12 and J). The program `rows`
//! runs them.
//!
//! - `texts`: site files and scripts that rows describe.
//! - `runs`: what is told of them, also where an allocation is refused.
#![tactic(auto)]

mod runs;
mod texts;

use sheets::{Bench, Counts, Given, Part, Report, Row, Stop, two_words};
use std::alloc::AllocError;
pub use texts::{text_of, unescaped};

/// What these rows run on.
pub struct Checks;

impl Bench for Checks {
    fn run(
        given: Given<'_>,
        _name: &str,
        rows: &[Row<'_>],
        report: &mut Report<'_>,
    ) -> Result<(), AllocError> {
        for row in rows {
            report.add(row, run_row(given, rows, row))?;
        }
        Ok(())
    }
}

/// Runs a row. Rows that describe a file are read where it is asked for.
fn run_row(given: Given<'_>, rows: &[Row<'_>], row: &Row<'_>) -> Result<Counts, Stop> {
    let Some(wanted) = row.wanted else {
        return Ok(Counts::none());
    };
    let (word, words) = two_words(row.asked);
    match word {
        "check" => runs::run_site(given, rows, words, wanted),
        "changed" => runs::run_changed(given, rows, words, wanted),
        "large" => runs::run_large(given, rows, words, wanted),
        "script" => runs::run_script(given, rows, words, wanted),
        _ => Err(Stop::Unread(Part::Asked)),
    }
}
