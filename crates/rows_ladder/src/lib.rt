//! Rows on ladders and reports of runs (ANSI/ASHRAE 135, clauses 5.4, 6, 9.3, 20.1 and Annex J), in the folder
//! `ladder`. The program `rows_sim` runs them.
//!
//! - `pictures`: pictures of lanes and rows that a row describes, and texts that are escaped.
//! - `runs`: what is drawn of a script at a site, also where an allocation is refused.
//! - `drawn`: what stands in a picture and in a page.
//! - `nesting`: whether the elements of a picture or of a page are nested.
#![tactic(auto)]

mod drawn;
mod nesting;
mod pictures;
mod runs;

pub use runs::run_file;
use sheets::{Bench, Counts, Given, Part, Report, Row, Stop, two_words};
use std::alloc::AllocError;

/// What the rows of pictures run on.
pub struct LadderRows;

impl Bench for LadderRows {
    fn run(
        given: Given<'_>,
        _name: &str,
        rows: &[Row<'_>],
        report: &mut Report<'_>,
    ) -> Result<(), AllocError> {
        for row in rows {
            report.add(row, run_row(given, row))?;
        }
        Ok(())
    }
}

/// Runs a row.
fn run_row(given: Given<'_>, row: &Row<'_>) -> Result<Counts, Stop> {
    let wanted = row.wanted()?;
    let (word, words) = two_words(row.asked);
    match word {
        "escape" => pictures::run_escaped(given, words, wanted),
        "cut" => pictures::run_cut(given, words, wanted),
        "draw" => pictures::run_drawn(given, words, wanted),
        "titles" => pictures::run_titles(given, words, wanted),
        _ => Err(Stop::Unread(Part::Asked)),
    }
}
