//! Rows on requests and replies, on commands, and on the objects of a device (ANSI/ASHRAE 135, clauses 12, 15, 18, 19.2
//! and 21). The program `rows` runs them.
//!
//! - `text`: words of a row, as the libraries read and print them.
//! - `words_rows`: requests in words.
//! - `numbers`: numbers of classes, codes, object types and properties.
//! - `standard_names`: the standard's names of such numbers.
//! - `soundness`, `copies`: requests and replies as plain data.
//! - `slots`: commands and what they leave in force.
//! - `sites`: sites that rows describe.
//! - `opening`: sites that open, or not, and their copies and those of their tables.
//! - `tables`: requests to the table of a site, and its replies.
//!
//! What holds memory is owned by functions over any allocator, and rows keep their words: a function
//! that owns a request in memory with a lifetime costs the proof ten times as much.
#![tactic(auto)]

mod copies;
mod numbers;
mod opening;
mod sites;
mod slots;
mod soundness;
mod standard_names;
mod tables;
mod text;
mod words_rows;

use sheets::{Bench, Counts, Given, Part, Report, Row, Stop};
use std::alloc::AllocError;

/// What these rows run on.
pub struct Objects;

impl Bench for Objects {
    fn run(
        given: Given<'_>,
        name: &str,
        rows: &[Row<'_>],
        report: &mut Report<'_>,
    ) -> Result<(), AllocError> {
        if name == "priority_commands.txt" {
            return slots::run(given.alloc, rows, report);
        }
        if name.starts_with("objects_") {
            return tables::run(given, rows, report);
        }
        for row in rows {
            report.add(row, run_row(given, name, row))?;
        }
        Ok(())
    }
}

/// Runs a row of a file of this name.
fn run_row(given: Given<'_>, name: &str, row: &Row<'_>) -> Result<Counts, Stop> {
    let wanted = row.wanted()?;
    match name {
        "words_requests.txt" => words_rows::run(given, row.asked, wanted),
        "primitives_numbers.txt" => numbers::run(given.alloc, row.asked, wanted),
        "standard_names.txt" => standard_names::run(given.alloc, row.asked, wanted),
        "primitives_soundness.txt" => soundness::run(given.alloc, row.asked, wanted),
        "primitives_copies.txt" => copies::run(given, row.asked, wanted),
        _ => Err(Stop::Unread(Part::Asked)),
    }
}
