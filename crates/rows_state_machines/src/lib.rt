//! Rows on what a client and a server of transactions say over time (ANSI/ASHRAE 135, clauses 5.4.1, 5.4.4 and 5.4.5).
//! The program `rows` runs them.
//!
//! - `client`: what a client says of its requests, and what is told of them.
//! - `server`: what a server says and executes.
//! - `telling`: octets in words, of many the first and their number.
#![tactic(auto)]

mod client;
mod server;
mod telling;

use server::Served;
use sheets::{Bench, Counts, Given, Part, Report, Row, Stop};
use std::alloc::{AllocError, Allocator};

/// What these rows run on.
pub struct Machines;

impl Bench for Machines {
    fn run(
        given: Given<'_>,
        name: &str,
        rows: &[Row<'_>],
        report: &mut Report<'_>,
    ) -> Result<(), AllocError> {
        run_rows(given, given.memory, name, rows, report)
    }
}

/// Runs the rows of a file of this name in their order. What they open lies in `memory`, that of `given`.
fn run_rows<A: Allocator + Copy>(
    given: Given<'_>,
    memory: A,
    name: &str,
    rows: &[Row<'_>],
    report: &mut Report<'_>,
) -> Result<(), AllocError> {
    let mut opened = None;
    for row in rows {
        report.add(row, run_row(given, memory, &mut opened, name, row))?;
    }
    Ok(())
}

/// Runs a row of a file of this name, on the server that a row opened last.
fn run_row<A: Allocator + Copy>(
    given: Given<'_>,
    memory: A,
    opened: &mut Option<Served<A>>,
    name: &str,
    row: &Row<'_>,
) -> Result<Counts, Stop> {
    let wanted = row.wanted()?;
    match name {
        "client.txt" => client::run(given, row.asked, wanted),
        "server.txt" => server::run(given, memory, opened, row.asked, wanted),
        _ => Err(Stop::Unread(Part::Asked)),
    }
}
