//! Rows on what a router does with a parcel (ANSI/ASHRAE 135, clauses 6.5 and 6.6), what a port of BACnet/IP (Annex J)
//! or of a bus (9) puts out and hands up, and what is inside a message on a network (6.2). The program `rows` runs
//! them.
//!
//! - `addresses`: addresses in words.
//! - `named`: octets in words, with announcements of many networks.
//! - `routing`: the rows of a router, step by step; `stepping`: a step in every way.
//! - `ports`: the rows of a port of BACnet/IP.
//! - `buses`: the rows of a port on a bus, call by call.
//! - `rings`: the rows of nodes on a bus that hear each other.
//! - `insides`: the rows of what is inside.
#![tactic(auto)]

mod addresses;
mod buses;
mod insides;
mod named;
mod ports;
mod rings;
mod routing;
mod stepping;

use sheets::{Bench, Counts, Given, Part, Report, Row, Stop};
use std::alloc::AllocError;

/// What these rows run on.
pub struct NetworkRows;

impl Bench for NetworkRows {
    fn run(
        given: Given<'_>,
        name: &str,
        rows: &[Row<'_>],
        report: &mut Report<'_>,
    ) -> Result<(), AllocError> {
        for row in rows {
            report.add(row, run_row(given, name, row))?;
        }
        Ok(())
    }
}

/// Runs a row of a file of this name.
fn run_row(given: Given<'_>, name: &str, row: &Row<'_>) -> Result<Counts, Stop> {
    let wanted = row.wanted()?;
    match name {
        "router.txt" => routing::run(given, given.memory, row.asked, wanted),
        "ports.txt" => ports::run(given, row.asked, wanted),
        "buses.txt" => buses::run(given, row.asked, wanted),
        "rings.txt" => rings::run(given, row.asked, wanted),
        "inside.txt" => insides::run(given, row.asked, wanted),
        _ => Err(Stop::Unread(Part::Asked)),
    }
}
