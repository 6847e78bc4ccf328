//! Rows on what is known of the frames that were put out on buses of MS/TP, what an ear there makes of octets that it
//! hears, and which frame is told next (ANSI/ASHRAE 135, clause 9). The program `rows` runs them.
//!
//! - `steps`: the steps of a row in words.
//! - `wires`: buses on which steps are made.
//! - `shown`: what comes of a step, and all that is known, in words.
//! - `stepping`: a step in every way.
#![tactic(auto)]

mod shown;
mod stepping;
mod steps;
mod wires;

use sheets::{Bench, Given, Report, Row};
use std::alloc::AllocError;

/// What these rows run on.
pub struct BusRows;

impl Bench for BusRows {
    fn run(
        given: Given<'_>,
        _name: &str,
        rows: &[Row<'_>],
        report: &mut Report<'_>,
    ) -> Result<(), AllocError> {
        for row in rows {
            report.add(row, stepping::run(given, given.memory, row))?;
        }
        Ok(())
    }
}
