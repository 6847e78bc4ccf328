//! Rows on what a world that forgets keeps of the datagrams that were put out, and of who issued what under which
//! invoke ID (ANSI/ASHRAE 135, clauses 5.4.1 and J.2). The program `rows` runs them.
//!
//! - `steps`: the steps of a row in words.
//! - `kept`: datagrams and issues on which steps are made, and all that is seen of them, in words.
//! - `stepping`: a step with each allocation refused in turn.
#![tactic(auto)]

mod kept;
mod stepping;
mod steps;

use sheets::{Bench, Given, Report, Row};
use std::alloc::AllocError;

/// What these rows run on.
pub struct PastRows;

impl Bench for PastRows {
    fn run(
        given: Given<'_>,
        _name: &str,
        rows: &[Row<'_>],
        report: &mut Report<'_>,
    ) -> Result<(), AllocError> {
        for row in rows {
            report.add(row, stepping::run(given, given.memory, row))?;
        }
        Ok(())
    }
}
