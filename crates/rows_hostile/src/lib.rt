//! What becomes of octets that no station says, and of texts that nobody writes, in the folder `hostile`. Datagrams and
//! frames (ANSI/ASHRAE 135, clauses 6, 9, 20 and Annex J), site files and scripts are cut at each
//! octet, have each octet changed, or are random. Each call returns, and where it refuses or drops its input, all is
//! as it was.
//!
//! - `datagrams`, `random`, `texts`: the inputs.
//! - `hearers`: all that hears octets: `devices`, `routers`, `managers`, `ports`, and `frames` of a bus.
//! - `explained`: a datagram taken apart.
//! - `said`, `told`: what is said, and what is told of a state; `watched`: whether it is as it was.
#![tactic(auto)]

mod datagrams;
mod devices;
mod explained;
mod frames;
mod hearers;
mod managers;
mod ports;
mod random;
mod routers;
mod said;
mod texts;
mod told;
mod watched;

use sheets::{Bench, Counts, Given, Part, Report, Row, Stop};
use std::alloc::AllocError;
pub use texts::run_texts;

/// What the rows of the program run on.
pub struct Hostile;

impl Bench for Hostile {
    fn run(
        given: Given<'_>,
        name: &str,
        rows: &[Row<'_>],
        report: &mut Report<'_>,
    ) -> Result<(), AllocError> {
        for row in rows {
            report.add(row, run_row(given, name, row))?;
        }
        Ok(())
    }
}

/// Runs a row of a file of this name.
fn run_row(given: Given<'_>, name: &str, row: &Row<'_>) -> Result<Counts, Stop> {
    match name {
        "datagrams.txt" => datagrams::run(given, row),
        "random.txt" => random::run(given, row),
        _ => Err(Stop::Unread(Part::Asked)),
    }
}
