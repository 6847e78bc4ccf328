//! Rows on what is said and remembered of requests and answers over time (ANSI/ASHRAE 135, clauses 5.2 and 5.4). The
//! program `rows` runs them.
//!
//! - `asked`: what a row asks, in words.
//! - `pieces`: which pieces a body has.
//! - `cutting`: what a sender of segments does.
//! - `joining`: what a receiver of segments does.
//! - `every`: every list of a few segments.
//! - `numbers`: waits, lifetimes, counts and limits.
//! - `askers`, `entries`: who asks, and what is remembered, in words.
//! - `forms`, `devices`: both forms of what remembers, and a device that does.
//! - `remembering`: what it answers, remembering in a list and under keys.
#![tactic(auto)]

mod asked;
mod askers;
mod cutting;
mod devices;
mod entries;
mod every;
mod forms;
mod joining;
mod numbers;
mod pieces;
mod remembering;

use devices::Run;
use sheets::{Bench, Counts, Given, Part, Report, Row, Stop, two_words};
use std::alloc::{AllocError, Allocator};

/// What these rows run on.
pub struct Transactions;

impl Bench for Transactions {
    fn run(
        given: Given<'_>,
        name: &str,
        rows: &[Row<'_>],
        report: &mut Report<'_>,
    ) -> Result<(), AllocError> {
        let run = Run {
            given,
            own: given.memory,
            other: given.other,
        };
        run_rows(&run, name, rows, report)
    }
}

/// Runs the rows of a file of this name in their order.
fn run_rows<A: Allocator + Copy>(
    run: &Run<'_, A>,
    name: &str,
    rows: &[Row<'_>],
    report: &mut Report<'_>,
) -> Result<(), AllocError> {
    for row in rows {
        report.add(row, run_row(run, name, row))?;
    }
    Ok(())
}

/// Runs a row of a file of this name.
fn run_row<A: Allocator + Copy>(
    run: &Run<'_, A>,
    name: &str,
    row: &Row<'_>,
) -> Result<Counts, Stop> {
    let wanted = row.wanted()?;
    match name {
        "segments.txt" => run_segments(run, row.asked, wanted),
        "remembered.txt" => remembering::run(run, row.asked, wanted),
        _ => Err(Stop::Unread(Part::Asked)),
    }
}

/// Runs a row of segments.
fn run_segments<A: Allocator + Copy>(
    run: &Run<'_, A>,
    asked: &str,
    wanted: &str,
) -> Result<Counts, Stop> {
    let given = run.given;
    let (verb, rest) = two_words(asked);
    match verb {
        "number" => numbers::run(given, rest, wanted),
        "cut" => pieces::run(given, rest, wanted),
        "send" => cutting::run(given, rest, wanted),
        "join" => joining::run(run, rest, wanted),
        "grant" => joining::run_granted(given, rest, wanted),
        "every" => every::run(given, rest, wanted),
        _ => Err(Stop::Unread(Part::Asked)),
    }
}
