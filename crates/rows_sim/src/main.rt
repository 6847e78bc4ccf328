//! The program `rows_sim`: rows of text on what is printed of a script at a site: histories, refusals, items and exit
//! statuses (ANSI/ASHRAE 135, clauses 5.4, 6, 12, 15, 16.10, 20.1 and J). It reads each file of its folder `data`, runs
//! each row, and prints a line for each row that differs and one with the counts of each file.
//!
//! - `examples`: sites and scripts as files, with what is printed of them.
//! - `as_json`: what is printed of them as objects of JSON. `captured`: what a diagnosis finds in captures of them.
//! - `storms`: storms behind the scripts of the examples, and what their own scripts print.
//! - `blocks`: sites, scripts and texts that rows describe.
//! - `repeated`: words that stand for many.
//! - `runs`: what is printed of a script, also where an allocation is refused.
//! - `memory`: events that are refused memory, one allocation after another, and happen then; `strays`: datagrams that
//!   nobody of a site sent; `worlds`: worlds and their steps.
#![tactic(auto)]

mod as_json;
mod blocks;
mod captured;
mod examples;
mod memory;
mod repeated;
mod runs;
mod storms;
mod strays;
mod worlds;

use sheets::{Bench, Counts, Given, Part, Report, Row, Stop, two_words};
use std::alloc::AllocError;
use std::io;

/// What the rows of the program run on.
struct Sim;

impl Bench for Sim {
    fn run(
        given: Given<'_>,
        _name: &str,
        rows: &[Row<'_>],
        report: &mut Report<'_>,
    ) -> Result<(), AllocError> {
        for row in rows {
            report.add(row, run_row(given, rows, row))?;
        }
        Ok(())
    }
}

/// Runs a row. Rows that describe a site, a script or a text are read where it is asked for.
fn run_row(given: Given<'_>, rows: &[Row<'_>], row: &Row<'_>) -> Result<Counts, Stop> {
    let Some(wanted) = row.wanted else {
        return Ok(Counts::none());
    };
    let (word, words) = two_words(row.asked);
    match word {
        "sim" => runs::run_plain(given, rows, words, wanted),
        "trace" => runs::run_traced(given, rows, words, wanted),
        "once" => runs::run_once(given, rows, words, wanted),
        "item" => runs::run_item(given, rows, words, wanted),
        _ => Err(Stop::Unread(Part::Asked)),
    }
}

fn main(rt: HostRuntime) -> io::Result<()> {
    sheets::run_files::<Sim>(&rt)?;
    examples::run_examples(&rt)?;
    as_json::run_objects(&rt)?;
    captured::run_captures(&rt)?;
    storms::run_storms(&rt)?;
    memory::run_file(&rt)?;
    strays::run_file(&rt)?;
    rows_search::run_file(&rt)?;
    sheets::run_folder::<rows_ladder::LadderRows>(&rt, "ladder")?;
    rows_ladder::run_file(&rt)
}
