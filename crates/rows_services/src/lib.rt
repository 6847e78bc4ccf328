//! Rows on the bodies of the confirmed services, the answers to them and what executes them (ANSI/ASHRAE 135, clauses
//! 15, 18.9, 19.2, 20.1 and 21), and on the two tools and the device that stand on them. The program `rows` runs them.
//!
//! - `bodies`: bodies, and the requests that they spell or their Reject.
//! - `replies`: answers, and the replies that they spell to their requests.
//! - `kinds`: whether a reply is one to a request.
//! - `executor`: what an executor replies and leaves.
//! - `tool`: what `answer` and `explain` print.
//! - `said`: requests and replies in words.
//! - `headers`: what datagrams carry.
//! - `in_turn`: what a device says to datagrams in turn.
//! - `writers`: the exit status where a writer fails.
//!
//! What holds memory is owned by functions over any allocator, and rows keep their words: a function
//! that owns a request in memory with a lifetime costs the proof ten times as much.
#![tactic(auto)]

mod bodies;
mod executor;
mod headers;
mod in_turn;
mod kinds;
mod replies;
mod said;
mod tool;
mod writers;

use sheets::{Bench, Counts, Given, Part, Report, Row, Stop};
use std::alloc::AllocError;
use tool::Tool;

/// What these rows run on.
pub struct Services;

impl Bench for Services {
    fn run(
        given: Given<'_>,
        name: &str,
        rows: &[Row<'_>],
        report: &mut Report<'_>,
    ) -> Result<(), AllocError> {
        match name {
            "services_executor.txt" => {
                executor::run(given, given.memory, given.other, rows, report)
            }
            "device_in_turn.txt" => in_turn::run(given, given.memory, rows, report),
            _ => run_rows(given, name, rows, report),
        }
    }
}

/// Runs the rows of a file of this name, none of which needs another.
fn run_rows(
    given: Given<'_>,
    name: &str,
    rows: &[Row<'_>],
    report: &mut Report<'_>,
) -> Result<(), AllocError> {
    for row in rows {
        report.add(row, run_row(given, name, row))?;
    }
    Ok(())
}

/// Runs a row of a file of this name.
fn run_row(given: Given<'_>, name: &str, row: &Row<'_>) -> Result<Counts, Stop> {
    let wanted = row.wanted()?;
    match name {
        "services_requests.txt" | "services_rejects.txt" => bodies::run(given, row.asked, wanted),
        "services_kinds_of_reply.txt" => kinds::run(given.alloc, row.asked, wanted),
        "services_replies.txt" => replies::run(given, row.asked, wanted),
        "headers_carried.txt" => headers::run(given, row.asked, wanted),
        "writers.txt" => writers::run(given, row.asked, wanted),
        _ if name.starts_with("answer_") => tool::run(given, Tool::Answer, row.asked, wanted),
        _ if name.starts_with("explain_named") => {
            tool::run(given, Tool::ExplainNames, row.asked, wanted)
        }
        "explain_dumped.txt" => tool::run_dump(given, row.asked, wanted),
        _ if name.starts_with("explain_") => tool::run(given, Tool::Explain, row.asked, wanted),
        _ => Err(Stop::Unread(Part::Asked)),
    }
}
