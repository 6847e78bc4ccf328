//! Rows on the judge of histories (`judge`): lists of entries that are legal, and one for each way to be illegal;
//! what is inside datagrams and frames; and what may be heard (ANSI/ASHRAE 135, clauses 5.4, 6.2, 9.3, 12, 15 and
//! J.2). The program `rows` runs them.
//!
//! A row is `history ENTRY | ENTRY | ..`, the entries in words, and behind them what is left of devices, as `left 10
//! write 5:1 85 enum 1`; `carry SAID | .. || SENT | ..`, what was said and what was put out; `time STAMP NOW`; or
//! `ear FRAME | .. || NOW OCTETS | ..`, which frames may be heard, and what is. A row of a history runs again with
//! each allocation of the judge refused in turn.
//!
//! - `entries`: a history in words, and the devices that it is of.
//! - `messages`: what was said and put out, in words.
//! - `verdicts`: what the judge says of them.
#![tactic(auto)]

mod entries;
mod messages;
mod verdicts;

use sheets::{
    Bench, Counts, Given, Part, Report, Row, Stop, run_text, run_word, try_row, two_words,
};
use std::alloc::AllocError;

/// What the rows of the judge run on.
pub struct Judged;

impl Bench for Judged {
    fn run(
        given: Given<'_>,
        _name: &str,
        rows: &[Row<'_>],
        report: &mut Report<'_>,
    ) -> Result<(), AllocError> {
        for row in rows {
            report.add(row, run_row(given, row))?;
        }
        Ok(())
    }
}

/// Runs a row.
fn run_row(given: Given<'_>, row: &Row<'_>) -> Result<Counts, Stop> {
    let wanted = row.wanted()?;
    let (word, words) = two_words(row.asked);
    match word {
        "history" => try_row(given, &verdicts::History { words }, &[], wanted),
        "carry" => run_text(messages::carried(given.alloc, words)?, wanted),
        "ear" => run_text(verdicts::ear_in(given.alloc, words)?, wanted),
        "time" => run_word(given, verdicts::time_in(words)?, wanted),
        _ => Err(Stop::Unread(Part::Asked)),
    }
}
