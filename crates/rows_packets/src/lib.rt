//! Rows on the packets of captures, which are read, whole and in chunks, and written, and on what they show
//! (ANSI/ASHRAE 135, clause 9.3 and Annex J; pcap and pcapng). The program `rows` runs them, among those of
//! `rows_captures`.
//!
//! - `pieces`: the octets of a file, in pieces with names.
//! - `reading`, `chunks`, `writing`: captures. `diagnosing`: what they show. `asking`: what of them.
#![tactic(auto)]

mod asking;
mod chunks;
mod diagnosing;
mod pieces;
mod reading;
mod writing;

use crate::diagnosing::{Printed, run_printed};
pub use pieces::octets_of;
use sheets::{Counts, Given, Part, Row, Stop};

/// Runs a row of packets, which begins with this word.
///
/// # Errors
/// `Differs` where the row does not hold; `Unread` for another word; those of the call.
pub fn run_packets(
    given: Given<'_>,
    rows: &[Row<'_>],
    word: &str,
    words: &str,
    wanted: &str,
) -> Result<Counts, Stop> {
    match word {
        "read" => reading::run(given, rows, words, wanted),
        "when" => chunks::run_moments(given, rows, words, wanted),
        "write" => writing::run(given, rows, words, wanted),
        "back" => writing::run_back(given, rows, words, wanted),
        "summary" => run_printed(given, Printed::Summary, rows, words, wanted),
        "transactions" => run_printed(given, Printed::Transactions, rows, words, wanted),
        "stations" => run_printed(given, Printed::Stations, rows, words, wanted),
        "found" => run_printed(given, Printed::Found, rows, words, wanted),
        "told" => run_printed(given, Printed::Told, rows, words, wanted),
        _ => Err(Stop::Unread(Part::Asked)),
    }
}
