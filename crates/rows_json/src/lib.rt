//! Rows on which object of JSON (RFC 8259) each printed line becomes. The program `rows` runs them.
//!
//! A row is `history LINE -> OBJECT`, `check LINE -> OBJECT` or `explain LINE -> OBJECT`. In `octets history OCTETS ->
//! OBJECT / OBJECT` lines of any of the three stand as octets, and with `printed` in place of `octets` they are printed
//! octet by octet.
//!
//! - `objects`: what lines become, also where an allocation is refused and where octets are changed.
#![tactic(auto)]

mod objects;

use objects::{Way, kind_of, run};
use sheets::{Bench, Counts, Given, Report, Row, Stop, octets, two_words};
use std::alloc::AllocError;

/// What the rows of JSON run on.
pub struct JsonRows;

impl Bench for JsonRows {
    fn run(
        given: Given<'_>,
        _name: &str,
        rows: &[Row<'_>],
        report: &mut Report<'_>,
    ) -> Result<(), AllocError> {
        for row in rows {
            report.add(row, run_row(given, row))?;
        }
        Ok(())
    }
}

/// Runs a row.
fn run_row(given: Given<'_>, row: &Row<'_>) -> Result<Counts, Stop> {
    let wanted = row.wanted()?;
    let (word, rest) = two_words(row.asked);
    match word {
        "octets" => run_octets(given, Way::Whole, rest, wanted),
        "printed" => run_octets(given, Way::Piecewise, rest, wanted),
        _ => run(given, Way::Whole, kind_of(word)?, rest.as_bytes(), wanted),
    }
}

/// Runs a row that has its lines as octets, behind the word of their kind.
fn run_octets(given: Given<'_>, way: Way, words: &str, wanted: &str) -> Result<Counts, Stop> {
    let (kind, word) = two_words(words);
    let lines = octets(given.alloc, word)?;
    run(given, way, kind_of(kind)?, lines.as_slice(), wanted)
}
