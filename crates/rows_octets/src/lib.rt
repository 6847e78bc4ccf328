//! Rows on what octets spell, from tags to APDUs (ANSI/ASHRAE 135, clauses 6.2, 9.3, 16.10, 18.9, 18.10, 20.1, 20.2 and
//! 21, and Annexes G and J), and what is written again. The program `rows` runs them.
//!
//! - `tag_values`, `tag_rows`: values, and tags one after another.
//! - `npdu_headers`, `npdu_addresses`: the header of the network layer, its addresses and parcels.
//! - `bvll_datagrams`: the datagrams of BACnet/IP.
//! - `mstp_streams`: the frames in a stream of octets on a bus.
//! - `apdus`, `apdu_parts`: APDUs, and what stands in them.
//! - `numbers`: the standard's numbers.
#![tactic(auto)]

mod apdu_parts;
mod apdus;
mod bvll_datagrams;
mod mstp_streams;
mod npdu_addresses;
mod npdu_headers;
mod numbers;
mod tag_rows;
mod tag_values;

use sheets::{Bench, Counts, Given, Part, Report, Row, Stop};
use std::alloc::AllocError;

/// What these rows run on.
pub struct Spelled;

impl Bench for Spelled {
    fn run(
        given: Given<'_>,
        name: &str,
        rows: &[Row<'_>],
        report: &mut Report<'_>,
    ) -> Result<(), AllocError> {
        for row in rows {
            report.add(row, run_row(given, name, row))?;
        }
        Ok(())
    }
}

/// Runs a row of a file of this name.
fn run_row(given: Given<'_>, name: &str, row: &Row<'_>) -> Result<Counts, Stop> {
    let wanted = row.wanted()?;
    match name {
        "tags_values.txt" => tag_values::run(given, row.asked, wanted),
        "tags_tags.txt" => tag_rows::run(given, row.asked, wanted),
        "npdu_headers.txt" => npdu_headers::run(given, row.asked, wanted),
        "npdu_addresses.txt" => npdu_addresses::run(given, row.asked, wanted),
        "bvll_datagrams.txt" => bvll_datagrams::run(given, row.asked, wanted),
        "mstp_streams.txt" => mstp_streams::run(given, row.asked, wanted),
        "apdu_apdus.txt" => apdus::run(given, row.asked, wanted),
        "apdu_parts.txt" => apdu_parts::run(given, row.asked, wanted),
        "numbers.txt" => numbers::run(given, row.asked, wanted),
        _ => Err(Stop::Unread(Part::Asked)),
    }
}
