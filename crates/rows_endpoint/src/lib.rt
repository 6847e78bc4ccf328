//! Rows on what a device and a client on their network say, execute and tell over time (ANSI/ASHRAE 135, clauses 5.4.4,
//! 5.4.5, 6 and 16.10), and on what carries broadcasts between subnets (Annex J). The program `rows` runs them.
//!
//! - `opened`: the device of the rows.
//! - `input`: what they hear and do at a moment, with each allocation refused in turn.
//! - `heard`: the rows of a device; `asked`: those of a client.
//! - `told`: what is said and told, in words.
//! - `network`: what carries broadcasts through an internetwork.
#![tactic(auto)]

mod asked;
mod heard;
mod input;
mod network;
mod opened;
mod told;

use endpoint::{Client, Device};
use network::{managers, spreading};
use sheets::{Bench, Counts, Given, Part, Report, Row, Stop, run_word, two_words};
use std::alloc::{AllocError, Allocator};

/// What these rows run on.
pub struct EndpointRows;

/// The device or the client that a row opened last.
#[derive(Drop)]
enum Endpoint<A: Allocator + Copy> {
    Nothing,
    ADevice(Device<A>),
    AClient(Client<A>),
}

impl Bench for EndpointRows {
    fn run(
        given: Given<'_>,
        name: &str,
        rows: &[Row<'_>],
        report: &mut Report<'_>,
    ) -> Result<(), AllocError> {
        run_rows(given, given.memory, name, rows, report)
    }
}

/// Runs the rows of a file of this name in their order. What they open lies in `memory`, that of `given`.
fn run_rows<A: Allocator + Copy>(
    given: Given<'_>,
    memory: A,
    name: &str,
    rows: &[Row<'_>],
    report: &mut Report<'_>,
) -> Result<(), AllocError> {
    let mut opened = Endpoint::Nothing;
    for row in rows {
        report.add(row, run_row(given, memory, &mut opened, name, row))?;
    }
    Ok(())
}

/// What a row of a file of this name opens.
fn open<A: Allocator + Copy>(memory: A, name: &str, word: &str) -> Result<Endpoint<A>, Stop> {
    match name {
        "device.txt" => Ok(Endpoint::ADevice(opened::open(memory, word)?)),
        "client.txt" => Ok(Endpoint::AClient(asked::open(memory, word)?)),
        _ => Err(Stop::Unread(Part::Asked)),
    }
}

/// Runs a row of a file of this name, on what a row opened last.
fn run_row<A: Allocator + Copy>(
    given: Given<'_>,
    memory: A,
    opened: &mut Endpoint<A>,
    name: &str,
    row: &Row<'_>,
) -> Result<Counts, Stop> {
    let wanted = row.wanted()?;
    match name {
        "managers.txt" => managers::run(given, memory, row.asked, wanted),
        "reach.txt" => spreading::run(given, memory, row.asked, wanted),
        _ => run_station(given, memory, opened, (name, row.asked), wanted),
    }
}

/// Runs a row that opens a station of a file of this name, or asks what is open.
fn run_station<A: Allocator + Copy>(
    given: Given<'_>,
    memory: A,
    opened: &mut Endpoint<A>,
    (name, asked): (&str, &str),
    wanted: &str,
) -> Result<Counts, Stop> {
    if let ("open", word) = two_words(asked) {
        *opened = open(memory, name, word)?;
        return run_word(given, "opened", wanted);
    }
    run_opened(given, memory, opened, asked, wanted)
}

/// Runs a row on what is open.
fn run_opened<A: Allocator + Copy>(
    given: Given<'_>,
    memory: A,
    opened: &mut Endpoint<A>,
    asked: &str,
    wanted: &str,
) -> Result<Counts, Stop> {
    match opened {
        Endpoint::ADevice(device) => heard::run(given, memory, device, asked, wanted),
        Endpoint::AClient(client) => asked::run(given, memory, client, asked, wanted),
        Endpoint::Nothing => Err(Stop::Unread(Part::Asked)),
    }
}
