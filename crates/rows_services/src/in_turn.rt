//! Rows of what the built-in device says to datagrams that it hears one after another, `DATAGRAM -> DATAGRAMS`.

use crate::said::octets_of;
use console::{Builtin, respond};
use npdu::Mac;
use sheets::{Counts, Given, Report, Row, Stop, compare, differs, push_mark};
use std::alloc::{AllocError, Allocator, Global};
use tags::{Fault, Items, Octets};

/// Where datagrams come from: 127.0.0.1:47809.
const FROM: Mac = Mac::Six([127, 0, 0, 1, 0xBA, 0xC1]);

/// ReadPropertyMultiple of all properties of both objects, under an invoke ID that no row has.
const ALL: &str =
    "81 0A 00 1C 01 04 02 65 FF 0E 0C 02 00 00 63 1E 09 08 1F 0C 01 40 00 01 1E 09 08 1F";

/// How many runs have an allocation refused at most.
const MANY: u64 = 1000;

/// Runs the rows of a file on one device, which lies in `memory`, that of `given`.
///
/// # Errors
/// Want of memory.
pub(crate) fn run<A: Allocator + Copy>(
    given: Given<'_>,
    memory: A,
    rows: &[Row<'_>],
    report: &mut Report<'_>,
) -> Result<(), AllocError> {
    match Builtin::new(memory) {
        Ok(mut device) => run_rows(given, &mut device, rows, report),
        Err(_) => Err(AllocError),
    }
}

/// Runs the rows of a file on a device.
fn run_rows<A: Allocator + Copy>(
    given: Given<'_>,
    device: &mut Builtin<A>,
    rows: &[Row<'_>],
    report: &mut Report<'_>,
) -> Result<(), AllocError> {
    for row in rows {
        report.add(row, run_row(given, device, row))?;
    }
    Ok(())
}

/// Runs a row on a device.
fn run_row<A: Allocator + Copy>(
    given: Given<'_>,
    device: &mut Builtin<A>,
    row: &Row<'_>,
) -> Result<Counts, Stop> {
    let wanted = row.wanted()?;
    let datagram = octets_of(given.alloc, row.asked)?;
    let before = held(given.alloc, device)?;
    refuse_in_turn(given, device, datagram.as_slice(), before.as_str(), wanted)
}

/// Says a datagram to the device with each allocation refused in turn, until a run meets no refusal: what its objects
/// hold reads as before wherever memory was refused, and then the row's answer comes.
fn refuse_in_turn<A: Allocator + Copy>(
    given: Given<'_>,
    device: &mut Builtin<A>,
    datagram: &[u8],
    before: &str,
    wanted: &str,
) -> Result<Counts, Stop> {
    for refused in 0..MANY {
        if is_answered(given, device, datagram, refused, wanted)? {
            return Ok(Counts {
                rows: 1,
                refused,
                changed: 0,
            });
        }
        compare(held(given.alloc, device)?, before)?;
    }
    Err(differs(
        given.alloc,
        "a datagram that is refused memory again and again",
    ))
}

/// Whether the device answers a datagram, and as is wanted, where memory is refused behind so many allocations.
fn is_answered<A: Allocator + Copy>(
    given: Given<'_>,
    device: &mut Builtin<A>,
    datagram: &[u8],
    allocations: u64,
    wanted: &str,
) -> Result<bool, Stop> {
    given.memory.refuse_only(allocations.saturating_add(1));
    let answer = said(given.alloc, device, datagram);
    let is_waiting = given.memory.is_waiting();
    given.memory.refuse_only(0);
    is_wanted(given.alloc, answer, is_waiting, wanted)
}

/// Whether an answer came, and as is wanted, where the refusal still waits, and want of memory where it doesn't.
fn is_wanted(
    alloc: Global,
    answer: Result<String, Stop>,
    is_waiting: bool,
    wanted: &str,
) -> Result<bool, Stop> {
    match answer {
        Err(Stop::Memory) if !is_waiting => Ok(false),
        Ok(found) if is_waiting => {
            compare(found, wanted)?;
            Ok(true)
        }
        Err(Stop::Differs(found)) => Err(Stop::Differs(found)),
        _ => Err(differs(alloc, "want of memory for another cause")),
    }
}

/// What the objects of a device hold, as an equal device says it, in words.
fn held<A: Allocator + Copy>(alloc: Global, device: &Builtin<A>) -> Result<String, Stop> {
    let all = octets_of(alloc, ALL)?;
    said_by_copy(alloc, device, all.as_slice())
}

/// What an equal device says to a datagram, in words.
fn said_by_copy<A: Allocator + Copy>(
    alloc: Global,
    device: &Builtin<A>,
    datagram: &[u8],
) -> Result<String, Stop> {
    said(alloc, &mut device.copy()?, datagram)
}

/// What the device says to a datagram, in words.
fn said<A: Allocator + Copy>(
    alloc: Global,
    device: &mut Builtin<A>,
    datagram: &[u8],
) -> Result<String, Stop> {
    match respond(device, FROM, datagram) {
        Ok(said) => in_words(alloc, &said),
        Err(Fault::Memory) => Err(Stop::Memory),
        Err(_) => Err(differs(alloc, "another refusal than want of memory")),
    }
}

/// Datagrams as pairs of digits, ` / ` between them, or `none`.
fn in_words<A: Allocator>(alloc: Global, said: &Items<Octets<A>, A>) -> Result<String, Stop> {
    if said.is_empty() {
        return Ok(String::from_str(alloc, "none")?);
    }
    let mut words = String::new(alloc);
    for datagram in said.as_slice() {
        push_mark(" /", &mut words)?;
        push_pairs(datagram.as_slice(), &mut words)?;
    }
    Ok(words)
}

/// Appends octets as pairs of digits, with a space between them.
fn push_pairs(octets: &[u8], words: &mut String) -> Result<(), AllocError> {
    for octet in octets {
        push_mark(" ", words)?;
        write!(words, "{octet:02X}")?;
    }
    Ok(())
}
