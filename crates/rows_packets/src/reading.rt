//! What is read of a file: `read FILE -> 1 127.0.0.1:47809 127.0.0.1:47808 810A00..; 2 frame 55FF..; 3 it is no UDP`,
//! by the numbers of its packets; `none` of what is no capture, `nothing` of one without packets.
//!
//! Each row runs again with each allocation refused in turn: the call that says so is made again, and gives what is
//! wanted; and with each prefix of the file and each of its octets changed, where it comes to an end, with numbers that
//! count from 1. Each file is also read in chunks, as `chunks` has it.

ghost use Rattle.std.specs.Prelude.{◌<◌, IfOk, IfSome, length};

use crate::chunks;
use crate::pieces::octets_of;
use bvll::Address;
use captures::{Capture, Carried, Packet};
use sheets::{Counts, Given, Row, Stop, Trial, differs, push_mark, push_octets, run_trial};
use std::alloc::{AllocError, Allocator};

/// Runs a row.
pub(crate) fn run(
    given: Given<'_>,
    rows: &[Row<'_>],
    words: &str,
    wanted: &str,
) -> Result<Counts, Stop> {
    let file = octets_of(given.alloc, rows, words)?;
    let reading = Reading {
        wanted: Some(wanted),
    };
    let counts = run_trial(given, &reading, file.as_slice(), wanted)?;
    Ok(counts.and(chunks::run(given, file.as_slice(), wanted)?))
}

/// What is read of a file, and what is wanted where memory is refused.
#[derive(Clone, Copy)]
pub(crate) struct Reading<'t> {
    pub(crate) wanted: Option<&'t str>,
}

impl<'a> Trial<'a> for Reading<'_> {
    fn answer(&self, given: Given<'a>, octets: &[u8]) -> Result<String, Stop> {
        let (out, is_refused) = text_of(given, given.memory, octets)?;
        if !is_refused {
            return Ok(out);
        }
        match self.wanted {
            Some(wanted) if wanted == out.as_str() => Err(Stop::Memory),
            _ => Err(Stop::Differs(out)),
        }
    }
}

/// What is read of a file in this memory, and whether that was refused.
pub(crate) fn text_of<A: Allocator>(
    given: Given<'_>,
    alloc: A,
    octets: &[u8],
) -> Result<(String, bool), Stop> {
    let mut out = String::new(given.alloc);
    let Some(capture) = Capture::of_file(alloc, octets) else {
        out.push_str("none")?;
        return Ok((out, false));
    };
    let is_refused = push_packets(given, capture, &mut out)?;
    if out.is_empty() {
        out.push_str("nothing")?;
    }
    Ok((out, is_refused))
}

/// Appends all packets of a capture, and tells whether memory was refused. Where it was, the call is made again.
fn push_packets<A: Allocator>(
    given: Given<'_>,
    capture: Capture<'_, A>,
    out: &mut String,
) -> Result<bool, Stop> {
    let mut capture = capture;
    let mut is_refused = false;
    let mut count = 0u64;
    while let Some(packet) = next_again(&mut capture, &mut is_refused)? {
        count = count.saturating_add(1);
        if packet.number != count {
            return Err(differs(given.alloc, "a number that doesn't count the packets"));
        }
        push_packet(packet, out)?;
    }
    Ok(is_refused)
}

/// The next packet. Where memory is refused, that is noted, and the call is made again.
fn next_again<'a, A: Allocator>(
    capture: &mut Capture<'a, A>,
    is_refused: &mut bool,
) -> Result<Option<Packet<'a>>, AllocError>
    ensures { IfOk result (λ packet. IfSome packet (λ _. length capture.new < length capture.old)) }
{
    match capture.next() {
        Ok(packet) => Ok(packet),
        Err(_) => {
            *is_refused = true;
            capture.next()
        }
    }
}

/// Appends a packet in words.
pub(crate) fn push_packet(packet: Packet<'_>, out: &mut String) -> Result<(), AllocError> {
    push_mark("; ", out)?;
    write!(out, "{} ", packet.number)?;
    match packet.carried {
        Carried::Datagram(datagram) => {
            push_address(datagram.from, out)?;
            push_address(datagram.to, out)?;
            push_octets(datagram.octets, out)
        }
        Carried::Frame(octets) => {
            out.push_str("frame ")?;
            push_octets(octets, out)
        }
        Carried::Other(cause) => write!(out, "{cause}"),
    }
}

/// Appends an address, and a space.
fn push_address(address: Address, out: &mut String) -> Result<(), AllocError> {
    let Address {
        ip: [a, b, c, d],
        port,
    } = address;
    write!(out, "{a}.{b}.{c}.{d}:{port} ")
}
