//! The lines of `explain`: the first word of a line names the first thing that it says.

use crate::line::Line;
use crate::stop::Stop;
use json_object::Object;
use std::alloc::Allocator;

/// What stands before why a packet is passed over.
const PASSED_OVER: &str = "passed over: ";

/// Adds what a line of `explain` says.
///
/// # Errors
/// `Memory`, and `Unknown` of any other line.
pub(crate) fn put_explained<A: Allocator + Copy>(
    line: &str,
    out: &mut Object<A>,
) -> Result<(), Stop> {
    let mut line = Line::new(line);
    let word = line.word()?;
    match word {
        "packet" => return put_packet(line, out),
        "bvll" => {
            out.text("bvll", line.octets()?)?;
            out.number("length", line.number()?)?;
        }
        "npdu" | "flags" | "sizes" | "origin" | "octets" => out.text(word, line.octets()?)?,
        "apdu"
        | "invoke"
        | "seq"
        | "window"
        | "service"
        | "reason"
        | "message"
        | "hops"
        | "open"
        | "close"
        | "frame" => out.number(word, line.number()?)?,
        "dnet" => put_numbered("dnet", "dadr", &mut line, out)?,
        "snet" => put_numbered("snet", "sadr", &mut line, out)?,
        "application" | "context" => put_numbered(word, "octets", &mut line, out)?,
        "refused" => {
            out.number("refused", line.number()?)?;
            out.text("name", line.word()?)?;
        }
        _ => return Err(Stop::Unknown),
    }
    line.end()
}

/// Adds a number and octets under these names.
fn put_numbered<A: Allocator + Copy>(
    number: &str,
    octets: &str,
    line: &mut Line<'_>,
    out: &mut Object<A>,
) -> Result<(), Stop> {
    out.number(number, line.number()?)?;
    out.text(octets, line.octets()?)?;
    Ok(())
}

/// `NUMBER FROM TO`, of a packet, or `NUMBER passed over: CAUSE`.
fn put_packet<A: Allocator + Copy>(line: Line<'_>, out: &mut Object<A>) -> Result<(), Stop> {
    let mut line = line;
    out.number("packet", line.number()?)?;
    let rest = line.rest()?;
    if let Some(cause) = rest.strip_prefix(PASSED_OVER) {
        out.text("passed_over", cause)?;
        return Ok(());
    }
    let mut ends = Line::new(rest);
    put_end("from", ends.word()?, out)?;
    put_end("to", ends.word()?, out)?;
    ends.end()
}

/// Adds an end of a packet: an address of BACnet/IP (J.1.2), the number of a node on a bus, or `all` of them (9.1.2).
fn put_end<A: Allocator + Copy>(name: &str, end: &str, out: &mut Object<A>) -> Result<(), Stop> {
    match Line::new(end).number() {
        Ok(mac) => out.number(name, mac)?,
        Err(_) => out.text(name, end)?,
    }
    Ok(())
}
