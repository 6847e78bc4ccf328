//! The lines of a history: entries, refusals, what was put out, and the last one. Each has its moment, in milliseconds,
//! and the word of its entry.

use crate::line::Line;
use crate::replies::put_reply;
use crate::requests::put_request;
use crate::stop::Stop;
use json_object::Object;
use std::alloc::{AllocError, Allocator};
use words::{parse_any_reply, parse_any_request, parse_u64};

/// Adds what a line of a history says.
///
/// # Errors
/// `Memory`, and `Unknown` of any other line.
pub(crate) fn put_history<A: Allocator + Copy>(
    alloc: A,
    line: &str,
    out: &mut Object<A>,
) -> Result<(), Stop> {
    let mut line = Line::new(line);
    let first = line.word()?;
    if first == "end" {
        return put_counts(line, out);
    }
    let moment = parse_u64(first)?;
    let entry = line.word()?;
    put_entry(moment, entry, out)?;
    match entry {
        "issue" => put_issue(alloc, line, out),
        "executed" | "answered" => put_replied(alloc, line, out),
        "ended" => put_ended(line, out),
        "restarted" => put_restarted(line, out),
        "refused" => put_refused(line, out),
        "item" => put_item(line, out),
        "frame" => put_frame(line, out),
        "stray" => line.end(),
        _ => Err(Stop::Unknown),
    }
}

/// Adds the moment of an entry, and its word.
fn put_entry<A: Allocator + Copy>(
    moment: u64,
    entry: &str,
    out: &mut Object<A>,
) -> Result<(), AllocError> {
    out.number("moment", moment)?;
    out.text("entry", entry)
}

/// `NUMBER CLIENT INSTANCE REQUEST`, of an issue.
fn put_issue<A: Allocator + Copy>(
    alloc: A,
    line: Line<'_>,
    out: &mut Object<A>,
) -> Result<(), Stop> {
    let mut line = line;
    out.number("number", line.number()?)?;
    out.text("client", line.word()?)?;
    out.number("instance", line.number()?)?;
    let request = parse_any_request(alloc, line.rest()?)?;
    put_request(&request, out)?;
    Ok(())
}

/// `NUMBER REPLY`, of an execution or an answer.
fn put_replied<A: Allocator + Copy>(
    alloc: A,
    line: Line<'_>,
    out: &mut Object<A>,
) -> Result<(), Stop> {
    let mut line = line;
    out.number("number", line.number()?)?;
    let reply = parse_any_reply(alloc, line.rest()?)?;
    put_reply(&reply, out)?;
    Ok(())
}

/// `NUMBER timedout`, `NUMBER rejected REASON` or `NUMBER aborted REASON` (20.1.8, 20.1.9).
fn put_ended<A: Allocator + Copy>(line: Line<'_>, out: &mut Object<A>) -> Result<(), Stop> {
    let mut line = line;
    out.number("number", line.number()?)?;
    let why = line.word()?;
    out.text("why", why)?;
    match why {
        "timedout" => {}
        "rejected" | "aborted" => out.number("reason", line.number()?)?,
        _ => return Err(Stop::Unknown),
    }
    line.end()
}

/// `DEVICE`, of a restart.
fn put_restarted<A: Allocator + Copy>(line: Line<'_>, out: &mut Object<A>) -> Result<(), Stop> {
    let mut line = line;
    out.text("device", line.word()?)?;
    line.end()
}

/// `CAUSE NAME`, of a refusal.
pub(crate) fn put_refused<A: Allocator + Copy>(
    line: Line<'_>,
    out: &mut Object<A>,
) -> Result<(), Stop> {
    let mut line = line;
    out.number("refusal", line.number()?)?;
    out.text("name", line.word()?)?;
    line.end()
}

/// `NUMBER FROM TO OCTETS`, of a datagram that was put out.
fn put_item<A: Allocator + Copy>(line: Line<'_>, out: &mut Object<A>) -> Result<(), Stop> {
    let mut line = line;
    out.number("number", line.number()?)?;
    out.text("from", line.word()?)?;
    out.text("to", line.word()?)?;
    out.text("octets", line.octets()?)?;
    line.end()
}

/// `NUMBER NETWORK FROM OCTETS`, of a frame that was put out (9.3).
fn put_frame<A: Allocator + Copy>(line: Line<'_>, out: &mut Object<A>) -> Result<(), Stop> {
    let mut line = line;
    out.number("number", line.number()?)?;
    out.number("network", line.number()?)?;
    out.text("from", line.word()?)?;
    out.text("octets", line.octets()?)?;
    line.end()
}

/// `MOMENT issued N executed N answered N ended N`, of the last line.
fn put_counts<A: Allocator + Copy>(line: Line<'_>, out: &mut Object<A>) -> Result<(), Stop> {
    let mut line = line;
    put_entry(line.number()?, "end", out)?;
    for word in ["issued", "executed", "answered", "ended"] {
        out.number(word, line.number_behind(word)?)?;
    }
    line.end()
}
