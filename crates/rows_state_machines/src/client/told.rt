//! What a client says and tells, in words: `say 02650000..`, the octets of an APDU, and `tell 0 values enum 1`, an
//! outcome under its invoke ID. What is longer than 48 octets or characters is told by its front and its length.
//! More than eight outcomes that are alike, in order of their invoke IDs, are told as one: `tell 0..255 timed out`.

use crate::telling::push_front;
use apdu::Apdu;
use npdu::Way;
use primitives::Reply;
use sheets::{Stop, differs, push_mark};
use std::alloc::{AllocError, Allocator};
use tags::Items;
use transactions::{ClientSaid, ClientTsmIssued, ClientTsmTold, Outcome, TransactionOutcome};
use words::Words;

/// How many octets or characters are told in full.
const SHORT: usize = 48;

/// How many octets of a longer APDU are told.
const FRONT: usize = 12;

/// Appends the invoke ID of a request, and what is said of it, all of it on this way.
///
/// # Errors
/// `Differs` where it is said on another, `Memory`.
pub(crate) fn push_issued<A: Allocator>(
    issued: &ClientTsmIssued<A>,
    way: Way,
    out: &mut String,
) -> Result<(), Stop> {
    write!(out, "as {}", issued.invoke_id)?;
    push_said(&issued.said, way, out)
}

/// Appends what is said, all of it on this way, and what is told.
///
/// # Errors
/// `Differs` where it is said on another, `Memory`.
pub(crate) fn push_client_told<A: Allocator>(
    told: &ClientTsmTold<A>,
    way: Way,
    out: &mut String,
) -> Result<(), Stop> {
    push_said(&told.said, way, out)?;
    push_told(told.told.as_slice(), out)?;
    if out.is_empty() {
        out.push('-')?;
    }
    Ok(())
}

/// Appends what is said, all of it on this way.
fn push_said<A: Allocator>(
    said: &Items<ClientSaid<A>, A>,
    way: Way,
    out: &mut String,
) -> Result<(), Stop> {
    for one in said.as_slice() {
        if one.way() != way {
            return Err(differs(*out.allocator(), "what is said to another"));
        }
        push_apdu(&one.apdu(), out)?;
    }
    Ok(())
}

/// Appends an APDU that is said.
fn push_apdu(apdu: &Apdu<'_>, out: &mut String) -> Result<(), Stop> {
    if !apdu.is_sound() {
        return Err(differs(*out.allocator(), "an APDU without a spelling"));
    }
    push_mark(", ", out)?;
    out.push_str("say ")?;
    let mut octets = Vec::new(*out.allocator());
    apdu.write(&mut octets)?;
    Ok(push_front(octets.as_slice(), SHORT, FRONT, out)?)
}

/// Appends what is told.
fn push_told<A: Allocator>(
    all: &[TransactionOutcome<A>],
    out: &mut String,
) -> Result<(), AllocError> {
    if let [first, .., last] = all
        && all.len() > 8
        && are_alike(all)
    {
        return push_ends(first, last, out);
    }
    for one in all {
        push_ends(one, one, out)?;
    }
    Ok(())
}

/// Whether these are ends in order of their invoke IDs.
fn are_alike<A: Allocator>(all: &[TransactionOutcome<A>]) -> bool {
    for (at, one) in all.iter().enumerate() {
        if one.invoke_id as usize != at || one.outcome != Outcome::TimedOut {
            return false;
        }
    }
    true
}

/// Appends the outcome that the requests from the first to the last have.
fn push_ends<A: Allocator>(
    first: &TransactionOutcome<A>,
    last: &TransactionOutcome<A>,
    out: &mut String,
) -> Result<(), AllocError> {
    push_mark(", ", out)?;
    push_invoke_ids(first.invoke_id, last.invoke_id, out)?;
    push_outcome(&first.outcome, out)
}

/// Appends the first and the last invoke ID of an outcome, or the one that it has.
fn push_invoke_ids(first: u8, last: u8, out: &mut String) -> Result<(), AllocError> {
    if first == last {
        return write!(out, "tell {first} ");
    }
    write!(out, "tell {first}..{last} ")
}

/// Appends an outcome.
fn push_outcome<A: Allocator>(outcome: &Outcome<A>, out: &mut String) -> Result<(), AllocError> {
    match outcome {
        Outcome::Answered(reply) => push_reply(reply, out),
        Outcome::Aborted(reason) => push_reason("aborted", u8::from(*reason), out),
        Outcome::Rejected(reason) => push_reason("rejected", u8::from(*reason), out),
        Outcome::TimedOut => out.push_str("timed out"),
    }
}

/// Appends why a request came to this end.
fn push_reason(end: &str, reason: u8, out: &mut String) -> Result<(), AllocError> {
    write!(out, "{end} {reason}")
}

/// Appends a reply, or its front and its length.
fn push_reply<A: Allocator>(reply: &Reply<A>, out: &mut String) -> Result<(), AllocError> {
    let words = format!(in *out.allocator(); "{}", Words(reply))?;
    push_short(words.as_str(), out)
}

/// Appends a text, or its front and its length.
fn push_short(text: &str, out: &mut String) -> Result<(), AllocError> {
    match text.get(..SHORT) {
        Some(front) if text.len() > SHORT => write!(out, "{front}..{}", text.len()),
        _ => out.push_str(text),
    }
}
