//! Remembered answers in words: `1:05/7 simple at 0 by 05`, where `by` is the address that it goes to, and the
//! numbers of the segments behind `says` those that go together. An answer is `simple`, `complex 0714`,
//! `error 91029128` or `abort 9`.

use crate::askers::push_asker;
use apdu::{AbortReason, ConfirmedService};
use npdu::Way;
use remembered::{Asker, Record, RememberedAnswer};
use sheets::{Part, Stop, octets, push_octets, small, two_words};
use std::alloc::{AllocError, Allocator};

/// How many octets of an answer go in a segment: as many as an APDU on MS/TP has room for (5.2.1.1).
const CHUNK: usize = 475;

/// An answer of which these are the words.
fn read_answer<A: Allocator + Copy>(alloc: A, words: &str) -> Result<RememberedAnswer<A>, Stop> {
    match two_words(words) {
        ("simple", "") => Ok(RememberedAnswer::Simple),
        ("complex", digits) => Ok(RememberedAnswer::Complex(octets(alloc, digits)?)),
        ("error", digits) => Ok(RememberedAnswer::Error(octets(alloc, digits)?)),
        ("abort", reason) => Ok(RememberedAnswer::Abort(AbortReason::from(small(reason)?))),
        _ => Err(Stop::Unread(Part::Asked)),
    }
}

/// The record of a write that this asker has executed at this moment, which goes to the asker itself.
///
/// # Errors
/// `Unread` where the words are none of an answer, `Memory`.
pub(crate) fn entry_of<A: Allocator + Copy>(
    alloc: A,
    asker: Asker,
    at: u64,
    words: &str,
) -> Result<Record<A>, Stop> {
    Ok(Record {
        asker,
        service: ConfirmedService::WriteProperty,
        answer: read_answer(alloc, words)?,
        chunk: CHUNK,
        at,
        way: Way {
            to: asker.station.mac,
            destination: None,
        },
        sending: None,
    })
}

/// The octets of a remembered answer, none where it has none.
fn octets_of<A: Allocator>(answer: &RememberedAnswer<A>) -> &[u8] {
    match answer {
        RememberedAnswer::Complex(octets) | RememberedAnswer::Error(octets) => octets.as_slice(),
        RememberedAnswer::Simple | RememberedAnswer::Abort(_) => &[],
    }
}

/// Appends an answer in words.
fn push_answer<A: Allocator>(
    answer: &RememberedAnswer<A>,
    out: &mut String,
) -> Result<(), AllocError> {
    match answer {
        RememberedAnswer::Simple => return out.push_str("simple"),
        RememberedAnswer::Abort(reason) => return write!(out, "abort {}", u8::from(*reason)),
        RememberedAnswer::Complex(_) => out.push_str("complex ")?,
        RememberedAnswer::Error(_) => out.push_str("error ")?,
    }
    push_octets(octets_of(answer), out)
}

/// Appends a record in words, or `none`.
///
/// # Errors
/// Want of memory.
pub(crate) fn push_entry<A: Allocator>(
    entry: Option<&Record<A>>,
    out: &mut String,
) -> Result<(), AllocError> {
    let Some(entry) = entry else {
        return out.push_str("none");
    };
    push_asker(entry.asker, out)?;
    out.push(' ')?;
    push_answer(&entry.answer, out)?;
    write!(out, " at {} by ", entry.at)?;
    push_octets(entry.way.to.as_octets(), out)?;
    push_sending(entry, out)
}

/// Appends the segments of an answer that go together, where it is being said in segments.
fn push_sending<A: Allocator>(entry: &Record<A>, out: &mut String) -> Result<(), AllocError> {
    let Some(sender) = entry.sending else {
        return Ok(());
    };
    out.push_str(" says")?;
    for piece in sender.window(octets_of(&entry.answer)) {
        write!(out, " {}", piece.number)?;
    }
    Ok(())
}
