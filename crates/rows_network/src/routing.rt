//! What a router says, step by step: `1 47808, 2 1: 0 47810 > 47808 012400020105FF02; wake -> 1 1 > 5 @0 ..; ..`, of
//! the router with the port 0 on network 1, at the address 47808 there, and the port 1 on network 2.
//!
//! - `@1000 400`: the moment of what follows, and that at which it was said; `@1000` where both are one.
//! - `wake`: it wakes.
//! - `0 47810 > 47808 OCTETS`: on port 0 it hears these octets, from there to there.
//!
//! Told is all that goes out, each with its port, from whom, to whom, when it was said and its octets, `-` for none, or
//! the refusal. Each input is taken in every way of `stepping`.

use crate::addresses::{from_and_to, stations};
use crate::named::parse_npdu;
use crate::stepping::{Input, try_input};
use npdu::{Parcel, Station};
use router::{Router, are_numbered};
use sheets::{Counts, Given, Part, Stop, compare, differs, push_mark, two_words};
use std::alloc::Allocator;
use tags::Items;
use words::parse_number;

/// How many allocations of a call are refused at most.
const MANY: u64 = 100;

/// The moment of a step, and the one at which what it hears was said.
#[derive(Clone, Copy)]
struct Clock {
    now: u64,
    stamp: u64,
}

/// A clock in words.
fn clock_of(words: &str) -> Result<Clock, Stop> {
    let (now, stamp) = two_words(words);
    let now = parse_number(now)?;
    if stamp.is_empty() {
        return Ok(Clock { now, stamp: now });
    }
    Ok(Clock {
        now,
        stamp: parse_number(stamp)?,
    })
}

/// An input in words.
fn input_of<A: Allocator + Copy>(
    given: Given<'_>,
    memory: A,
    words: &str,
    stamp: u64,
) -> Result<Input<A>, Stop> {
    if words == "wake" {
        return Ok(Input::Wake);
    }
    let (port, rest) = two_words(words);
    let (from, to, octets) = from_and_to(rest)?;
    let octets = parse_npdu(given.alloc, octets)?;
    let parcel = Parcel {
        from,
        to,
        npdu: Items::from_slice(memory, octets.as_slice())?,
        stamp,
    };
    Ok(Input::Heard(parse_number(port)?, parcel))
}

/// Takes the steps of a row, and answers what is said.
fn take_all<A: Allocator + Copy>(
    given: Given<'_>,
    memory: A,
    router: &mut Router<A>,
    steps: &str,
    counts: &mut Counts,
) -> Result<String, Stop> {
    let mut out = String::new(given.alloc);
    let mut at = Clock { now: 0, stamp: 0 };
    for step in steps.split("; ") {
        match step.strip_prefix("@") {
            Some(words) => at = clock_of(words)?,
            None => {
                let input = input_of(given, memory, step, at.stamp)?;
                let said = try_input(given, memory, router, &input, at.now, counts)?;
                push_mark("; ", &mut out)?;
                out.push_str(said.as_str())?;
            }
        }
    }
    Ok(out)
}

/// A router with these ports.
///
/// # Errors
/// `Unread` where a network has no number, `Memory`.
fn router_of<A: Allocator + Copy>(memory: A, ports: &[Station]) -> Result<Router<A>, Stop> {
    if !are_numbered(ports) {
        return Err(Stop::Unread(Part::Number));
    }
    Ok(Router::new(memory, ports)?)
}

/// Makes a router with each allocation refused in turn, until none is. Answers how many were.
fn refuse_new<A: Allocator + Copy>(
    given: Given<'_>,
    memory: A,
    ports: &[Station],
) -> Result<u64, Stop> {
    for refused in 0..MANY {
        given.memory.refuse_only(refused + 1);
        let came = router_of(memory, ports);
        let is_met = !given.memory.is_waiting();
        given.memory.refuse_only(0);
        match came {
            Err(Stop::Memory) if is_met => {}
            Ok(_) if !is_met => return Ok(refused),
            _ => return Err(differs(given.alloc, "a router where memory was refused")),
        }
    }
    Err(differs(
        given.alloc,
        "a router that is refused memory again and again",
    ))
}

/// Runs a row in this memory, that of `given`.
pub(crate) fn run<A: Allocator + Copy>(
    given: Given<'_>,
    memory: A,
    asked: &str,
    wanted: &str,
) -> Result<Counts, Stop> {
    let Some((ports, steps)) = asked.split_once(": ") else {
        return Err(Stop::Unread(Part::Asked));
    };
    let ports = stations(given.alloc, ports)?;
    let mut router = router_of(memory, ports.as_slice())?;
    let mut counts = Counts {
        rows: 1,
        refused: refuse_new(given, memory, ports.as_slice())?,
        changed: 0,
    };
    let said = take_all(given, memory, &mut router, steps, &mut counts)?;
    compare(said, wanted)?;
    Ok(counts)
}
