//! What a port on a bus of MS/TP puts out and hands up, call by call: `1 @0: @509 ticks; @510 tick -> 0 frames; 2 @510
//! 55FF0102010000F5`, the port at the address 1 of network 2, made at 0, ticked each millisecond from there to 509, and
//! at 510. A call stands as one of a port of BACnet/IP does, behind its moment; `due` tells whether anything is due,
//! and `rounds 48 8 OCTETS` is a frame from 8 that is heard 48 times, each time behind so many octets as it has.
//!
//! The calls are made to a copy, with each allocation refused in turn.

use crate::addresses::mac;
use crate::ports::{At, Call, Came, Question, answer, at_of, make, question_of};
use link::Link;
use link_bus::BusPort;
use sheets::{Counts, Given, Part, Stop, Trial, octets, push_mark, small, try_row, two_words};
use std::alloc::{Allocator, Global};
use tags::Fault;
use words::parse_number;

/// A port in words, and the calls that are made, one after another.
#[derive(Drop)]
struct Asked<'r, A: Allocator + Copy> {
    memory: A,
    other: A,
    place: &'r str,
    calls: &'r str,
}

impl<'r, 'a, A: Allocator + Copy> Trial<'a> for Asked<'r, A> {
    fn answer(&self, given: Given<'a>, _octets: &[u8]) -> Result<String, Stop> {
        let made = port_of(self.memory, self.place)?;
        let mut port = made.copy()?;
        let mut all = String::new(given.alloc);
        for words in self.calls.split("; ") {
            push_mark("; ", &mut all)?;
            all.push_str(&told(given.alloc, self.other, &mut port, words)?)?;
        }
        Ok(all)
    }
}

/// Runs a row.
pub(crate) fn run(given: Given<'_>, asked: &str, wanted: &str) -> Result<Counts, Stop> {
    let Some((place, calls)) = asked.split_once(": ") else {
        return Err(Stop::Unread(Part::Asked));
    };
    let asked = Asked {
        memory: given.memory,
        other: given.other,
        place,
        calls,
    };
    try_row(given, &asked, &[], wanted)
}

/// The port that words name, on network 2: `1 @0`, its address and when it is made.
fn port_of<A: Allocator + Copy>(memory: A, words: &str) -> Result<BusPort<A>, Stop> {
    let Some((address, now)) = words.split_once(" @") else {
        return Err(Stop::Unread(Part::Asked));
    };
    Ok(BusPort::new(memory, 2, small(address)?, parse_number(now)?))
}

/// What comes of a call, in words.
fn told<A: Allocator + Copy>(
    alloc: Global,
    other: A,
    port: &mut BusPort<A>,
    words: &str,
) -> Result<String, Stop> {
    let (at, call) = two_words(words);
    let Some(at) = at.strip_prefix('@') else {
        return Err(Stop::Unread(Part::Asked));
    };
    let at = at_of(at)?;
    if call == "ticks" {
        return Ok(format!(in alloc; "{} frames", frames_until(other, port, at.now)?)?);
    }
    if let Some(words) = call.strip_prefix("rounds ") {
        return Ok(format!(in alloc; "{} frames", frames_in(alloc, other, port, words, at)?)?);
    }
    let (question, digits) = question_of(call)?;
    match question {
        Question::Due => Ok(format!(in alloc; "{}", port.is_due(at.now))?),
        Question::Made(call) => {
            let octets = octets(alloc, digits)?;
            answer(alloc, other, port, call, octets.as_slice(), at)
        }
    }
}

/// How many frames are put out.
fn count_of<A: Allocator>(came: Result<Came<A>, Fault>) -> Result<usize, Stop> {
    match came {
        Ok(came) => Ok(came.out.len()),
        Err(Fault::Memory) => Err(Stop::Memory),
        Err(_) => Err(Stop::Unread(Part::Asked)),
    }
}

/// How many frames a port puts out that is ticked each millisecond behind its moment, to this one.
fn frames_until<A: Allocator + Copy>(
    other: A,
    port: &mut BusPort<A>,
    until: u64,
) -> Result<usize, Stop> {
    let mut count = 0usize;
    for now in port.moment().saturating_add(1)..until.saturating_add(1) {
        let at = At { now, stamp: now };
        count = count.saturating_add(count_of(make(other, port, Call::Tick, &[], at)?)?);
    }
    Ok(count)
}

/// How many frames a port puts out that hears a frame so many times, each time behind its octets.
fn frames_in<A: Allocator + Copy>(
    alloc: Global,
    other: A,
    port: &mut BusPort<A>,
    words: &str,
    at: At,
) -> Result<usize, Stop> {
    let (rounds, rest) = two_words(words);
    let (from, digits) = two_words(rest);
    let rounds: u64 = parse_number(rounds)?;
    let from = mac(from)?;
    let frame = octets(alloc, digits)?;
    let mut count = 0usize;
    for _ in 0..rounds {
        let told = count_of(make(other, port, Call::Octets(frame.len()), &[], at)?)?;
        let heard = count_of(make(other, port, Call::Heard { from }, frame.as_slice(), at)?)?;
        count = count.saturating_add(told).saturating_add(heard);
    }
    Ok(count)
}
