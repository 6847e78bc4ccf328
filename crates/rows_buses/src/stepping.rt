//! The steps of a row in every way: `2 with 5 16: @0 2.5 puts 55FF00100500008C; @0 2.16 hears 55FF00100500008C -> 8 end
//! 55FF00100500008C @0`, of one bus or of several.
//!
//! Each call is made with each allocation refused in turn: nothing has changed then, and the same call made again gives
//! what is wanted. What is refused changes nothing. Octets are also heard with each of their prefixes and with each
//! octet changed: no frame comes of that which wasn't put out there, and none that is too old.

use crate::shown::push_bus;
use crate::steps::{At, Moments, Step, step_of};
use crate::wires::{Wires, wires_of};
use bus_traffic::Hearing;
use profile::LIFE_MS;
use sheets::{Counts, Given, Part, Row, Stop, compare, differs, push_mark};
use std::alloc::{AllocError, Allocator, Global};

/// How many allocations of a call are refused at most.
const MANY: u64 = 1000;

/// What each octet is changed to.
const CHANGES: [u8; 4] = [0x00, 0x7F, 0x80, 0xFF];

/// A frame that was put out, on the network of a number and with a stamp.
#[derive(Drop)]
struct Said {
    net: u16,
    octets: Vec<u8>,
    stamp: u64,
}

/// A frame that is put out.
fn said_by(alloc: Global, at: At, octets: &[u8], stamp: u64) -> Result<Said, AllocError> {
    Ok(Said {
        net: at.net,
        octets: Vec::from_slice(alloc, octets)?,
        stamp,
    })
}

/// All that is known, in words.
fn state<A: Allocator + Copy>(alloc: Global, wires: &Wires<A>) -> Result<String, AllocError> {
    let mut out = format!(in alloc; "{}\n", wires.frames)?;
    for bus in wires.buses.as_slice() {
        push_bus(bus, &mut out)?;
    }
    Ok(out)
}

/// Makes buses with each allocation refused in turn, until none is.
fn wires_with<A: Allocator + Copy>(
    given: Given<'_>,
    memory: A,
    words: &str,
    counts: &mut Counts,
) -> Result<Wires<A>, Stop> {
    for refused in 0..MANY {
        given.memory.refuse_only(refused + 1);
        let came = wires_of(given.alloc, memory, words);
        let is_met = !given.memory.is_waiting();
        given.memory.refuse_only(0);
        match came {
            Err(Stop::Memory) if is_met => counts.refused = counts.refused.saturating_add(1),
            Err(stop) => return Err(stop),
            Ok(wires) if !is_met => return Ok(wires),
            Ok(_) => return Err(differs(given.alloc, "buses where memory was refused")),
        }
    }
    Err(differs(given.alloc, "buses that are refused memory again and again"))
}

/// Makes a step with each allocation refused in turn, until none is: nothing has changed where one was, or where the
/// step is refused.
fn make_refused<A: Allocator + Copy>(
    given: Given<'_>,
    memory: A,
    wires: &mut Wires<A>,
    step: &Step,
    when: Moments,
    counts: &mut Counts,
) -> Result<Option<String>, Stop> {
    let before = state(given.alloc, wires)?;
    for refused in 0..MANY {
        given.memory.refuse_only(refused + 1);
        let came = wires.make(given.alloc, memory, step, when);
        let is_met = !given.memory.is_waiting();
        given.memory.refuse_only(0);
        let is_refused = match &came {
            Err(Stop::Memory) if is_met => true,
            Ok(_) if !is_met => false,
            Err(Stop::Unread(part)) => return Err(Stop::Unread(*part)),
            _ => return Err(differs(
                given.alloc,
                "want of memory where there was enough, or the reverse",
            )),
        };
        let stays = is_refused || is_refusal(&came);
        if stays && state(given.alloc, wires)? != before {
            return Err(differs(given.alloc, "a change where a call was refused"));
        }
        if !is_refused {
            return came;
        }
        counts.refused = counts.refused.saturating_add(1);
    }
    Err(differs(given.alloc, "a call that is refused memory again and again"))
}

/// Whether a step was refused, in words.
fn is_refusal(came: &Result<Option<String>, Stop>) -> bool {
    match came {
        Ok(Some(text)) => text.starts_with("refused"),
        _ => false,
    }
}

/// Whether each frame that is heard was put out on that network, not too long ago, with the stamp that it has.
fn are_said<A: Allocator>(said: &[Said], net: u16, hearing: &Hearing<A>, now: u64) -> bool {
    hearing.frames.as_slice().iter().all(|frame| {
        now.saturating_sub(frame.stamp) <= LIFE_MS
            && said.iter().any(|said| {
                said.net == net
                    && said.octets.as_slice() == frame.octets.as_slice()
                    && said.stamp == frame.stamp
            })
    })
}

/// Hears other octets, and takes nothing of it.
fn hear_other<A: Allocator + Copy>(
    given: Given<'_>,
    memory: A,
    (wires, said): (&Wires<A>, &[Said]),
    at: At,
    octets: &[u8],
    now: u64,
) -> Result<(), Stop> {
    match wires.hearing(memory, at, octets, now) {
        Ok(hearing) if !are_said(said, at.net, &hearing, now) => Err(differs(
            given.alloc,
            "a frame that nobody put out, or that is too old",
        )),
        _ => Ok(()),
    }
}

/// Hears each prefix of octets, and them with each octet changed. Answers how many runs there were.
fn hear_changed<A: Allocator + Copy>(
    given: Given<'_>,
    memory: A,
    known: (&Wires<A>, &[Said]),
    at: At,
    octets: &[u8],
    now: u64,
) -> Result<u64, Stop> {
    let mut runs = 0u64;
    let mut other = Vec::from_slice(given.alloc, octets)?;
    for (place, octet) in octets.iter().enumerate() {
        let cut = octets.get(..place).unwrap_or(&[]);
        hear_other(given, memory, known, at, cut, now)?;
        for instead in CHANGES {
            other[place] = instead;
            hear_other(given, memory, known, at, other.as_slice(), now)?;
        }
        other[place] = *octet;
        runs = runs.saturating_add(5);
    }
    Ok(runs)
}

/// Makes a step in every way.
fn try_step<A: Allocator + Copy>(
    given: Given<'_>,
    memory: A,
    (wires, said): (&mut Wires<A>, &mut Vec<Said>),
    step: &Step,
    when: Moments,
    counts: &mut Counts,
) -> Result<Option<String>, Stop> {
    match step {
        Step::PutEach { at, octets, until } => {
            for stamp in when.now..until.saturating_add(1) {
                said.push(said_by(given.alloc, *at, octets.as_slice(), stamp)?)?;
            }
            return wires.make(given.alloc, memory, step, when);
        }
        Step::Put { at, octets } => {
            said.push(said_by(given.alloc, *at, octets.as_slice(), when.stamp)?)?;
        }
        Step::Hear { at, octets } => {
            let known = (&*wires, said.as_slice());
            let octets = octets.as_slice();
            let changed = hear_changed(given, memory, known, *at, octets, when.now)?;
            counts.changed = counts.changed.saturating_add(changed);
        }
        _ => {}
    }
    make_refused(given, memory, wires, step, when, counts)
}

/// Runs a row in this memory, that of `given`.
///
/// # Errors
/// `Differs` where it does not hold, `Unread`, `Memory`.
pub(crate) fn run<A: Allocator + Copy>(
    given: Given<'_>,
    memory: A,
    row: &Row<'_>,
) -> Result<Counts, Stop> {
    let Some((buses, steps)) = row.asked.split_once(": ") else {
        return Err(Stop::Unread(Part::Asked));
    };
    let mut counts = Counts {
        rows: 1,
        refused: 0,
        changed: 0,
    };
    let mut wires = wires_with(given, memory, buses, &mut counts)?;
    let mut said = Vec::new(given.alloc);
    let mut out = String::new(given.alloc);
    for words in steps.split("; ") {
        let (when, step) = step_of(given.alloc, words)?;
        let both = (&mut wires, &mut said);
        if let Some(text) = try_step(given, memory, both, &step, when, &mut counts)? {
            push_mark("; ", &mut out)?;
            out.push_str(text.as_str())?;
        }
    }
    compare(out, row.wanted()?)?;
    Ok(counts)
}
