//! A step of a router in every way: by a plan and its commit, with each allocation refused in turn, with each prefix of
//! the octets, and with each octet changed.

use crate::addresses::{push_mac, push_target};
use crate::named::push_npdu;
use npdu::{Mac, Parcel, Target};
use profile::MAX_MOMENT_MS;
use router::{PortParcel, Router};
use sheets::{Counts, Given, Part, Stop, compare, differs, refusal};
use std::alloc::{AllocError, Allocator, Global};
use tags::{Fault, Items};

/// How many allocations of a call are refused at most.
const MANY: u64 = 2000;

/// What each octet is changed to.
const CHANGES: [u8; 4] = [0x00, 0x7F, 0x80, 0xFF];

/// The longest octets of which each is changed: those of a longer NPDU are many, and alike.
const SHORT: usize = 64;

/// Who has a route to any network (6.4.1).
const WHO_IS: [u8; 3] = [0x01, 0x80, 0x00];

/// The address of a station of no row.
const STRANGER: Mac = Mac::Six([10, 0, 0, 1, 0, 1]);

/// What a router is given.
#[derive(Drop)]
pub(crate) enum Input<A: Allocator> {
    /// It wakes.
    Wake,
    /// It hears a parcel on the port of this number.
    Heard(usize, Parcel<A>),
}

/// Appends what goes out.
fn push_out<A: Allocator>(all: &[PortParcel<A>], out: &mut String) -> Result<(), AllocError> {
    let mut mark = "";
    for sent in all {
        write!(out, "{mark}{} ", sent.port)?;
        push_mac(sent.parcel.from, out)?;
        out.push_str(" > ")?;
        push_target(sent.parcel.to, out)?;
        write!(out, " @{} ", sent.parcel.stamp)?;
        push_npdu(sent.parcel.npdu.as_slice(), out)?;
        mark = ", ";
    }
    if mark.is_empty() {
        out.push('-')?;
    }
    Ok(())
}

/// What came of a call, in words.
///
/// # Errors
/// `Memory` where it says so.
fn said<A: Allocator>(
    alloc: Global,
    came: Result<Items<PortParcel<A>, A>, Fault>,
) -> Result<String, Stop> {
    match came {
        Err(Fault::Memory) => Err(Stop::Memory),
        Err(fault) => refusal(alloc, fault),
        Ok(all) => {
            let mut out = String::new(alloc);
            push_out(all.as_slice(), &mut out)?;
            Ok(out)
        }
    }
}

/// What a router says of an input at a moment, in words.
///
/// # Errors
/// `Memory` where it says so, `Unread` for a moment that isn't its.
pub(crate) fn take<A: Allocator + Copy>(
    alloc: Global,
    router: &mut Router<A>,
    input: &Input<A>,
    now: u64,
) -> Result<String, Stop> {
    if now > MAX_MOMENT_MS || now < router.moment() {
        return Err(Stop::Unread(Part::Number));
    }
    match input {
        Input::Wake => said(alloc, router.on_tick(now)),
        Input::Heard(port, parcel) => said(alloc, router.on_parcel(*port, parcel, now)),
    }
}

/// The same by a plan and its commit.
fn take_planned<A: Allocator + Copy>(
    alloc: Global,
    router: &mut Router<A>,
    input: &Input<A>,
    now: u64,
) -> Result<String, Stop> {
    if now > MAX_MOMENT_MS || now < router.moment() {
        return Err(Stop::Unread(Part::Number));
    }
    let plan = match input {
        Input::Wake => router.plan_tick(now),
        Input::Heard(port, parcel) => {
            let npdu = parcel.npdu.as_slice();
            router.plan_npdu(*port, parcel.from, parcel.to, npdu, parcel.stamp, now)
        }
    };
    match plan {
        Err(fault) => said::<A>(alloc, Err(fault)),
        Ok(plan) => {
            let planned = said_of(alloc, plan.out.as_slice())?;
            let out = router.commit(plan, now);
            compare(said_of(alloc, out.as_slice())?, planned.as_str())?;
            Ok(planned)
        }
    }
}

/// What goes out, in words.
fn said_of<A: Allocator>(alloc: Global, all: &[PortParcel<A>]) -> Result<String, Stop> {
    let mut out = String::new(alloc);
    push_out(all, &mut out)?;
    Ok(out)
}

/// What a router knows, in words: its moment, how many routes it learned, what it says at a wake, and which networks
/// it names on each of its ports.
fn state<A: Allocator + Copy>(
    given: Given<'_>,
    memory: A,
    router: &Router<A>,
) -> Result<String, Stop> {
    let mut copy = router.copy()?;
    let now = copy.moment();
    let mut out = format!(in given.alloc; "{now} {}", copy.route_count())?;
    out.push_str(take(given.alloc, &mut copy, &Input::Wake, now)?.as_str())?;
    for port in 0..router.ports().len() {
        let parcel = Parcel {
            from: STRANGER,
            to: Target::All,
            npdu: Items::from_slice(memory, &WHO_IS)?,
            stamp: now,
        };
        let said = take(given.alloc, &mut copy, &Input::Heard(port, parcel), now)?;
        out.push_str(said.as_str())?;
    }
    Ok(out)
}

/// Takes an input on copies with each allocation refused in turn, until none is. A copy is then as it was, and the same
/// call made again gives what is wanted. Answers how many were refused: none of what is dropped.
fn refuse_each<A: Allocator + Copy>(
    given: Given<'_>,
    memory: A,
    router: &Router<A>,
    input: &Input<A>,
    now: u64,
    wanted: &str,
) -> Result<u64, Stop> {
    let before = state(given, memory, router)?;
    for refused in 0..MANY {
        let mut copy = router.copy()?;
        given.memory.refuse_only(refused + 1);
        let came = take(given.alloc, &mut copy, input, now);
        let is_met = !given.memory.is_waiting();
        given.memory.refuse_only(0);
        match came {
            Err(Stop::Memory) if is_met && wanted != "-" => {}
            Ok(_) if !is_met => return Ok(refused),
            _ => return Err(differs(
                given.alloc,
                "want of memory where there was enough, or the reverse",
            )),
        }
        if state(given, memory, &copy)? != before {
            return Err(differs(given.alloc, "a change where memory was refused"));
        }
        compare(take(given.alloc, &mut copy, input, now)?, wanted)?;
    }
    Err(differs(given.alloc, "a call that is refused memory again and again"))
}

/// Takes an input where each allocation is refused: what is dropped is dropped still.
fn refuse_all<A: Allocator + Copy>(
    given: Given<'_>,
    router: &Router<A>,
    input: &Input<A>,
    now: u64,
    wanted: &str,
) -> Result<(), Stop> {
    let mut copy = router.copy()?;
    given.memory.refuse_all();
    let came = take(given.alloc, &mut copy, input, now);
    given.memory.refuse_only(0);
    match came {
        Err(Stop::Memory) if wanted != "-" => Ok(()),
        Ok(found) => compare(found, wanted),
        Err(_) => Err(differs(given.alloc, "want of memory for what is dropped")),
    }
}

/// Hears other octets on a copy. What is refused leaves it as it was.
fn hear_other<A: Allocator + Copy>(
    given: Given<'_>,
    memory: A,
    router: &Router<A>,
    (port, parcel): (usize, &Parcel<A>),
    octets: &[u8],
    now: u64,
) -> Result<(), Stop> {
    let mut copy = router.copy()?;
    let other = Parcel {
        from: parcel.from,
        to: parcel.to,
        npdu: Items::from_slice(memory, octets)?,
        stamp: parcel.stamp,
    };
    let said = take(given.alloc, &mut copy, &Input::Heard(port, other), now)?;
    if said.starts_with("refused")
        && state(given, memory, &copy)? != state(given, memory, router)?
    {
        return Err(differs(given.alloc, "a change where the parcel was refused"));
    }
    Ok(())
}

/// Hears each prefix of the octets, and them with each octet changed, on copies. Answers how many runs there were.
fn change_each<A: Allocator + Copy>(
    given: Given<'_>,
    memory: A,
    router: &Router<A>,
    (port, parcel): (usize, &Parcel<A>),
    now: u64,
) -> Result<u64, Stop> {
    let octets = parcel.npdu.as_slice();
    if octets.len() > SHORT {
        return Ok(0);
    }
    let mut runs = 0u64;
    let mut other = Vec::from_slice(given.alloc, octets)?;
    for (at, octet) in octets.iter().enumerate() {
        let cut = octets.get(..at).unwrap_or(&[]);
        hear_other(given, memory, router, (port, parcel), cut, now)?;
        for instead in CHANGES {
            other[at] = instead;
            hear_other(given, memory, router, (port, parcel), other.as_slice(), now)?;
        }
        other[at] = *octet;
        runs = runs.saturating_add(5);
    }
    Ok(runs)
}

/// Copies a router with each allocation refused in turn, until none is. Answers how many were.
fn refuse_copy<A: Allocator + Copy>(given: Given<'_>, router: &Router<A>) -> Result<u64, Stop> {
    for refused in 0..MANY {
        given.memory.refuse_only(refused + 1);
        let came = router.copy();
        let is_met = !given.memory.is_waiting();
        given.memory.refuse_only(0);
        match came {
            Err(AllocError) if is_met => {}
            Ok(_) if !is_met => return Ok(refused),
            _ => return Err(differs(
                given.alloc,
                "a copy where memory was refused, or none where it wasn't",
            )),
        }
    }
    Err(differs(given.alloc, "a copy that is refused memory again and again"))
}

/// Takes an input in every way, and answers what is said.
///
/// # Errors
/// `Differs` where one of this does not hold.
pub(crate) fn try_input<A: Allocator + Copy>(
    given: Given<'_>,
    memory: A,
    router: &mut Router<A>,
    input: &Input<A>,
    now: u64,
    counts: &mut Counts,
) -> Result<String, Stop> {
    let mut copy = router.copy()?;
    let wanted = take_planned(given.alloc, &mut copy, input, now)?;
    let refused = refuse_each(given, memory, router, input, now, wanted.as_str())?;
    refuse_all(given, router, input, now, wanted.as_str())?;
    let copied = refuse_copy(given, router)?;
    counts.refused = counts
        .refused
        .saturating_add(refused)
        .saturating_add(copied);
    if let Input::Heard(port, parcel) = input {
        let changed = change_each(given, memory, router, (*port, parcel), now)?;
        counts.changed = counts.changed.saturating_add(changed);
    }
    take(given.alloc, router, input, now)
}
