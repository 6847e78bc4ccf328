//! What a broadcast manager says: `47808 of 47810 with 47808 47809: 47824 81050006003C; @10000; 47830 81060004 ->
//! 47824 810000060000; 47830 8107000E7F000001BAD0003C0050`, the manager at 47808 with the member 47810 of its subnet
//! and the managers 47808 and 47809.
//!
//! - `@10000`: the moment of what follows. `tick`: it wakes.
//! - `47824 OCTETS`: these octets come from there. Told is each addressee with the octets that go there, `-` for
//!   none, or the refusal. Of `47900..47931 OCTETS` from each of these in turn, where the same octets go back to each,
//!   they are told once: `each OCTETS`.
//!
//! Each input is heard again by copies with each allocation refused in turn, with each prefix of its octets and with
//! each octet changed.

use crate::network::addresses::{addresses, at_port, port, ports, push_address};
use bbmd::{Bbmd, Outgoing};
use bvll::Address;
use profile::MAX_MOMENT_MS;
use sheets::{
    Counts, Given, Part, Stop, compare, differs, number, octets, push_mark, push_octets, refusal,
    two_words,
};
use std::alloc::{AllocError, Allocator, Global};
use tags::Fault;

/// How many allocations of a call are refused at most.
const MANY: u64 = 100;

/// What each octet is changed to.
const CHANGES: [u8; 4] = [0x00, 0x7F, 0x80, 0xFF];

/// Who asks for the tables of a manager: nobody of a row.
const STRANGER: Address = Address {
    ip: [10, 0, 0, 1],
    port: 1,
};

/// Octets that come from an address at a moment.
#[derive(Clone, Copy)]
struct Input<'r> {
    from: Address,
    octets: &'r [u8],
    now: u64,
}

/// Appends what goes out.
fn push_sent<A: Allocator>(all: &[Outgoing<A>], out: &mut String) -> Result<(), AllocError> {
    let mut mark = "";
    for sent in all {
        out.push_str(mark)?;
        push_address(sent.to, out)?;
        out.push(' ')?;
        push_octets(sent.octets.as_slice(), out)?;
        mark = ", ";
    }
    if mark.is_empty() {
        out.push('-')?;
    }
    Ok(())
}

/// What a manager says, in words.
///
/// # Errors
/// `Memory` where it says so.
fn hear<A: Allocator + Copy>(
    alloc: Global,
    manager: &mut Bbmd<A>,
    input: Input<'_>,
) -> Result<String, Stop> {
    if input.now > MAX_MOMENT_MS || input.now < manager.moment() {
        return Err(Stop::Unread(Part::Number));
    }
    match manager.on_datagram(input.from, input.octets, input.now) {
        Err(Fault::Memory) => Err(Stop::Memory),
        Err(fault) => refusal(alloc, fault),
        Ok(all) => {
            let mut out = String::new(alloc);
            push_sent(all.as_slice(), &mut out)?;
            Ok(out)
        }
    }
}

/// What a manager knows, in words: both its tables as it tells them, and its moment.
fn state<A: Allocator + Copy>(alloc: Global, manager: &Bbmd<A>, now: u64) -> Result<String, Stop> {
    let mut copy = manager.copy()?;
    let mut out = String::new(alloc);
    for octets in [[0x81, 0x02, 0, 4], [0x81, 0x06, 0, 4]] {
        let input = Input {
            from: STRANGER,
            octets: &octets,
            now,
        };
        out.push_str(hear(alloc, &mut copy, input)?.as_str())?;
    }
    Ok(out)
}

/// Hears an input on copies with each allocation refused in turn, until none is. A copy is then as it was, and the
/// same call made again gives what is wanted. Answers how many were refused.
fn refuse_each<A: Allocator + Copy>(
    given: Given<'_>,
    manager: &Bbmd<A>,
    input: Input<'_>,
    wanted: &str,
) -> Result<u64, Stop> {
    let before = state(given.alloc, manager, input.now)?;
    for refused in 0..MANY {
        let mut copy = manager.copy()?;
        given.memory.refuse_only(refused + 1);
        let came = hear(given.alloc, &mut copy, input);
        let is_met = !given.memory.is_waiting();
        given.memory.refuse_only(0);
        match came {
            Err(Stop::Memory) if is_met => {}
            Ok(_) if !is_met => return Ok(refused),
            _ => return Err(differs(
                given.alloc,
                "want of memory where there was enough, or the reverse",
            )),
        }
        if copy.moment() != manager.moment() || state(given.alloc, &copy, input.now)? != before {
            return Err(differs(given.alloc, "a change where memory was refused"));
        }
        compare(hear(given.alloc, &mut copy, input)?, wanted)?;
    }
    Err(differs(given.alloc, "a call that is refused memory again and again"))
}

/// Copies a manager with each allocation refused in turn, until none is. Answers how many were.
fn refuse_copy<A: Allocator + Copy>(given: Given<'_>, manager: &Bbmd<A>) -> Result<u64, Stop> {
    for refused in 0..MANY {
        given.memory.refuse_only(refused + 1);
        let came = manager.copy();
        let is_met = !given.memory.is_waiting();
        given.memory.refuse_only(0);
        match came {
            Err(AllocError) if is_met => {}
            Ok(_) if !is_met => return Ok(refused),
            _ => return Err(differs(
                given.alloc,
                "a copy where memory was refused, or none where it wasn't",
            )),
        }
    }
    Err(differs(given.alloc, "a copy that is refused memory again and again"))
}

/// Hears other octets on a copy. Where nothing is said, the tables stay as they were.
fn hear_other<A: Allocator + Copy>(
    alloc: Global,
    manager: &Bbmd<A>,
    input: Input<'_>,
) -> Result<(), Stop> {
    let mut copy = manager.copy()?;
    let said = hear(alloc, &mut copy, input)?;
    let is_silent = said.as_str() == "-" || said.starts_with("refused");
    if is_silent && state(alloc, &copy, input.now)? != state(alloc, manager, input.now)? {
        return Err(differs(alloc, "a change of the tables in silence"));
    }
    Ok(())
}

/// Hears each prefix of the octets, and them with each octet changed, on copies. Answers how many runs there were.
fn change_each<A: Allocator + Copy>(
    alloc: Global,
    manager: &Bbmd<A>,
    input: Input<'_>,
) -> Result<u64, Stop> {
    let Input { from, octets, now } = input;
    let mut runs = 0u64;
    let mut other = Vec::from_slice(alloc, octets)?;
    for (at, octet) in octets.iter().enumerate() {
        let cut = Input {
            from,
            octets: octets.get(..at).unwrap_or(&[]),
            now,
        };
        hear_other(alloc, manager, cut)?;
        for instead in CHANGES {
            other[at] = instead;
            let changed = Input {
                from,
                octets: other.as_slice(),
                now,
            };
            hear_other(alloc, manager, changed)?;
        }
        other[at] = *octet;
        runs = runs.saturating_add(5);
    }
    Ok(runs)
}

/// Hears an input in every way, and appends what is said.
fn try_input<A: Allocator + Copy>(
    given: Given<'_>,
    manager: &mut Bbmd<A>,
    input: Input<'_>,
    counts: &mut Counts,
) -> Result<String, Stop> {
    let mut copy = manager.copy()?;
    let wanted = hear(given.alloc, &mut copy, input)?;
    let refused = refuse_each(given, manager, input, wanted.as_str())?;
    let copied = refuse_copy(given, manager)?;
    counts.refused = counts
        .refused
        .saturating_add(refused)
        .saturating_add(copied);
    let changed = change_each(given.alloc, manager, input)?;
    counts.changed = counts.changed.saturating_add(changed);
    hear(given.alloc, manager, input)
}

/// Hears the same octets from several addresses, and appends what is said: once, where it is the same to each.
fn take_octets<A: Allocator + Copy>(
    given: Given<'_>,
    manager: &mut Bbmd<A>,
    step: &str,
    now: u64,
    counts: &mut Counts,
    out: &mut String,
) -> Result<(), Stop> {
    let (from, digits) = two_words(step);
    let (first, last) = ports(from)?;
    let octets = octets(given.alloc, digits)?;
    for port in first..=last {
        let input = Input {
            from: at_port(port),
            octets: octets.as_slice(),
            now,
        };
        let said = try_input(given, manager, input, counts)?;
        let each = format!(in given.alloc; "{port} ")?;
        match said.strip_prefix(each.as_str()) {
            Some(back) if port < last => {}
            Some(back) if first < last => write!(out, "each {back}")?,
            _ => out.push_str(said.as_str())?,
        }
    }
    Ok(())
}

/// Takes a step at a moment, and appends what is said of it.
fn take<A: Allocator + Copy>(
    given: Given<'_>,
    manager: &mut Bbmd<A>,
    step: &str,
    now: u64,
    counts: &mut Counts,
    out: &mut String,
) -> Result<(), Stop> {
    push_mark("; ", out)?;
    if step == "tick" {
        if now > MAX_MOMENT_MS || now < manager.moment() {
            return Err(Stop::Unread(Part::Number));
        }
        manager.on_tick(now);
        return Ok(out.push_str("tick")?);
    }
    take_octets(given, manager, step, now, counts, out)
}

/// Takes the steps of a row, and answers what is said.
fn take_all<A: Allocator + Copy>(
    given: Given<'_>,
    manager: &mut Bbmd<A>,
    steps: &str,
    counts: &mut Counts,
) -> Result<String, Stop> {
    let mut out = String::new(given.alloc);
    let mut now = 0;
    for step in steps.split("; ") {
        match step.strip_prefix("@") {
            Some(moment) => now = u64::from(number(moment)?),
            None => take(given, manager, step, now, counts, &mut out)?,
        }
    }
    Ok(out)
}

/// The manager that a row describes: `47808 of 47810 with 47808 47809`.
fn manager_of<A: Allocator + Copy>(
    alloc: Global,
    memory: A,
    words: &str,
) -> Result<Result<Bbmd<A>, Fault>, Stop> {
    let Some((own, rest)) = words.split_once(" of ") else {
        return Err(Stop::Unread(Part::Asked));
    };
    let Some((members, managers)) = rest.split_once(" with ") else {
        return Err(Stop::Unread(Part::Asked));
    };
    let members = addresses(alloc, members)?;
    let managers = addresses(alloc, managers)?;
    let own = at_port(port(own)?);
    if !managers.contains(&own) {
        return Err(Stop::Unread(Part::Asked));
    }
    Ok(Bbmd::new(memory, own, members.as_slice(), managers.as_slice()))
}

/// Runs a row in this memory, that of `given`.
pub(crate) fn run<A: Allocator + Copy>(
    given: Given<'_>,
    memory: A,
    asked: &str,
    wanted: &str,
) -> Result<Counts, Stop> {
    let (words, steps) = match asked.split_once(": ") {
        Some(parts) => parts,
        None => (asked, ""),
    };
    let mut counts = Counts {
        rows: 1,
        refused: refuse_new(given, memory, words)?,
        changed: 0,
    };
    match manager_of(given.alloc, memory, words)? {
        Err(fault) => compare(refusal(given.alloc, fault)?, wanted)?,
        Ok(mut manager) => {
            let said = take_all(given, &mut manager, steps, &mut counts)?;
            compare(said, wanted)?;
        }
    }
    Ok(counts)
}

/// Makes a manager with each allocation refused in turn, until none is. Answers how many were.
fn refuse_new<A: Allocator + Copy>(given: Given<'_>, memory: A, words: &str) -> Result<u64, Stop> {
    for refused in 0..MANY {
        given.memory.refuse_only(refused + 1);
        let came = manager_of(given.alloc, memory, words);
        let is_met = !given.memory.is_waiting();
        given.memory.refuse_only(0);
        match came? {
            Err(Fault::Memory) if is_met => {}
            _ if !is_met => return Ok(refused),
            _ => return Err(differs(given.alloc, "a manager where memory was refused")),
        }
    }
    Err(differs(
        given.alloc,
        "a manager that is refused memory again and again",
    ))
}
