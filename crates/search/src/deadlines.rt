//! The moments that something waits for.

use bus_traffic::{Bus, Ear};
use history::Entry;
use profile::{
    APDU_SEGMENT_TIMEOUT_MS, APDU_TIMEOUT_MS, DEADLINE_MS, GATHERING_TIMEOUT_MS, KEEP_MS,
    T_NO_TOKEN_MS, T_REPLY_DELAY_MS, T_REPLY_TIMEOUT_MS, T_SLOT_MS, T_USAGE_TIMEOUT_MS,
};
use simulator::{World, WorldEntry};
use std::alloc::{AllocError, Allocator};

/// What is due behind an issue that is open: the request again, its segments, and its end (5.4.4). Its invoke ID is
/// free later, but no other request is issued here.
const BEHIND_ISSUE: [u64; 6] = [
    APDU_SEGMENT_TIMEOUT_MS,
    APDU_TIMEOUT_MS,
    2 * APDU_TIMEOUT_MS,
    GATHERING_TIMEOUT_MS,
    3 * APDU_TIMEOUT_MS,
    DEADLINE_MS,
];

/// What is due behind an execution and a restart: an answer is forgotten, a device takes requests again (5.4.5).
const BEHIND_EXECUTION: [u64; 2] = [KEEP_MS, KEEP_MS + 1];

/// For how long of a silence a node on a bus waits (9.5.6): for a station that it gave the token or looks for, to
/// answer, for an answer, and for the token.
const ON_BUS: [u64; 4] = [
    T_USAGE_TIMEOUT_MS,
    T_REPLY_DELAY_MS,
    T_REPLY_TIMEOUT_MS,
    T_NO_TOKEN_MS,
];

/// Whether the issue of a number has no end among these entries.
fn is_open<A: Allocator>(issue: u64, history: &[WorldEntry<A>]) -> bool {
    for entry in history {
        match entry {
            Entry::Answered { number, .. } | Entry::Ended { number, .. } => {
                if *number == issue {
                    return false;
                }
            }
            Entry::Issue { .. } | Entry::Executed { .. } | Entry::Restarted { .. } => {}
        }
    }
    true
}

/// Puts these times behind a moment, each that comes after the moment `now` and isn't there yet.
fn put_behind<A: Allocator>(
    times: &[u64],
    moment: u64,
    now: u64,
    out: &mut Vec<u64, A>,
) -> Result<(), AllocError> {
    for time in times {
        let due = moment.saturating_add(*time);
        if due > now && !out.contains(&due) {
            out.push(due)?;
        }
    }
    Ok(())
}

/// Puts what is due behind an entry; others stand behind it.
fn put_entry<A: Allocator>(
    entry: &WorldEntry<A>,
    behind: &[WorldEntry<A>],
    now: u64,
    out: &mut Vec<u64, A>,
) -> Result<(), AllocError> {
    match entry {
        Entry::Issue { number, moment, .. } => {
            if is_open(*number, behind) {
                put_behind(&BEHIND_ISSUE, *moment, now, out)?;
            }
            Ok(())
        }
        Entry::Executed { moment, .. } | Entry::Restarted { moment, .. } => {
            put_behind(&BEHIND_EXECUTION, *moment, now, out)
        }
        Entry::Answered { .. } | Entry::Ended { .. } => Ok(()),
    }
}

/// Puts what is due behind the octets that an ear heard last, and the slot of its node.
fn put_ear<A: Allocator>(ear: &Ear, now: u64, out: &mut Vec<u64, A>) -> Result<(), AllocError> {
    let slot = T_NO_TOKEN_MS + T_SLOT_MS * u64::from(ear.address);
    put_behind(&ON_BUS, ear.last, now, out)?;
    put_behind(&[slot], ear.last, now, out)
}

/// Puts what is due on a bus.
fn put_bus<A: Allocator>(bus: &Bus<A>, now: u64, out: &mut Vec<u64, A>) -> Result<(), AllocError> {
    for ear in &bus.ears {
        put_ear(ear, now, out)?;
    }
    Ok(())
}

/// Puts what is due behind entries of a history.
fn put_history<A: Allocator>(
    history: &[WorldEntry<A>],
    now: u64,
    out: &mut Vec<u64, A>,
) -> Result<(), AllocError> {
    let mut left = history;
    while let [entry, behind @ ..] = left {
        put_entry(entry, behind, now, out)?;
        left = behind;
    }
    Ok(())
}

/// The moments, in milliseconds, that something in a world waits for and that are still to come, each once, the nearest
/// first.
///
/// # Errors
/// Want of memory.
pub(crate) fn deadlines<A: Allocator + Copy>(
    alloc: A,
    world: &World<A>,
) -> Result<Vec<u64, A>, AllocError> {
    let now = world.moment();
    let mut all = Vec::new(alloc);
    put_history(world.history(), now, &mut all)?;
    for bus in &world.buses().buses {
        put_bus(bus, now, &mut all)?;
    }
    all.sort_unstable();
    Ok(all)
}
