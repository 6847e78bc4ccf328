//! How many milliseconds pass.

use crate::dice::Dice;
use crate::storm::Storm;
use bus_traffic::Bus;
use history::Entry;
use profile::{
    APDU_SEGMENT_TIMEOUT_MS, APDU_TIMEOUT_MS, DEADLINE_MS, GATHERING_TIMEOUT_MS, KEEP_MS, LIFE_MS,
    MAX_TICK_MS, REUSE_MS, T_NO_TOKEN_MS, T_REPLY_DELAY_MS, T_REPLY_TIMEOUT_MS, T_SLOT_MS,
    T_USAGE_TIMEOUT_MS,
};
use simulator::{Internetwork, WorldEntry};
use std::alloc::Allocator;

/// How many of the last entries of a history have deadlines that are looked at.
pub const LATEST_ENTRIES: usize = 8;

/// What is due behind an issue: the request again, its end, its segments, and its invoke ID (5.4).
const BEHIND_ISSUE: [u64; 7] = [
    APDU_SEGMENT_TIMEOUT_MS,
    APDU_TIMEOUT_MS,
    2 * APDU_TIMEOUT_MS,
    GATHERING_TIMEOUT_MS,
    3 * APDU_TIMEOUT_MS,
    DEADLINE_MS,
    REUSE_MS,
];

/// What is due behind an execution and a restart: an answer is forgotten, a device takes requests again (5.4.5).
const BEHIND_EXECUTION: [u64; 2] = [KEEP_MS, KEEP_MS + 1];

/// What is due behind an answer: what was said with it is too old.
const BEHIND_ANSWER: [u64; 1] = [LIFE_MS];

/// For how long of a silence a node on a bus waits (9.5.6): for a station that it gave the token or looks for, to
/// answer, for an answer, and for the token.
const ON_BUS: [u64; 4] = [
    T_USAGE_TIMEOUT_MS,
    T_REPLY_DELAY_MS,
    T_REPLY_TIMEOUT_MS,
    T_NO_TOKEN_MS,
];

/// How many milliseconds pass at once.
#[derive(Clone, Copy, Debug, PartialEq, Eq)]
pub(crate) struct Pass {
    /// 1 to 60000.
    pub(crate) ms: u64,
    /// Whether each station is to wake.
    pub(crate) is_late: bool,
}

/// What is due behind an entry, in milliseconds.
fn times_behind<A: Allocator>(entry: &WorldEntry<A>) -> &'static [u64] {
    match entry {
        Entry::Issue { .. } => &BEHIND_ISSUE,
        Entry::Executed { .. } | Entry::Restarted { .. } => &BEHIND_EXECUTION,
        Entry::Answered { .. } | Entry::Ended { .. } => &BEHIND_ANSWER,
    }
}

/// The moment at which an entry came, in milliseconds.
fn moment_of<A: Allocator>(entry: &WorldEntry<A>) -> u64 {
    match entry {
        Entry::Issue { moment, .. }
        | Entry::Executed { moment, .. }
        | Entry::Answered { moment, .. }
        | Entry::Ended { moment, .. }
        | Entry::Restarted { moment, .. } => *moment,
    }
}

/// The first of these times behind a moment that comes after the moment `now`, if it is before another.
fn nearest_behind(times: &[u64], moment: u64, now: u64, nearest: Option<u64>) -> Option<u64> {
    let mut nearest = nearest;
    for time in times {
        let due = moment.saturating_add(*time);
        if due > now && nearest.is_none_or(|nearest| due < nearest) {
            nearest = Some(due);
        }
    }
    nearest
}

/// What is due behind an entry, and when that came.
#[derive(Clone, Copy)]
struct Due {
    /// The moment at which the entry came, in milliseconds.
    moment: u64,
    /// So many milliseconds behind it.
    times: &'static [u64],
}

/// What is due behind an entry.
fn due_behind<A: Allocator>(entry: &WorldEntry<A>) -> Due {
    Due {
        moment: moment_of(entry),
        times: times_behind(entry),
    }
}

/// What is due behind the entry at this place among the last ones of a history: some were handed out, and the others
/// stand behind those.
fn due_at<A: Allocator>(
    told: &[WorldEntry<A>],
    behind: &[WorldEntry<A>],
    place: usize,
) -> Option<Due> {
    let count = told.len().saturating_add(behind.len());
    let number = count.saturating_sub(LATEST_ENTRIES).saturating_add(place);
    if let Some(entry) = told.get(number) {
        return Some(due_behind(entry));
    }
    match behind.get(number.saturating_sub(told.len())) {
        Some(entry) => Some(due_behind(entry)),
        None => None,
    }
}

/// The next deadline of the last entries of a history after the moment `now`, in milliseconds.
fn nearest_deadline<A: Allocator>(
    told: &[WorldEntry<A>],
    behind: &[WorldEntry<A>],
    now: u64,
) -> Option<u64> {
    let mut nearest = None;
    for place in 0..LATEST_ENTRIES {
        if let Some(due) = due_at(told, behind, place) {
            nearest = nearest_behind(due.times, due.moment, now, nearest);
        }
    }
    nearest
}

/// Any deadline of the last entries of a history, in milliseconds.
fn any_deadline<A: Allocator>(
    dice: &mut Dice,
    told: &[WorldEntry<A>],
    behind: &[WorldEntry<A>],
) -> Option<u64> {
    let due = due_at(told, behind, dice.below(LATEST_ENTRIES))?;
    let time = dice.one(due.times)?;
    Some(due.moment.saturating_add(*time))
}

/// So many milliseconds, or seldom one fewer or one more.
fn beside(dice: &mut Dice, ms: u64) -> u64 {
    match dice.below(8) {
        0 => ms.saturating_sub(1),
        1 => ms.saturating_add(1),
        _ => ms,
    }
}

/// So many milliseconds as may pass at once.
fn within(ms: u64) -> u64 {
    ms.clamp(1, MAX_TICK_MS)
}

/// Up to a deadline of the history, or one millisecond beside it: mostly the next one.
fn to_deadline<A: Allocator + Copy>(
    storm: &mut Storm,
    world: &Internetwork<A>,
    told: &[WorldEntry<A>],
) -> u64 {
    let now = world.moment();
    let due = if storm.dice.happens(storm.chances.reorder) {
        any_deadline(&mut storm.dice, told, world.history())
    } else {
        nearest_deadline(told, world.history(), now)
    };
    match due {
        Some(due) if due > now => beside(&mut storm.dice, due - now),
        _ => 1 + u64::from(storm.dice.small(1000)),
    }
}

/// The nearest of the silences, longer than this one, behind which a node on a bus makes a token (9.5.6, Tslot).
fn nearest_slot<A: Allocator>(bus: &Bus<A>, silence: u64, nearest: Option<u64>) -> Option<u64> {
    let mut nearest = nearest;
    for ear in &bus.ears {
        let slot = T_NO_TOKEN_MS + T_SLOT_MS * u64::from(ear.address);
        nearest = nearest_behind(&[slot], 0, silence, nearest);
    }
    nearest
}

/// Up to the next time that a node on a bus waits for, or seldom one millisecond beside it.
fn to_bus_time<A: Allocator + Copy>(storm: &mut Storm, world: &Internetwork<A>) -> u64 {
    let silence = world.moment().saturating_sub(storm.spoken);
    let mut nearest = nearest_behind(&ON_BUS, 0, silence, None);
    for bus in &world.buses().buses {
        nearest = nearest_slot(bus, silence, nearest);
    }
    let due = nearest.unwrap_or(silence.saturating_add(T_SLOT_MS));
    beside(&mut storm.dice, due.saturating_sub(silence))
}

/// How many milliseconds pass next where there is a bus: few where something is on its way, else up to a time that a
/// node waits for, and seldom up to a deadline.
fn next_on_bus<A: Allocator + Copy>(
    storm: &mut Storm,
    world: &Internetwork<A>,
    told: &[WorldEntry<A>],
    is_moving: bool,
) -> Pass {
    let is_other = storm.dice.happens(storm.chances.reorder);
    if is_other && storm.dice.is_one_of(8) {
        return Pass {
            ms: within(to_deadline(storm, world, told)),
            is_late: true,
        };
    }
    let ms = if is_moving && !is_other {
        1 + u64::from(storm.dice.small(8))
    } else {
        to_bus_time(storm, world)
    };
    Pass {
        ms: within(ms),
        is_late: false,
    }
}

/// How many milliseconds pass next: few where something is on its way, else up to a deadline, or where there is a bus,
/// a time that a node waits for.
pub(crate) fn next_tick<A: Allocator + Copy>(
    storm: &mut Storm,
    world: &Internetwork<A>,
    told: &[WorldEntry<A>],
    is_moving: bool,
) -> Pass {
    if !world.buses().buses.is_empty() {
        return next_on_bus(storm, world, told, is_moving);
    }
    if is_moving && !storm.dice.happens(storm.chances.reorder) {
        return Pass {
            ms: 1,
            is_late: false,
        };
    }
    Pass {
        ms: within(to_deadline(storm, world, told)),
        is_late: true,
    }
}
