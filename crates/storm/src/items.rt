//! Which datagram is delivered next.

use crate::storm::Storm;
use profile::is_heard_in_time;
use simulator::{Internetwork, LATEST_ITEMS};
use std::alloc::Allocator;

/// Which place the fate of an item has: none of an address on a bus.
const ITEM: u64 = 256;

/// Whether the item of a number is never delivered.
fn is_lost(storm: &Storm, number: usize) -> bool {
    storm.dice.fate(number as u64, ITEM) < u64::from(storm.chances.lose.tenths)
}

/// The next item from this one on, and before another, that waits and isn't lost.
fn next_kept<A: Allocator + Copy>(
    storm: &Storm,
    world: &Internetwork<A>,
    from: usize,
    before: usize,
) -> Option<usize> {
    let mut first = from;
    for _ in from..before {
        let number = world.next_waiting(first, before)?;
        if !is_lost(storm, number) {
            return Some(number);
        }
        first = number.saturating_add(1);
    }
    None
}

/// Any of the last items that was delivered, or wasn't and isn't lost. Seldom it is too old: none of these is
/// forgotten.
fn any_item<A: Allocator + Copy>(
    storm: &mut Storm,
    world: &Internetwork<A>,
    is_delivered: bool,
) -> Option<usize> {
    let first = world.item_count().saturating_sub(LATEST_ITEMS);
    let number = first.saturating_add(storm.dice.below(LATEST_ITEMS));
    let item = world.item_at(number)?;
    if item.is_delivered != is_delivered || (!is_delivered && is_lost(storm, number)) {
        return None;
    }
    if is_heard_in_time(item.stamp, world.moment()) || storm.dice.is_one_of(16) {
        Some(number)
    } else {
        None
    }
}

/// The number of the item that is delivered next, and from which on it goes on then: it was delivered before, is
/// overtaken by none, or is the first that waits from one on and before another.
pub(crate) fn next_item<A: Allocator + Copy>(
    storm: &mut Storm,
    world: &Internetwork<A>,
    from: usize,
    before: usize,
) -> Option<(usize, usize)> {
    if storm.dice.happens(storm.chances.repeat) {
        if let Some(number) = any_item(storm, world, true) {
            return Some((number, from));
        }
    }
    if storm.dice.happens(storm.chances.reorder) {
        if let Some(number) = any_item(storm, world, false) {
            return Some((number, from));
        }
    }
    let number = next_kept(storm, world, from, before)?;
    Some((number, number.saturating_add(1)))
}

/// Whether an item waits to be delivered and isn't lost.
pub(crate) fn is_any_waiting<A: Allocator + Copy>(storm: &Storm, world: &Internetwork<A>) -> bool {
    next_kept(storm, world, 0, world.item_count()).is_some()
}
