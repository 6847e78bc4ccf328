//! What happened last, and what is no use behind it.

use crate::choice::{Choice, place_off_bus};
use simulator::World;
use std::alloc::Allocator;

/// What happened last on the way to a world.
#[derive(Clone, Copy, Debug, PartialEq, Eq)]
pub(crate) struct Last {
    pub(crate) choice: Choice,
    /// How many items were put out before it.
    pub(crate) items: u64,
    /// Whether nothing was put out and nothing told.
    pub(crate) is_silent: bool,
}

/// Whether it might have happened before the last thing too.
fn was_there(last: &Last, choice: Choice) -> bool {
    match choice {
        Choice::Deliver(number) => number < last.items,
        Choice::Wake(_) | Choice::Restart(_) => true,
        Choice::Tick(_) | Choice::Hear { .. } => false,
    }
}

/// Whether another order of the two comes first: stations of BACnet/IP act at one moment in the order of the site where
/// nothing of the one goes to the other. Each changes itself alone, and what is on its way has but other numbers then.
fn is_turned<A: Allocator + Copy>(world: &World<A>, last: &Last, choice: Choice) -> bool {
    if !was_there(last, choice) {
        return false;
    }
    match (
        place_off_bus(world, last.choice),
        place_off_bus(world, choice),
    ) {
        (Some(first), Some(second)) => second < first,
        (None, _) | (_, None) => false,
    }
}

/// Whether the same thing twice is as good as once: a station that just woke and had nothing to say wakes again, or a
/// device that just restarted.
fn is_twice<A: Allocator + Copy>(world: &World<A>, last: &Last, choice: Choice) -> bool {
    if last.choice != choice || place_off_bus(world, choice).is_none() {
        return false;
    }
    match choice {
        Choice::Wake(_) => last.is_silent,
        Choice::Restart(_) => true,
        Choice::Tick(_) | Choice::Deliver(_) | Choice::Hear { .. } => false,
    }
}

/// Whether a thing need not be looked at in a world to which the last one led: another way leads to as much with no
/// more events. Two ticks, one behind the other, are one to a later deadline.
pub(crate) fn is_idle<A: Allocator + Copy>(
    world: &World<A>,
    last: Option<&Last>,
    choice: Choice,
) -> bool {
    let Some(last) = last else {
        return false;
    };
    match (last.choice, choice) {
        (Choice::Tick(_), Choice::Tick(_)) => true,
        _ => is_turned(world, last, choice) || is_twice(world, last, choice),
    }
}
