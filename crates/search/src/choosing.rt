//! All that may happen next in a world.

use crate::choice::Choice;
use crate::deadlines::deadlines;
use crate::hearing::put_hearings;
use crate::last::{Last, is_idle};
use profile::is_heard_in_time;
use simulator::World;
use site_parts::Station;
use std::alloc::{AllocError, Allocator};
use traffic::Item;

/// Puts the delivery of each item that may still be heard at the moment `now`, in milliseconds: of those that were
/// delivered before, or of those that weren't.
fn put_deliveries<A: Allocator>(
    items: &[Item<A>],
    is_delivered: bool,
    now: u64,
    out: &mut Vec<Choice, A>,
) -> Result<(), AllocError> {
    for number in 0..items.len() {
        let item = &items[number];
        if item.is_delivered == is_delivered && is_heard_in_time(item.stamp, now) {
            out.push(Choice::Deliver(number as u64))?;
        }
    }
    Ok(())
}

/// Puts the wake of each of so many stations.
fn put_wakes<A: Allocator>(count: usize, out: &mut Vec<Choice, A>) -> Result<(), AllocError> {
    for place in 0..count {
        out.push(Choice::Wake(place))?;
    }
    Ok(())
}

/// Puts the restart of each device (12).
fn put_restarts<A: Allocator>(
    stations: &[Station<A>],
    out: &mut Vec<Choice, A>,
) -> Result<(), AllocError> {
    for place in 0..stations.len() {
        if stations[place].role.objects().is_some() {
            out.push(Choice::Restart(place))?;
        }
    }
    Ok(())
}

/// Puts the ticks from the moment `now` to each of these, in milliseconds.
fn put_ticks<A: Allocator>(
    moments: &[u64],
    now: u64,
    out: &mut Vec<Choice, A>,
) -> Result<(), AllocError> {
    for moment in moments {
        out.push(Choice::Tick(moment.saturating_sub(now)))?;
    }
    Ok(())
}

/// All that may happen next in a world, what would happen by itself first.
fn all_choices<A: Allocator + Copy>(
    alloc: A,
    world: &World<A>,
) -> Result<Vec<Choice, A>, AllocError> {
    let now = world.moment();
    let stations = world.site().stations();
    let mut all = Vec::new(alloc);
    put_deliveries(world.items(), false, now, &mut all)?;
    put_hearings(&world.buses().buses, now, &mut all)?;
    put_wakes(stations.len(), &mut all)?;
    put_ticks(deadlines(alloc, world)?.as_slice(), now, &mut all)?;
    put_deliveries(world.items(), true, now, &mut all)?;
    put_restarts(stations, &mut all)?;
    Ok(all)
}

/// What may happen next in a world to which the last thing led, and is of use: what would happen by itself first.
///
/// # Errors
/// Want of memory.
pub(crate) fn choices<A: Allocator + Copy>(
    alloc: A,
    world: &World<A>,
    last: Option<&Last>,
) -> Result<Vec<Choice, A>, AllocError> {
    let mut choices = all_choices(alloc, world)?;
    choices.retain(|choice| !is_idle(world, last, *choice));
    Ok(choices)
}
