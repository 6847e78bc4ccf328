//! Few events of a storm that still bring about something wrong, none of which can be left out.

use crate::counts::Counts;
use crate::ears::Ears;
use crate::weather::{Wrong, judge_end, make};
use simulator::{Event, World};
use std::alloc::{AllocError, Allocator};
use std::ops::Range;
use tags::Fault;

/// How many events are left out at once, before they are left out one by one.
const RUNS: [usize; 2] = [16, 4];

/// The events that are left of a list from which runs of events and then one after another are left out, as long as
/// what is left still brings about something wrong in a copy of a world; and what that is.
///
/// # Errors
/// Want of memory; `NoSuch` where the list brings about nothing wrong.
pub(crate) fn fewest<A: Allocator + Copy>(
    alloc: A,
    opened: &World<A>,
    events: Vec<Event<A>, A>,
) -> Result<(Vec<Event<A>, A>, Wrong), Fault> {
    let mut left = events;
    for run in RUNS {
        leave_out_runs(alloc, opened, &mut left, run)?;
    }
    for _ in 0..left.len() {
        if !leave_out_runs(alloc, opened, &mut left, 1)? {
            break;
        }
    }
    match judge_all(alloc, opened, left.as_slice(), &(0..0))? {
        Some(wrong) => Ok((left, wrong)),
        None => Err(Fault::NoSuch),
    }
}

/// Leaves out runs of so many events, the last one first, where what is left still brings about something wrong. Tells
/// whether any was left out.
fn leave_out_runs<A: Allocator + Copy>(
    alloc: A,
    opened: &World<A>,
    events: &mut Vec<Event<A>, A>,
    run: usize,
) -> Result<bool, Fault> {
    let mut is_fewer = false;
    let mut end = events.len();
    for _ in 0..events.len() {
        if end == 0 {
            break;
        }
        let places = end.saturating_sub(run.max(1))..end;
        end = places.start;
        if judge_all(alloc, opened, events.as_slice(), &places)?.is_some() {
            leave_out(events, &places);
            is_fewer = true;
        }
    }
    Ok(is_fewer)
}

/// Leaves out the events at these places.
fn leave_out<A: Allocator + Copy>(events: &mut Vec<Event<A>, A>, places: &Range<usize>) {
    for _ in places.start..places.end {
        if places.start < events.len() {
            let _ = events.remove(places.start);
        }
    }
}

/// Makes events in a copy of a world, but for those at these places, and tells what is wrong then.
fn judge_all<A: Allocator + Copy>(
    alloc: A,
    opened: &World<A>,
    events: &[Event<A>],
    left_out: &Range<usize>,
) -> Result<Option<Wrong>, Fault> {
    let mut world = opened.copy()?;
    let came = judge_in(alloc, &mut world, events, left_out);
    world.close();
    came
}

/// Makes events in a world, but for those at these places, and tells what is wrong then.
fn judge_in<A: Allocator + Copy>(
    alloc: A,
    world: &mut World<A>,
    events: &[Event<A>],
    left_out: &Range<usize>,
) -> Result<Option<Wrong>, Fault> {
    let mut counts = Counts::default();
    let mut ears = Ears::new(alloc);
    for (place, event) in events.iter().enumerate() {
        if !left_out.contains(&place) {
            let wrong = make_sound(alloc, world, &mut ears, event, &mut counts)?;
            if wrong.is_some() {
                return Ok(wrong);
            }
        }
    }
    judge_end(alloc, world, &mut counts)
}

/// Makes an event in a world, if it may happen.
fn make_sound<A: Allocator + Copy>(
    alloc: A,
    world: &mut World<A>,
    ears: &mut Ears<A>,
    event: &Event<A>,
    counts: &mut Counts,
) -> Result<Option<Wrong>, AllocError> {
    if event.is_sound() {
        make(alloc, world, ears, event, counts)
    } else {
        Ok(None)
    }
}
