//! Which station wakes next.

ghost use Rattle.std.specs.Prelude.{IfOk};
ghost use Rattle.simulator.specs.world.Step.{IsSoundEvent, IsSoundIfAny};

use crate::dice::Dice;
use crate::storm::{Part, Storm};
use profile::LinkKind;
use simulator::{Event, Internetwork};
use site_parts::{Link, Station};
use std::alloc::{AllocError, Allocator};

/// Whether one of these places is on a bus.
fn is_on_bus(links: &[Link]) -> bool {
    for link in links {
        if link.link_kind() == LinkKind::MsTp {
            return true;
        }
    }
    false
}

/// A station wakes; a foreign one may register instead (J.5.2).
fn wake<A: Allocator + Copy>(
    dice: &mut Dice,
    alloc: A,
    station: &Station<A>,
) -> Result<Event<A>, AllocError>
    ensures sound { IfOk result IsSoundEvent }
{
    let name = station.name.copy(alloc)?;
    if station.role.beyond().is_some() && dice.is_one_of(4) {
        return Ok(Event::Register(name));
    }
    Ok(Event::Wake(name))
}

/// The place of the next station that wakes, from one on: each where it is late, and else those on a bus and seldom
/// others.
fn next_awake<A: Allocator>(
    storm: &mut Storm,
    stations: &[Station<A>],
    from: usize,
) -> Option<usize> {
    for place in from..stations.len() {
        let is_due = storm.is_late || is_on_bus(stations[place].role.links());
        if is_due || storm.dice.is_one_of(16) {
            return Some(place);
        }
    }
    None
}

/// The next wake of a round, from the station at a place on: its own turn, or seldom any other's. None behind the last.
pub(crate) fn next_wake<A: Allocator + Copy>(
    storm: &mut Storm,
    alloc: A,
    world: &Internetwork<A>,
    from: usize,
) -> Result<Option<Event<A>>, AllocError>
    ensures sound { IfOk result IsSoundIfAny }
{
    let stations = world.site().stations();
    let is_next = !storm.dice.happens(storm.chances.reorder);
    let place = if is_next {
        next_awake(storm, stations, from)
    } else {
        Some(storm.dice.below(stations.len()))
    };
    let Some(place) = place else {
        return Ok(None);
    };
    let Some(station) = stations.get(place) else {
        return Ok(None);
    };
    let from = if is_next {
        place.saturating_add(1)
    } else {
        from
    };
    storm.part = Part::Wakes { from };
    Ok(Some(wake(&mut storm.dice, alloc, station)?))
}
