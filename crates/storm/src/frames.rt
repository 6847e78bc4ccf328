//! Which frame is heard next, at which station of its bus.

ghost use Rattle.std.specs.Prelude.{IfOk};
ghost use Rattle.simulator.specs.world.Step.{IsSoundIfAny};

use crate::dice::Dice;
use crate::storm::Storm;
use bus_traffic::{Sending, Telling};
use npdu::{Mac, Station};
use simulator::{Event, Internetwork};
use site_views::at_address;
use std::alloc::{AllocError, Allocator};
use tags::{Items, Octets};

/// What becomes of a frame at a station.
#[derive(Clone, Copy, Debug, PartialEq, Eq)]
enum Fate {
    /// It is heard.
    Heard,
    /// It is never heard: there is a silence.
    Lost,
    /// It is heard with wrong octets, or not to its end.
    Damaged,
}

/// What becomes of a frame at the station of an address: always the same.
fn fate_of<A: Allocator>(storm: &Storm, sending: &Sending<A>, address: u8) -> Fate {
    let fate = storm.dice.fate(sending.place.frames, u64::from(address));
    let lose = u64::from(storm.chances.lose.tenths);
    if fate < lose {
        Fate::Lost
    } else if fate < lose + u64::from(storm.chances.damage.tenths) {
        Fate::Damaged
    } else {
        Fate::Heard
    }
}

/// Octets of which one has another value, or the last of which are missing.
fn damaged<A: Allocator + Copy>(
    dice: &mut Dice,
    alloc: A,
    octets: &[u8],
) -> Result<Octets<A>, AllocError> {
    let place = dice.below(octets.len());
    if dice.is_one_of(4) {
        return Octets::from_slice(alloc, octets.get(..place).unwrap_or(&[]));
    }
    let noise = dice.small(255) as u8;
    let mut changed = Vec::from_slice(alloc, octets)?;
    if place < changed.len() {
        changed[place] = changed[place].wrapping_add(1).wrapping_add(noise);
    }
    Ok(Items::from_vec(changed))
}

/// The octets that the station of an address hears of a frame: none where it is lost.
fn heard_of<A: Allocator + Copy>(
    storm: &mut Storm,
    alloc: A,
    sending: &Sending<A>,
    address: u8,
) -> Result<Octets<A>, AllocError> {
    match fate_of(storm, sending, address) {
        Fate::Heard => sending.octets.copy(alloc),
        Fate::Lost => Ok(Items::new(alloc)),
        Fate::Damaged => damaged(&mut storm.dice, alloc, sending.octets.as_slice()),
    }
}

/// The station at an address of a bus hears octets, if there is such a station.
fn hearing<A: Allocator + Copy>(
    alloc: A,
    world: &Internetwork<A>,
    network: u16,
    address: u8,
    octets: Octets<A>,
) -> Result<Option<Event<A>>, AllocError>
    ensures sound { IfOk result IsSoundIfAny }
{
    let mac = Mac::One(address);
    let Some(station) = at_address(Station { net: network, mac }, world.site().stations()) else {
        return Ok(None);
    };
    Ok(Some(Event::Hear {
        network,
        station: station.name.copy(alloc)?,
        octets,
    }))
}

/// Any frame that may still be heard comes to any station of its bus, whether or not it was heard there.
fn any_frame<A: Allocator + Copy>(
    storm: &mut Storm,
    alloc: A,
    world: &Internetwork<A>,
) -> Result<Option<Event<A>>, AllocError>
    ensures sound { IfOk result IsSoundIfAny }
{
    let Some(bus) = storm.dice.one(world.buses().buses.as_slice()) else {
        return Ok(None);
    };
    let Some(held) = storm.dice.one(bus.recent.as_slice()) else {
        return Ok(None);
    };
    let Some(ear) = storm.dice.one(bus.ears.as_slice()) else {
        return Ok(None);
    };
    let sending = &held.recent().sending;
    if ear.address == sending.sender || fate_of(storm, sending, ear.address) != Fate::Heard {
        return Ok(None);
    }
    hearing(
        alloc,
        world,
        bus.net,
        ear.address,
        sending.octets.copy(alloc)?,
    )
}

/// What is heard next of the frames from whose turn it is on and before another, and whose turn it is then: a frame
/// again, or before its turn, or the next one with what becomes of it there. None where all had their turn.
pub(crate) fn next_frame<A: Allocator + Copy>(
    storm: &mut Storm,
    alloc: A,
    world: &Internetwork<A>,
    told: Telling,
    frames: u64,
) -> Result<(Option<Event<A>>, Telling), AllocError>
    ensures sound { IfOk result (λ next. IsSoundIfAny next.0) }
{
    if storm.dice.happens(storm.chances.repeat) || storm.dice.happens(storm.chances.reorder) {
        let event = any_frame(storm, alloc, world)?;
        if event.is_some() {
            return Ok((event, told));
        }
    }
    let Some(next) = world.buses().next_hear(told, frames, world.moment()) else {
        return Ok((None, told));
    };
    let sending = &next.recent.sending;
    let told = Telling {
        frames: sending.place.frames,
        ear: next.ear_place.saturating_add(1),
    };
    let octets = heard_of(storm, alloc, sending, next.ear.address)?;
    let event = hearing(alloc, world, next.bus.net, next.ear.address, octets)?;
    Ok((event, told))
}
