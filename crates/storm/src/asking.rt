//! What begins: issues, Who-Is, registrations and restarts.

ghost use Rattle.std.specs.Prelude.{IfOk};
ghost use Rattle.simulator.specs.world.Step.{IsSoundEvent, IsSoundIfAny};

use crate::dice::Dice;
use crate::requests::request;
use crate::storm::Storm;
use apdu::Limits;
use object_model::SiteObjects;
use simulator::{Event, Internetwork};
use site_parts::{Role, Station};
use std::alloc::{AllocError, Allocator};

/// Which stations are meant.
#[derive(Clone, Copy, Debug, PartialEq, Eq)]
enum Kind {
    Client,
    Device,
    /// Those that register at a manager (J.5).
    Foreign,
}

/// Whether a station is meant.
fn is_of<A: Allocator>(kind: Kind, station: &Station<A>) -> bool {
    match kind {
        Kind::Client => matches!(&station.role, Role::Client { .. }),
        Kind::Device => station.role.objects().is_some(),
        Kind::Foreign => station.role.beyond().is_some(),
    }
}

/// How many stations are meant.
fn count<A: Allocator>(kind: Kind, stations: &[Station<A>]) -> usize {
    let mut count = 0usize;
    for station in stations {
        if is_of(kind, station) {
            count = count.saturating_add(1);
        }
    }
    count
}

/// Any of the stations that are meant.
fn any_station<'a, A: Allocator>(
    dice: &mut Dice,
    kind: Kind,
    stations: &'a [Station<A>],
) -> Option<&'a Station<A>> {
    let mut before = dice.below(count(kind, stations));
    for station in stations {
        if is_of(kind, station) {
            if before == 0 {
                return Some(station);
            }
            before -= 1;
        }
    }
    None
}

/// The limits of a Who-Is: mostly none, else about the instance of a device.
fn limits(dice: &mut Dice, instance: u32) -> Option<Limits> {
    if !dice.is_one_of(4) {
        return None;
    }
    Some(Limits {
        low: instance.saturating_sub(dice.small(20)),
        high: instance.saturating_sub(3).saturating_add(dice.small(20)),
    })
}

/// A client issues a request of a device, seldom of an instance that may be none's.
fn issue<A: Allocator + Copy>(
    dice: &mut Dice,
    alloc: A,
    client: &Station<A>,
    objects: &SiteObjects<A>,
) -> Result<Option<Event<A>>, AllocError>
    ensures sound { IfOk result IsSoundIfAny }
{
    let request = request(dice, alloc, objects)?;
    if !request.is_sound() {
        return Ok(None);
    }
    let instance = if dice.is_one_of(64) {
        dice.small(0x40_0000)
    } else {
        objects.instance
    };
    Ok(Some(Event::Issue {
        client: client.name.copy(alloc)?,
        instance,
        request,
    }))
}

/// Whether nothing was told yet, also not of what is handed out.
fn has_no_history<A: Allocator + Copy>(world: &Internetwork<A>) -> bool {
    world.first_entry() == 0 && world.history().is_empty()
}

/// A client asks who is there, more often before the first issue, or issues a request.
fn asked<A: Allocator + Copy>(
    dice: &mut Dice,
    alloc: A,
    world: &Internetwork<A>,
) -> Result<Option<Event<A>>, AllocError>
    ensures sound { IfOk result IsSoundIfAny }
{
    let stations = world.site().stations();
    let Some(client) = any_station(dice, Kind::Client, stations) else {
        return Ok(None);
    };
    let Some(device) = any_station(dice, Kind::Device, stations) else {
        return Ok(None);
    };
    let Some(objects) = device.role.objects() else {
        return Ok(None);
    };
    let seldom = if has_no_history(world) { 2 } else { 12 };
    if dice.is_one_of(seldom) {
        return Ok(Some(Event::WhoIs {
            client: client.name.copy(alloc)?,
            limits: limits(dice, objects.instance),
        }));
    }
    issue(dice, alloc, client, objects)
}

/// What begins in a world, if its site has stations for it: a restart, a registration, or what a client asks.
pub(crate) fn begun<A: Allocator + Copy>(
    storm: &mut Storm,
    alloc: A,
    world: &Internetwork<A>,
) -> Result<Option<Event<A>>, AllocError>
    ensures sound { IfOk result IsSoundIfAny }
{
    let stations = world.site().stations();
    let dice = &mut storm.dice;
    if dice.happens(storm.chances.restart) {
        return match any_station(dice, Kind::Device, stations) {
            Some(device) => Ok(Some(Event::Restart(device.name.copy(alloc)?))),
            None => Ok(None),
        };
    }
    if dice.is_one_of(12) {
        if let Some(foreign) = any_station(dice, Kind::Foreign, stations) {
            return Ok(Some(Event::Register(foreign.name.copy(alloc)?)));
        }
    }
    asked(dice, alloc, world)
}
