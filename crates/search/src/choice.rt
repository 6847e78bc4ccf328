//! What may happen next, as an event.

ghost use Rattle.std.specs.Prelude.{IfOk};
ghost use Rattle.simulator.specs.world.Step.{IsSoundIfAny};

use bus_traffic::{Recent, RecentBox};
use npdu::{Mac, Station};
use profile::LinkKind;
use simulator::{Event, World};
use site_parts::Link;
use site_views::at_address;
use std::alloc::{AllocError, Allocator};

/// What may happen next in a world. It takes no memory, so that many can be kept.
#[derive(Clone, Copy, Debug, PartialEq, Eq)]
pub(crate) enum Choice {
    /// So many milliseconds pass, 1 to 60000.
    Tick(u64),
    /// The item of this number is delivered.
    Deliver(u64),
    /// The station at a place of the site wakes.
    Wake(usize),
    /// The device at a place of the site restarts.
    Restart(usize),
    /// The station of an address on the bus at a place hears the frame before which so many were put out on all buses.
    Hear { bus: usize, address: u8, frame: u64 },
}

/// The frame before which so many were put out on all buses, if it may still be heard.
fn frame_of<A: Allocator>(recent: &[RecentBox<A>], frame: u64) -> Option<&Recent<A>> {
    for held in recent {
        let one = held.recent();
        if one.sending.place.frames == frame {
            return Some(one);
        }
    }
    None
}

/// The place of the station at an address, in the order of the site.
pub(crate) fn place_at<A: Allocator>(
    address: Station,
    stations: &[site_parts::Station<A>],
) -> Option<usize> {
    let found = at_address(address, stations)?;
    for place in 0..stations.len() {
        if stations[place].name.as_slice() == found.name.as_slice() {
            return Some(place);
        }
    }
    None
}

/// Whether one of these places is on a bus.
fn is_on_bus(links: &[Link]) -> bool {
    for link in links {
        if link.link_kind() == LinkKind::MsTp {
            return true;
        }
    }
    false
}

/// The place of the station that does what is chosen, where it is on no bus.
pub(crate) fn place_off_bus<A: Allocator + Copy>(
    world: &World<A>,
    choice: Choice,
) -> Option<usize> {
    let stations = world.site().stations();
    let place = match choice {
        Choice::Tick(_) | Choice::Hear { .. } => return None,
        Choice::Wake(place) | Choice::Restart(place) => place,
        Choice::Deliver(number) => {
            let item = world.items().get(number as usize)?;
            place_at(
                Station {
                    net: item.net,
                    mac: item.to,
                },
                stations,
            )?
        }
    };
    let station = stations.get(place)?;
    if is_on_bus(station.role.links()) {
        return None;
    }
    Some(place)
}

/// The hearing of a frame of the bus at a place by the station of an address on it, if there are all three.
fn hear_event<A: Allocator + Copy>(
    alloc: A,
    world: &World<A>,
    bus: usize,
    address: u8,
    frame: u64,
) -> Result<Option<Event<A>>, AllocError>
    ensures sound { IfOk result IsSoundIfAny }
{
    let Some(bus) = world.buses().buses.get(bus) else {
        return Ok(None);
    };
    let Some(recent) = frame_of(&bus.recent, frame) else {
        return Ok(None);
    };
    let network = bus.net;
    let mac = Mac::One(address);
    let Some(station) = at_address(Station { net: network, mac }, world.site().stations()) else {
        return Ok(None);
    };
    Ok(Some(Event::Hear {
        network,
        station: station.name.copy(alloc)?,
        octets: recent.sending.octets.copy(alloc)?,
    }))
}

/// What is chosen, as an event in memory of `alloc`; none where the world has no such station or frame.
///
/// # Errors
/// Want of memory.
pub(crate) fn event_of<A: Allocator + Copy>(
    alloc: A,
    world: &World<A>,
    choice: Choice,
) -> Result<Option<Event<A>>, AllocError>
    ensures sound { IfOk result IsSoundIfAny }
{
    let place = match choice {
        Choice::Tick(ms) => return Ok(Some(Event::Tick(ms))),
        Choice::Deliver(number) => return Ok(Some(Event::Deliver(number))),
        Choice::Hear {
            bus,
            address,
            frame,
        } => return hear_event(alloc, world, bus, address, frame),
        Choice::Wake(place) | Choice::Restart(place) => place,
    };
    let Some(station) = world.site().stations().get(place) else {
        return Ok(None);
    };
    let name = station.name.copy(alloc)?;
    match choice {
        Choice::Restart(_) => Ok(Some(Event::Restart(name))),
        Choice::Tick(_) | Choice::Deliver(_) | Choice::Hear { .. } | Choice::Wake(_) => {
            Ok(Some(Event::Wake(name)))
        }
    }
}
