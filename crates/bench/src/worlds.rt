//! What is done in worlds (ANSI/ASHRAE 135, clauses 5.4 and 16.10).

use apdu::Limits;
use primitives::{ObjectType, Property, Request};
use simulator::{Event, Flow, World};
use site::Site;
use site_parts::Parts;
use std::alloc::{AllocError, Allocator};
use tags::{Fault, Items, ObjectId, Octets};

/// The world of a site of these parts.
///
/// # Errors
/// `BadSite` where they have a fault, or `Memory`.
pub(crate) fn open<A: Allocator + Copy>(alloc: A, parts: Parts<A>) -> Result<World<A>, Fault> {
    let site = Site::new(alloc, parts)?;
    World::new(alloc, site)
}

/// The name of a station.
pub(crate) fn name<A: Allocator + Copy>(
    alloc: A,
    prefix: &str,
    number: u16,
) -> Result<Octets<A>, AllocError> {
    let name = format!(in alloc; "{prefix}{number}")?;
    Items::from_slice(alloc, name.as_bytes())
}

/// The client of this number is asked to read the present value of the first object of device 1 (15.5).
pub(crate) fn read<A: Allocator + Copy>(alloc: A, client: u16) -> Result<Event<A>, AllocError> {
    Ok(Event::Issue {
        client: name(alloc, "c", client)?,
        instance: 1,
        request: Request::Read {
            object: ObjectId {
                object_type: u16::from(ObjectType::BinaryValue),
                instance: 1,
            },
            property: u32::from(Property::PresentValue),
            index: None,
        },
    })
}

/// The client of this number asks device 1 who it is (16.10.1).
///
/// # Errors
/// Those of the event.
pub(crate) fn ask_who<A: Allocator + Copy>(
    alloc: A,
    world: &mut World<A>,
    client: u16,
) -> Result<(), Fault> {
    let client = name(alloc, "c", client)?;
    world.step(&Event::WhoIs {
        client,
        limits: Some(Limits { low: 1, high: 1 }),
    })
}

/// Makes an event so many times, and answers how often.
///
/// # Errors
/// `NoSuch` for a request without a spelling, and those of the event.
pub(crate) fn make_again<A: Allocator + Copy>(
    world: &mut World<A>,
    event: &Event<A>,
    times: u64,
) -> Result<u64, Fault> {
    if !event.is_sound() {
        return Err(Fault::NoSuch);
    }
    let mut made = 0u64;
    for _ in 0..times {
        world.step(event)?;
        made = made.saturating_add(1);
    }
    Ok(made)
}

/// Delivers each item from a place on that was put out so far, and answers the place behind them.
///
/// # Errors
/// Those of a delivery.
pub(crate) fn deliver_from<A: Allocator + Copy>(
    world: &mut World<A>,
    place: usize,
) -> Result<usize, Fault> {
    let behind = world.items().len();
    for number in place..behind {
        world.step(&Event::Deliver(number as u64))?;
    }
    Ok(behind)
}

/// Lets so many milliseconds pass, in which all is delivered and each station wakes, and answers how many events that
/// is.
///
/// # Errors
/// `NoSuch` where they aren't 1 to 60000; or `Memory`.
pub(crate) fn flow<A: Allocator + Copy>(world: &mut World<A>, n: u64) -> Result<u64, Fault> {
    let mut events = 0u64;
    let mut flow = Flow::new(n)?;
    while let Some(event) = world.next_of(&mut flow)? {
        // What is refused is lost: it changes nothing.
        let _ = world.step(&event);
        events = events.saturating_add(1);
    }
    Ok(events)
}
