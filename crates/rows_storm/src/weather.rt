//! One event and what it breaks, and the end of a storm.

ghost use Rattle.simulator.specs.world.Step.{IsSoundEvent};

use crate::counts::Counts;
use crate::ears::Ears;
use bus_traffic::Bus;
use inside::Reach;
use judge::{
    Destination, DeviceEnd, Illegal, Message, Objection, Sent, is_in_time, judge_carry,
    judge_history,
};
use simulator::{Event, World};
use std::alloc::{AllocError, Allocator};
use std::fmt;
use tags::Fault;

/// What isn't as it should be.
#[derive(Clone, Copy, Debug, PartialEq, Eq)]
pub(crate) enum Wrong {
    /// The history isn't legal.
    History(Illegal),
    /// What is inside a datagram was not said so.
    Datagram { number: usize },
    /// What is inside a frame was not said so.
    Frame,
    /// An item was delivered that is too old to be heard.
    TooOld { number: u64 },
    /// A frame was heard that nobody put out, or that is too old.
    Forged,
}

impl fmt::Display for Wrong {
    fn fmt<W: fmt::Write>(&self, f: &mut fmt::Formatter<W>) -> fmt::Result {
        match self {
            Wrong::History(illegal) => write!(f, "{illegal}"),
            Wrong::Datagram { number } => write!(f, "item {number} has what nobody said so"),
            Wrong::Frame => f.write_str("a frame has what nobody said so"),
            Wrong::TooOld { number } => write!(
                f,
                "item {number} was delivered when it was too old"
            ),
            Wrong::Forged => f.write_str("a frame was heard that may not be"),
        }
    }
}

/// Makes an event in a world, and tells what it breaks.
///
/// # Errors
/// Want of memory.
pub(crate) fn make<A: Allocator + Copy>(
    alloc: A,
    world: &mut World<A>,
    ears: &mut Ears<A>,
    event: &Event<A>,
    counts: &mut Counts,
) -> Result<Option<Wrong>, AllocError>
    requires { IsSoundEvent event.now }
{
    let before = world.buses().frames;
    if let Err(fault) = world.step(event) {
        counts.refuse(fault);
        return Ok(None);
    }
    counts.make();
    let wrong = judge_event(alloc, world, ears, event, before)?;
    if wrong.is_some() {
        return Ok(wrong);
    }
    judge_frames(alloc, world, before, counts)
}

/// Judges an event that was made behind so many frames: what it delivered may still be heard.
fn judge_event<A: Allocator + Copy>(
    alloc: A,
    world: &World<A>,
    ears: &mut Ears<A>,
    event: &Event<A>,
    before: u64,
) -> Result<Option<Wrong>, AllocError> {
    match event {
        Event::Deliver(number) => Ok(too_old(world, *number)),
        Event::Hear {
            network,
            station,
            octets,
        } => {
            if ears.hears_only(alloc, world, *network, station, octets.as_slice(), before)? {
                Ok(None)
            } else {
                Ok(Some(Wrong::Forged))
            }
        }
        Event::Restart(station) => {
            ears.restart(station, world.moment());
            Ok(None)
        }
        Event::Issue { .. }
        | Event::WhoIs { .. }
        | Event::Tick(_)
        | Event::Wake(_)
        | Event::Register(_) => Ok(None),
    }
}

/// Whether the item of a number is too old to be heard.
fn too_old<A: Allocator + Copy>(world: &World<A>, number: u64) -> Option<Wrong> {
    let item = world.items().get(number as usize)?;
    if is_in_time(item.stamp, world.moment()) {
        None
    } else {
        Some(Wrong::TooOld { number })
    }
}

/// Judges the frames that were put out behind so many.
fn judge_frames<A: Allocator + Copy>(
    alloc: A,
    world: &World<A>,
    before: u64,
    counts: &mut Counts,
) -> Result<Option<Wrong>, AllocError> {
    if world.buses().frames == before {
        return Ok(None);
    }
    let mut sent = Vec::new(alloc);
    for bus in &world.buses().buses {
        push_frames(bus, before, &mut sent)?;
    }
    let said = all_said(alloc, world)?;
    match judge_carry(said.as_slice(), sent.as_slice()) {
        Ok(inside) => {
            counts.judge_frames(sent.len(), inside);
            Ok(None)
        }
        Err(_) => Ok(Some(Wrong::Frame)),
    }
}

/// Appends the frames of a bus that were put out behind so many, and may still be heard.
fn push_frames<'w, A: Allocator + Copy>(
    bus: &'w Bus<A>,
    before: u64,
    sent: &mut Vec<Sent<'w>, A>,
) -> Result<(), AllocError> {
    for held in &bus.recent {
        let sending = &held.recent().sending;
        if sending.place.frames >= before {
            sent.push(Sent::Frame {
                network: bus.net,
                octets: sending.octets.as_slice(),
                stamp: sending.stamp,
            })?;
        }
    }
    Ok(())
}

/// What was said in a world.
fn all_said<A: Allocator + Copy>(
    alloc: A,
    world: &World<A>,
) -> Result<Vec<Message<'_>, A>, AllocError> {
    let mut all = Vec::new(alloc);
    for said in world.said() {
        all.push(Message {
            source: said.source,
            destination: destination_of(said.reach),
            apdu: said.apdu(),
            stamp: said.stamp,
        })?;
    }
    Ok(all)
}

/// Whom a message is for, as the judge says it.
fn destination_of(reach: Reach) -> Destination {
    match reach {
        Reach::One(station) => Destination::Station(station),
        Reach::Network(network) => Destination::Network(network),
        Reach::All => Destination::All,
    }
}

/// Judges a world at the end of a storm: its history, and all datagrams that were put out.
///
/// # Errors
/// Want of memory.
pub(crate) fn judge_end<A: Allocator + Copy>(
    alloc: A,
    world: &World<A>,
    counts: &mut Counts,
) -> Result<Option<Wrong>, Fault> {
    let devices = devices_of(alloc, world)?;
    match judge_history(alloc, devices.as_slice(), world.history()) {
        Ok(()) => {
            counts.find_legal();
            judge_items(alloc, world, counts)
        }
        Err(Objection::Illegal(illegal)) => Ok(Some(Wrong::History(illegal))),
        Err(Objection::Unjudged(fault)) => Err(fault),
    }
}

/// The devices of a world.
fn devices_of<A: Allocator + Copy>(
    alloc: A,
    world: &World<A>,
) -> Result<Vec<DeviceEnd<'_, A>, A>, AllocError> {
    let mut devices = Vec::new(alloc);
    for station in world.site().stations() {
        if let Some(opening) = station.role.objects() {
            if let Some(table) = world.table(station.name.as_slice()) {
                devices.push(DeviceEnd { opening, table })?;
            }
        }
    }
    Ok(devices)
}

/// Judges all datagrams that were put out.
fn judge_items<A: Allocator + Copy>(
    alloc: A,
    world: &World<A>,
    counts: &mut Counts,
) -> Result<Option<Wrong>, Fault> {
    let mut sent = Vec::new(alloc);
    for item in world.items() {
        sent.push(Sent::Datagram {
            network: item.net,
            from: item.from,
            to: item.to,
            octets: item.octets.as_slice(),
            stamp: item.stamp,
        })?;
    }
    let said = all_said(alloc, world)?;
    match judge_carry(said.as_slice(), sent.as_slice()) {
        Ok(inside) => {
            counts.end(world, inside);
            Ok(None)
        }
        Err(unsaid) => Ok(Some(Wrong::Datagram {
            number: unsaid.place,
        })),
    }
}
