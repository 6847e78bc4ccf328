//! The frames that an event lets a station hear (9.5).

use crate::gathering::PutFrame;
use crate::places::mac_on;
use bus_traffic::{Bus, HeardFrame, RecentBox};
use mstp_frame::{Frame, FrameType};
use site_steps::{Event, World};
use std::alloc::{AllocError, Allocator};
use tags::{Fault, Octets};

/// The address that stands for all nodes of a bus (9.1.2).
const ALL_NODES: u8 = 255;

/// How many of the frames that are shown a station may still receive: those of the last second are fewer.
const RECENT: usize = 4096;

/// A frame that a station hears which it is for.
#[derive(Drop)]
pub(crate) struct Heard<A: Allocator> {
    /// The number of the network of the bus.
    pub(crate) network: u16,
    /// The MAC of the station.
    pub(crate) mac: u8,
    /// The whole frame.
    pub(crate) octets: Octets<A>,
    /// Its number among all frames, where it wasn't delivered there before.
    pub(crate) number: Option<u64>,
}

/// The frames that an event lets a station hear, of those that it is for, without tokens. The event hasn't happened
/// yet.
pub(crate) fn heard_by<A: Allocator + Copy>(
    alloc: A,
    world: &World<A>,
    event: &Event<A>,
) -> Result<Vec<Heard<A>, A>, Fault> {
    match event {
        Event::Hear {
            network,
            station,
            octets,
        } => match mac_on(*network, station.as_slice(), world.site().stations()) {
            Some(mac) => heard_at(alloc, world, *network, mac, octets.as_slice()),
            None => Ok(Vec::new(alloc)),
        },
        Event::Issue { .. }
        | Event::WhoIs { .. }
        | Event::Tick(_)
        | Event::Wake(_)
        | Event::Deliver(_)
        | Event::Restart(_)
        | Event::Register(_) => Ok(Vec::new(alloc)),
    }
}

/// The frames that octets end at the station of a MAC on a bus.
fn heard_at<A: Allocator + Copy>(
    alloc: A,
    world: &World<A>,
    network: u16,
    mac: u8,
    octets: &[u8],
) -> Result<Vec<Heard<A>, A>, Fault> {
    let buses = world.buses();
    let hearing = match buses.hearing(alloc, network, mac, octets, world.moment()) {
        Ok(hearing) => hearing.hearing,
        Err(Fault::Memory) => return Err(Fault::Memory),
        Err(_) => return Ok(Vec::new(alloc)),
    };
    let mut all = Vec::new(alloc);
    for frame in hearing.frames.into_vec() {
        let number = number_of(
            buses.buses.as_slice(),
            network,
            mac,
            frame.octets.as_slice(),
        );
        put_heard(network, mac, frame, number, &mut all)?;
    }
    Ok(all)
}

/// Puts a frame behind others, if it is for the station of a MAC, and no token.
fn put_heard<A: Allocator>(
    network: u16,
    mac: u8,
    frame: HeardFrame<A>,
    number: Option<u64>,
    all: &mut Vec<Heard<A>, A>,
) -> Result<(), AllocError> {
    let HeardFrame { octets, .. } = frame;
    if !is_for(mac, octets.as_slice()) {
        return Ok(());
    }
    all.push(Heard {
        network,
        mac,
        octets,
        number,
    })?;
    Ok(())
}

/// Whether octets are a frame for the station of a MAC, and no token.
fn is_for(mac: u8, octets: &[u8]) -> bool {
    match Frame::read(octets) {
        Some(frame) => {
            is_shown(frame) && (frame.destination == mac || frame.destination == ALL_NODES)
        }
        None => false,
    }
}

/// Whether a frame is shown: it carries data, or is none of those with which the token is passed and masters are looked
/// for (9.3.1 to 9.3.3).
pub(crate) fn is_shown(frame: Frame<'_>) -> bool {
    match frame.frame_type {
        FrameType::Token | FrameType::PollForMaster | FrameType::ReplyToPollForMaster => {
            !frame.data.is_empty()
        }
        FrameType::TestRequest
        | FrameType::TestResponse
        | FrameType::BacnetDataExpectingReply
        | FrameType::BacnetDataNotExpectingReply
        | FrameType::ReplyPostponed
        | FrameType::Other(_) => true,
    }
}

/// The number of the first frame with these octets that may still be heard on a bus and wasn't delivered at a MAC,
/// which isn't its sender's.
fn number_of<A: Allocator>(buses: &[Bus<A>], network: u16, mac: u8, octets: &[u8]) -> Option<u64> {
    for bus in buses {
        if bus.net == network {
            return number_on(&bus.recent, mac, octets);
        }
    }
    None
}

/// The same among frames of a bus.
fn number_on<A: Allocator>(recent: &[RecentBox<A>], mac: u8, octets: &[u8]) -> Option<u64> {
    for held in recent {
        let frame = held.recent();
        let sending = &frame.sending;
        let is_waiting = sending.sender != mac && !frame.heard[mac as usize];
        if is_waiting && sending.octets.as_slice() == octets {
            return Some(sending.place.frames);
        }
    }
    None
}

/// Marks that a frame was received, and answers its place. One that was delivered there before is the last of those
/// with the same octets.
pub(crate) fn mark_heard<A: Allocator>(
    frames: &mut Vec<PutFrame<A>, A>,
    heard: &Heard<A>,
) -> Option<usize> {
    let place = last_same(frames.as_slice(), heard)?;
    if frames.len() <= place {
        return None;
    }
    frames[place].is_heard = true;
    Some(place)
}

/// The place of the last frame that was sent and is one that is received, among the last ones.
fn last_same<A: Allocator>(frames: &[PutFrame<A>], heard: &Heard<A>) -> Option<usize> {
    let first = frames.len().saturating_sub(RECENT);
    let mut last = None;
    let mut place = first;
    for frame in frames.get(first..)? {
        if is_same(frame, heard) {
            last = Some(place);
        }
        place = place.saturating_add(1);
    }
    last
}

/// Whether a frame that was sent is one that is received.
fn is_same<A: Allocator>(frame: &PutFrame<A>, heard: &Heard<A>) -> bool {
    match heard.number {
        Some(number) => frame.number == number,
        None => {
            frame.network == heard.network && frame.octets.as_slice() == heard.octets.as_slice()
        }
    }
}
