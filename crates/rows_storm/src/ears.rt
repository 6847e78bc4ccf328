//! The ears of stations on buses.

use judge::{Ear, is_in_time};
use simulator::World;
use std::alloc::{AllocError, Allocator};
use tags::Octets;

/// The ear of the station of a name on the bus of a number.
#[derive(Drop)]
struct NamedEar<A: Allocator> {
    network: u16,
    station: Octets<A>,
    ear: Ear,
}

/// The ears of all stations that heard something in a storm.
#[derive(Drop)]
pub(crate) struct Ears<A: Allocator> {
    named: Vec<NamedEar<A>, A>,
}

impl<A: Allocator + Copy> Ears<A> {
    /// No station heard anything yet.
    pub(crate) fn new(alloc: A) -> Ears<A> {
        Ears {
            named: Vec::new(alloc),
        }
    }

    /// A station heard octets on a bus, in a step behind so many frames. Tells whether each frame that ends with them
    /// was put out there before, and may still be heard.
    ///
    /// # Errors
    /// Want of memory.
    pub(crate) fn hears_only(
        &mut self,
        alloc: A,
        world: &World<A>,
        network: u16,
        station: &Octets<A>,
        octets: &[u8],
        before: u64,
    ) -> Result<bool, AllocError> {
        let now = world.moment();
        let frames = frames_on(alloc, world, network, before)?;
        for named in &mut self.named {
            if named.network == network && named.station == *station {
                return Ok(named.ear.hears_only(octets, frames.as_slice(), now));
            }
        }
        let mut ear = Ear::new(now);
        let is_known = ear.hears_only(octets, frames.as_slice(), now);
        self.named.push(NamedEar {
            network,
            station: station.copy(alloc)?,
            ear,
        })?;
        Ok(is_known)
    }

    /// A station restarts: what it heard of a frame is gone.
    pub(crate) fn restart(&mut self, station: &Octets<A>, now: u64) {
        for named in &mut self.named {
            if named.station == *station {
                named.ear = Ear::new(now);
            }
        }
    }
}

/// The frames of a bus that were put out before so many, and may still be heard.
fn frames_on<A: Allocator + Copy>(
    alloc: A,
    world: &World<A>,
    network: u16,
    before: u64,
) -> Result<Vec<&[u8], A>, AllocError> {
    let now = world.moment();
    let mut frames = Vec::new(alloc);
    for bus in &world.buses().buses {
        for held in &bus.recent {
            let sending = &held.recent().sending;
            let is_before = bus.net == network && sending.place.frames < before;
            if is_before && is_in_time(sending.stamp, now) {
                frames.push(sending.octets.as_slice())?;
            }
        }
    }
    Ok(frames)
}
