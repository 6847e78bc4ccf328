//! Where a device is, as its I-Am says (16.10.3).

use crate::ends::ends_of;
use crate::place::Place;
use crate::reading::{Failure, Taker, read_packets};
use apdu::{UnconfirmedService, i_am_from};
use captures::Packet;
use diagnosis_parts::{Heading, heading_of};
use std::alloc::Allocator;
use std::io::Read;

/// The most places of a device that are known.
const MOST_PLACES: usize = 64;

/// The places from which a device of this instance says that it is there.
#[derive(Drop)]
struct Instances<A: Allocator> {
    instance: u32,
    places: Vec<Place, A>,
}

impl<A: Allocator> Taker for Instances<A> {
    fn take(&mut self, packet: &Packet<'_>) -> Result<(), Failure> {
        let Some(ends) = ends_of(packet) else {
            return Ok(());
        };
        let place = Place::At(ends.sender);
        if MOST_PLACES <= self.places.len()
            || !ends
                .apdu
                .is_some_and(|apdu| is_i_am_of(self.instance, apdu))
            || self.places.as_slice().contains(&place)
        {
            return Ok(());
        }
        self.places.push(place)?;
        Ok(())
    }
}

/// Whether an APDU is the I-Am of the device of this instance.
fn is_i_am_of(instance: u32, apdu: &[u8]) -> bool {
    let Ok(Heading::Unconfirmed { service, data }) = heading_of(apdu) else {
        return false;
    };
    if service != u8::from(UnconfirmedService::IAm) {
        return false;
    }
    match i_am_from(data) {
        Some(i_am) => i_am.instance == instance,
        None => false,
    }
}

/// The places from which a device of this instance says in a capture that it is there, 64 at most.
///
/// # Errors
/// Those of reading, and want of memory.
pub fn places_of<A: Allocator + Copy, R: Read>(
    alloc: A,
    instance: u32,
    input: &mut R,
) -> Result<Vec<Place, A>, Failure> {
    let mut instances = Instances {
        instance,
        places: Vec::new(alloc),
    };
    read_packets(alloc, input, &mut instances)?;
    Ok(instances.places)
}
