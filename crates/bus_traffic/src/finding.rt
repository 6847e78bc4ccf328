//! Which ear is meant.

ghost use Rattle.std.specs.Prelude.{◌≡◌, Some, None, IfOk, IfErr, OnErr, IfSome, IfNone, slice_get};
ghost use Rattle.bus_traffic.specs.Finding as spec;
ghost use Rattle.bus_traffic.specs.Finding.{HasNoEar, IsEar, place_of};

use crate::bus::Bus;
use crate::ear::Ear;
use std::alloc::Allocator;
use tags::Fault;

/// The place of the first bus of a number.
fn bus_place<A: Allocator>(buses: &[Bus<A>], net: u16) -> Option<usize>
    ensures { result ≡ place_of (spec.has_number net) buses.now }
{
    let mut left = buses;
    let mut place = 0;
    while let [first, rest @ ..] = left {
        if first.net == net {
            return Some(place);
        }
        left = rest;
        place += 1;
    }
    None
}

/// The place of the first ear of the station at an address.
fn ear_place(ears: &[Ear], address: u8) -> Option<usize>
    ensures { result ≡ place_of (spec.is_of address) ears.now }
{
    let mut left = ears;
    let mut place = 0;
    while let [first, rest @ ..] = left {
        if first.address == address {
            return Some(place);
        }
        left = rest;
        place += 1;
    }
    None
}

/// Returns the item at a place, if there is one.
fn one_at<T>(all: &[T], place: usize) -> Option<&T>
    ensures there { IfSome result (λ one. slice_get all.now place ≡ Some one.now) }
    ensures none { IfNone result (slice_get all.now place ≡ None) }
{
    match all.get(place) {
        Some(one) => Some(one),
        None => None,
    }
}

/// An ear and its bus, and the place of each.
#[derive(Drop)]
pub struct FoundEar<'b, A: Allocator> {
    /// The place of the bus.
    pub bus_place: usize,
    pub bus: &'b Bus<A>,
    /// The place of the ear among those of the bus.
    pub ear_place: usize,
    pub ear: &'b Ear,
}

/// The ear of the station at an address on the bus of a number (9.1).
///
/// # Errors
/// `NoSuch` where there is no such bus, or no such station on it.
pub fn ear_at<A: Allocator>(
    buses: &[Bus<A>],
    net: u16,
    address: u8,
) -> Result<FoundEar<'_, A>, Fault>
    ensures ear { IfOk result (λ found.
        IsEar net address buses.now found.bus_place found.bus.now found.ear_place found.ear.now) }
    ensures cause { IfErr result (λ fault. fault ≡ Fault.NoSuch) }
    ensures none { OnErr result (HasNoEar net address buses.now) }
{
    let Some(bus_place) = bus_place(buses, net) else {
        return Err(Fault::NoSuch);
    };
    let Some(bus) = one_at(buses, bus_place) else {
        return Err(Fault::NoSuch);
    };
    let Some(ear_place) = ear_place(&bus.ears, address) else {
        return Err(Fault::NoSuch);
    };
    let Some(ear) = one_at(&bus.ears, ear_place) else {
        return Err(Fault::NoSuch);
    };
    Ok(FoundEar {
        bus_place,
        bus,
        ear_place,
        ear,
    })
}
