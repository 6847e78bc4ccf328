//! Which frames are heard next, at which station of their bus.

use crate::choice::Choice;
use bus_traffic::{Bus, RecentBox};
use profile::is_heard_in_time;
use std::alloc::{AllocError, Allocator};

/// How many of these frames come before the last that was heard at an address, that one included: those that weren't
/// are lost there, since a bus overtakes none.
fn count_over<A: Allocator>(recent: &[RecentBox<A>], address: u8) -> usize {
    let mut count = 0;
    for place in 0..recent.len() {
        if recent[place].recent().heard[address as usize] {
            count = place + 1;
        }
    }
    count
}

/// Puts the hearing of each frame at an address that was put out behind the last one which was heard there, and may
/// still be heard at the moment `now`, in milliseconds.
fn put_ear<A: Allocator>(
    bus: &Bus<A>,
    place: usize,
    address: u8,
    now: u64,
    out: &mut Vec<Choice, A>,
) -> Result<(), AllocError> {
    let over = count_over(&bus.recent, address);
    for held in bus.recent.get(over..).unwrap_or(&[]) {
        let sending = &held.recent().sending;
        if sending.sender != address && is_heard_in_time(sending.stamp, now) {
            out.push(Choice::Hear {
                bus: place,
                address,
                frame: sending.place.frames,
            })?;
        }
    }
    Ok(())
}

/// Puts the hearing of what is on its way on the bus at a place, at each of its ears.
fn put_bus<A: Allocator>(
    bus: &Bus<A>,
    place: usize,
    now: u64,
    out: &mut Vec<Choice, A>,
) -> Result<(), AllocError> {
    for ear in &bus.ears {
        put_ear(bus, place, ear.address, now, out)?;
    }
    Ok(())
}

/// Puts the hearing of what is on its way on buses, at each of their ears, at the moment `now`, in milliseconds.
///
/// # Errors
/// Want of memory.
pub(crate) fn put_hearings<A: Allocator>(
    buses: &[Bus<A>],
    now: u64,
    out: &mut Vec<Choice, A>,
) -> Result<(), AllocError> {
    for place in 0..buses.len() {
        put_bus(&buses[place], place, now, out)?;
    }
    Ok(())
}
