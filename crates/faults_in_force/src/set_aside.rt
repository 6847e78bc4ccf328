//! Deliveries that had their turn: they are never made, or not yet.

use bus_traffic::Bus;
use profile::is_heard_in_time;
use std::alloc::Allocator;

/// A delivery, by what is delivered.
#[derive(Clone, Copy, Debug, PartialEq, Eq)]
pub(crate) enum Delivery {
    /// The datagram of this number.
    Datagram(u64),
    /// The frame of this number among those of all buses, at the station of this address.
    Frame { number: u64, address: u8 },
}

/// A delivery that had its turn.
#[derive(Clone, Copy)]
pub(crate) struct SetAside {
    pub(crate) delivery: Delivery,
    /// The moment of its turn, in milliseconds.
    pub(crate) at: u64,
    /// The moment at which it is made, if it ever is.
    pub(crate) due: Option<u64>,
}

impl SetAside {
    /// Whether it may still come up, at the moment `now`, in milliseconds: what is older is never delivered.
    pub(crate) fn may_come_up(self, now: u64) -> bool {
        is_heard_in_time(self.at, now)
    }

    /// Whether it is made at the moment `now`.
    pub(crate) fn is_due(self, now: u64) -> bool {
        match self.due {
            Some(due) => due <= now,
            None => false,
        }
    }

    /// The number of the frame, where it is one at the station of this address.
    pub(crate) fn frame_at(self, station: u8) -> Option<u64> {
        match self.delivery {
            Delivery::Frame { number, address } if address == station => Some(number),
            Delivery::Frame { .. } | Delivery::Datagram(_) => None,
        }
    }
}

/// Whether the frame of a number, which may still be heard on a bus, has these octets.
pub(crate) fn is_same_frame<A: Allocator>(bus: &Bus<A>, number: u64, octets: &[u8]) -> bool {
    for held in bus.recent.as_slice() {
        let sending = &held.recent().sending;
        if sending.place.frames == number {
            return sending.octets.as_slice() == octets;
        }
    }
    false
}
