//! What a station on a bus has heard.

ghost use Rattle.std.specs.Prelude.{◌≡◌};
ghost use Rattle.bus_traffic.specs.Ears.{ear_after, ear_anew, kept_at};

use crate::cut_frame::CutFrame;
use mstp_frame::Deframer;
use profile::T_FRAME_ABORT_MS;
use std::alloc::Allocator;

/// The ear of a station on a bus: the octets of a frame that has begun, and when octets were heard there last (9.5.4).
#[derive(Drop)]
pub struct Ear {
    /// The address of the station.
    pub address: u8,
    /// It keeps the octets of a frame that has begun.
    pub deframer: Deframer,
    /// The moment at which octets were heard there last, in milliseconds, or at which it was made.
    pub last: u64,
}

impl Ear {
    /// The ear of the station at an address, made at the moment `now`, in milliseconds.
    pub fn new(address: u8, now: u64) -> Ear
        ensures { result ≡ ear_anew address now }
    {
        Ear {
            address,
            deframer: Deframer::new(),
            last: now,
        }
    }

    /// Returns what hears octets there that come at the moment `now`, in milliseconds. A silence ends a frame that is
    /// cut short: 100 ms without octets, and where none come (9.5.4).
    pub(crate) fn listening(&self, octets: &[u8], now: u64) -> Deframer
        ensures { result ≡ kept_at now octets.now self.now }
    {
        if octets.is_empty() {
            return Deframer::new();
        }
        if now.saturating_sub(self.last) >= T_FRAME_ABORT_MS {
            return Deframer::new();
        }
        self.deframer.copy()
    }

    /// It has heard these octets at the moment `now`, in milliseconds, and keeps this of them.
    pub(crate) fn hear<A: Allocator>(&mut self, octets: &[u8], cut: &CutFrame<A>, now: u64)
        ensures { self.new ≡ ear_after now octets.now cut.now self.old }
    {
        if !octets.is_empty() {
            self.last = now;
        }
        cut.put_in(&mut self.deframer);
    }
}
