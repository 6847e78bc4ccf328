//! The kinds of ports.

ghost use Rattle.std.specs.Prelude.{◌≡◌, false};
ghost use Rattle.link_site.specs.Port as spec;
ghost use Rattle.link_site.specs.Steps.{is_due};
ghost use Rattle.due_times.specs.Until.{Until};

use link_bus::BusPort;
use link_ip::IpPort;
use std::alloc::Allocator;

/// A port of a site.
#[derive(Drop)]
pub enum SitePort<A: Allocator> {
    /// On a network of BACnet/IP (Annex J).
    Ip(IpPort<A>),
    /// On a bus of MS/TP (9).
    Bus(BusPort<A>),
}

impl<A: Allocator + Copy> SitePort<A> {
    /// Whether it is a foreign device's, which registers at a broadcast manager: a bus has none (J.5.2).
    pub fn is_foreign(&self) -> bool
        ensures { result ≡ spec.is_foreign self.now }
    {
        match self {
            SitePort::Ip(port) => port.is_foreign(),
            SitePort::Bus(_) => false,
        }
    }

    /// Returns a moment, in milliseconds, before which nothing is due where it wakes (9.5.6).
    #[tactic(auto, using(crate::proofs::Dues::due_rules))]
    pub fn next_due(&self) -> u64
        ensures { Until result (λ now. is_due now self.now ≡ false) }
    {
        match self {
            SitePort::Ip(_) => u64::MAX,
            SitePort::Bus(port) => port.next_due(),
        }
    }
}
