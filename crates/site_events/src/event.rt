//! What can happen in a world.

use apdu::Limits;
use primitives::Request;
use std::alloc::Allocator;
use tags::Octets;

/// What can happen in a world. Stations are named as the site names them.
#[derive(Drop)]
#[derive_where(PartialEq, Eq, Debug)]
pub enum Event<A: Allocator> {
    /// A client is asked to make a sound request of the device of this instance (5.4.4.1).
    Issue {
        client: Octets<A>,
        instance: u32,
        request: Request<A>,
    },
    /// A client asks all devices, or those with an instance within limits, who they are (16.10.1).
    WhoIs {
        client: Octets<A>,
        limits: Option<Limits>,
    },
    /// So many milliseconds pass: 1 to 60000.
    Tick(u64),
    /// A station wakes: its timers have expired (5.4.1).
    Wake(Octets<A>),
    /// The item of this number, counted from 0, is handed to its addressee.
    Deliver(u64),
    /// A device restarts with the objects that the site gives it.
    Restart(Octets<A>),
    /// A station on a bus hears octets (9.5).
    Hear {
        network: u16,
        station: Octets<A>,
        octets: Octets<A>,
    },
    /// A foreign station registers at its broadcast manager (J.5.2).
    Register(Octets<A>),
}

impl<A: Allocator> Event<A> {
    ghost use Rattle.std.specs.Prelude.{IsTrue, ◌↔◌};
    ghost use Rattle.site_events.specs.Sound.{IsSoundEvent};

    /// Returns whether it may be asked for: its request has a spelling, if it has one (12, 15).
    pub fn is_sound(&self) -> bool
        ensures { IsTrue result ↔ IsSoundEvent self.now }
    {
        match self {
            Event::Issue { request, .. } => request.is_sound(),
            Event::WhoIs { .. }
            | Event::Tick(_)
            | Event::Wake(_)
            | Event::Deliver(_)
            | Event::Restart(_)
            | Event::Hear { .. }
            | Event::Register(_) => true,
        }
    }
}
