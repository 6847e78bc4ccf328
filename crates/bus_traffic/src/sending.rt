//! A frame that was put out on a bus.

use std::alloc::{AllocError, Allocator};
use std::marker::Model;
use tags::Octets;

/// The place of a frame in the order of all that was put out, on any network.
#[derive(Clone, Copy, Debug, PartialEq, Eq)]
pub struct Place {
    /// How many datagrams were put out before it.
    pub items: u64,
    /// How many frames were put out before it, on all buses.
    pub frames: u64,
}

/// A frame that was put out on a bus (9.3).
#[derive(Drop)]
pub struct Sending<A: Allocator> {
    /// The address of the station that put it out.
    pub sender: u8,
    /// The whole frame.
    pub octets: Octets<A>,
    /// The moment at which the message in it was said, in milliseconds; where it carries none, that at which it was put
    /// out.
    pub stamp: u64,
    pub place: Place,
}

/// A frame that was put out, and the stations that it was delivered at.
#[derive(Drop)]
pub struct Recent<A: Allocator> {
    pub sending: Sending<A>,
    /// Whether it was delivered at the station of each address.
    pub heard: [bool; 256],
}

/// What is known of all equal frames that were put out on a bus.
#[derive(Drop)]
pub struct Known<A: Allocator> {
    /// The whole frame.
    pub octets: Octets<A>,
    /// The youngest of their stamps, in milliseconds.
    pub stamp: u64,
}

/// A frame that was put out, and the stations that it was delivered at, in memory of their own: it is moved cheaply.
#[derive(Drop)]
pub struct RecentBox<A: Allocator> {
    held: Box<Recent<A>, A>,
}

impl<A: Allocator> Model for RecentBox<A> {
    ghost use Rattle.bus_traffic.specs.declared.sending.Recent.{Recent};

    ghost Value = { Recent A };

    ghost view = { λ b. b.held.value };
}

impl<A: Allocator> RecentBox<A> {
    ghost use Rattle.std.specs.Prelude.{◌≡◌, IfOk};
    ghost use Rattle.bus_traffic.specs.Sendings.{marked, unheard};

    /// A frame that was put out, and where it was delivered.
    ///
    /// # Errors
    /// Want of memory.
    pub(crate) fn new(alloc: A, recent: Recent<A>) -> Result<Self, AllocError>
        ensures { IfOk result (λ held. held ≡ recent) }
    {
        Ok(RecentBox {
            held: Box::new(alloc, recent)?,
        })
    }

    /// A frame that was put out, delivered nowhere yet.
    ///
    /// # Errors
    /// Want of memory.
    fn unheard(alloc: A, sending: Sending<A>) -> Result<Self, AllocError>
        ensures { IfOk result (λ held. held ≡ unheard sending) }
    {
        RecentBox::new(
            alloc,
            Recent {
                sending,
                heard: [false; 256],
            },
        )
    }

    /// The frame, and where it was delivered.
    pub fn recent(&self) -> &Recent<A>
        ensures { result.now ≡ self.now }
    {
        &self.held
    }

    /// The same frame, in another place.
    fn put_behind(&mut self, place: Place)
        ensures { self.new ≡ record self.old { sending = record self.old.sending { place = place } } }
    {
        self.held.sending.place = place;
    }

    /// It is delivered at an address.
    pub(crate) fn mark(&mut self, address: u8)
        ensures { self.new ≡ marked address self.old }
    {
        self.held.heard[address as usize] = true;
    }
}

/// A frame that is to be put out, with all memory that this takes of the frame's own.
#[derive(Drop)]
pub struct Put<A: Allocator> {
    pub(crate) recent: RecentBox<A>,
    pub(crate) known: Known<A>,
}

impl<A: Allocator> Model for Put<A> {
    ghost use Rattle.std.specs.Prelude.{◌≡◌};
    ghost use Rattle.bus_traffic.specs.Sendings.{known_by, unheard};
    ghost use Rattle.bus_traffic.specs.declared.sending.Sending.{Sending};

    ghost Value = { Sending A };

    ghost view = { λ p. p.recent.sending };

    ghost invariant = { λ p. (p.recent ≡ unheard p.recent.sending) × (p.known ≡ known_by p.recent.sending) };
}

impl<A: Allocator + Copy> Put<A> {
    ghost use Rattle.std.specs.Prelude.{◌≡◌, IfOk};

    /// A frame that is to be put out.
    ///
    /// # Errors
    /// Want of memory.
    pub fn new(alloc: A, sending: Sending<A>) -> Result<Self, AllocError>
        ensures { IfOk result (λ put. put ≡ sending) }
    {
        let known = Known {
            octets: sending.octets.copy(alloc)?,
            stamp: sending.stamp,
        };
        let recent = RecentBox::unheard(alloc, sending)?;
        Ok(Put { recent, known })
    }

    /// The same frame, in another place.
    pub fn placed(self, place: Place) -> Self
        ensures { result ≡ record self { place = place } }
    {
        let Put { mut recent, known } = self;
        recent.put_behind(place);
        Put { recent, known }
    }
}
