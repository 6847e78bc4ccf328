//! A wire of UDP.

ghost use Rattle.std.specs.Prelude.{◌≡◌, ◌≤◌, ◌⊎◌, take, IfErr};
ghost use Rattle.std.specs.Option.{ForSome, option_map};
ghost use Rattle.profile.specs.Limits as limit;

use crate::socket::{Arrival, BoundSocket, all_bound, places_of, send_from, socket_of};
use crate::turns::Turns;
use crate::wire::{Got, Wire};
use bvll::Address;
use mio::{Events, Poll};
use npdu::Mac;
use profile::MAX_DATAGRAM_OCTETS;
use sorted_map::SortedMap;
use std::alloc::Allocator;
use std::io;
use std::net::Net;
use std::time::Duration;
use tags::Fault;

/// A wire of UDP (J.1.2) with one socket for each address of a site. No socket waits for a datagram. The system tells
/// which of them may have one; each of these is asked in turn, sixteen times at most before another.
#[derive(Drop)]
pub struct UdpWire<A: Allocator> {
    pub(crate) sockets: Vec<BoundSocket, A>,
    /// The places of the sockets by their addresses.
    places: SortedMap<Mac, usize, A>,
    pub(crate) turns: Turns<A>,
    pub(crate) poll: Poll,
    pub(crate) events: Events<A>,
    pub(crate) buffer: [u8; MAX_DATAGRAM_OCTETS],
    arrival: Option<Arrival>,
    faults: u64,
    sends: u64,
    recvs: u64,
    ghost fits: { ForSome arrival (λ a. a.count ≤ limit.MAX_DATAGRAM_OCTETS) },
}

impl<A: Allocator + Copy> UdpWire<A> {
    /// A wire with a socket at each of these addresses.
    ///
    /// # Errors
    /// `Wire` where one can't be opened, as where another program has the address; or `Memory`.
    pub fn new<R: Net>(rt: &R, alloc: A, addresses: &[Address]) -> Result<Self, Fault>
        ensures cause { IfErr result (λ fault. (fault ≡ Fault.Memory) ⊎ (fault ≡ Fault.Wire)) }
    {
        let Ok(poll) = Poll::new(rt) else {
            return Err(Fault::Wire);
        };
        let sockets = all_bound(rt, alloc, &poll, addresses)?;
        let places = places_of(alloc, sockets.as_slice())?;
        let turns = Turns::new(alloc, sockets.len())?;
        let events = Events::with_capacity(alloc, sockets.len().max(1))?;
        Ok(UdpWire {
            sockets,
            places,
            turns,
            poll,
            events,
            buffer: [0; MAX_DATAGRAM_OCTETS],
            arrival: None,
            faults: 0,
            sends: 0,
            recvs: 0,
        })
    }
}

impl<A: Allocator + Copy> UdpWire<A> {
    /// Sends a datagram from the socket of a station, and tells whether all of it went out.
    fn put_out(&self, from: Mac, to: Mac, octets: &[u8]) -> io::Result<bool> {
        match socket_of(self.sockets.as_slice(), &self.places, from) {
            Some(socket) => send_from(socket, to, octets),
            None => Ok(false),
        }
    }
}

impl<A: Allocator + Copy> Wire for UdpWire<A> {
    ghost faults = { λ s. s.faults };

    ghost sends = { λ s. s.sends };

    ghost recvs = { λ s. s.recvs };

    ghost latest = { λ s.
        option_map (λ a. record { from = a.from; to = a.to; octets = take a.count s.buffer }) s.arrival };

    fn send(&mut self, from: Mac, to: Mac, octets: &[u8]) -> Result<(), Fault> {
        self.sends = self.sends.saturating_add(1);
        match self.put_out(from, to, octets) {
            Ok(true) => Ok(()),
            Ok(false) | Err(_) => {
                self.faults = self.faults.saturating_add(1);
                Err(Fault::Wire)
            }
        }
    }

    fn recv(&mut self) -> Result<bool, Fault> {
        self.recvs = self.recvs.saturating_add(1);
        self.arrival = None;
        match self.receive_any() {
            Ok(arrival) => {
                self.arrival = arrival;
                Ok(arrival.is_some())
            }
            Err(_) => {
                self.faults = self.faults.saturating_add(1);
                Err(Fault::Wire)
            }
        }
    }

    fn wait(&mut self, at_most_ms: u64) {
        if self.turns.next().is_none() {
            let _ = self.look(Duration::from_millis(at_most_ms));
        }
    }

    fn last(&self) -> Option<Got<'_>> {
        match self.arrival {
            Some(arrival) => Some(Got {
                from: arrival.from,
                to: arrival.to,
                octets: &self.buffer[..arrival.count],
            }),
            None => None,
        }
    }

    fn faults(&self) -> u64 {
        self.faults
    }

    fn sends(&self) -> u64 {
        self.sends
    }

    fn recvs(&self) -> u64 {
        self.recvs
    }
}
