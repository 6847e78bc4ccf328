//! A port of BACnet/IP at 127.0.0.1:47811, with two other members of its subnet (J.2, J.4.5).

use crate::told::push_told;
use crate::watched::Hearer;
use bvll::{Address, Bvll};
use link::{Change, Link, PortSent};
use link_ip::{IpPort, Reach};
use npdu::{Mac, Parcel, Target};
use sheets::{Stop, differs};
use std::alloc::{Allocator, Global};
use tags::{Fault, Items};

/// Its address.
const OWN: Address = Address {
    ip: [127, 0, 0, 1],
    port: 47811,
};

/// The other members.
const MEMBERS: [Address; 2] = [
    Address {
        ip: [127, 0, 0, 1],
        port: 47808,
    },
    Address {
        ip: [127, 0, 0, 1],
        port: 47810,
    },
];

/// Where octets come from.
const FROM: Mac = Mac::Six([127, 0, 0, 1, 0xBA, 0xC2]);

/// When the port last woke, in milliseconds.
const WOKEN: u64 = 5;

/// When octets are heard, in milliseconds.
const NOW: u64 = 1000;

/// The port.
#[derive(Drop)]
pub(crate) struct HeardPort<A: Allocator + Copy> {
    memory: A,
    port: IpPort<A>,
}

impl<A: Allocator + Copy> HeardPort<A> {
    /// The port, which has woken.
    ///
    /// # Errors
    /// Want of memory.
    pub(crate) fn new(memory: A) -> Result<HeardPort<A>, Stop> {
        let members = Items::from_slice(memory, &MEMBERS)?;
        let mut port = IpPort::new(memory, 1, OWN, Reach::Members(members));
        if port.moment() <= WOKEN {
            let mut change = Change::Nothing;
            let mut out = Items::new(memory);
            port.on_tick(&mut change, 0, WOKEN, &mut out)?;
            port.settle(change, WOKEN);
        }
        Ok(HeardPort { memory, port })
    }
}

impl<A: Allocator + Copy> Hearer for HeardPort<A> {
    fn copy(&self) -> Result<Self, Stop> {
        Ok(HeardPort {
            memory: self.memory,
            port: self.port.copy()?,
        })
    }

    /// Octets are refused where they spell no datagram, for that cause, and leave the port at its moment. Whatever it
    /// hears, it is as it was but for its moment.
    fn drops(&mut self, alloc: Global, octets: &[u8]) -> Result<bool, Stop> {
        let before = self.port.moment();
        if before > NOW {
            return Err(differs(alloc, "a port at another moment"));
        }
        let mut change = Change::Nothing;
        let mut out = Items::new(self.memory);
        let heard = self
            .port
            .heard(&mut change, FROM, octets, NOW, 0, NOW, &mut out);
        let fault = match heard {
            Ok(_) => None,
            Err(Fault::Memory) => return Err(Stop::Memory),
            Err(fault) => Some(fault),
        };
        self.port.settle(change, NOW);
        let moment = match fault {
            None => NOW,
            Some(_) => before,
        };
        if fault != Bvll::read(octets).err() || self.port.moment() != moment {
            return Err(differs(alloc, "a port with another refusal, or at another moment"));
        }
        Ok(true)
    }

    /// What it puts out of a broadcast, and to whom.
    fn told(&mut self, alloc: Global) -> Result<Vec<u8>, Stop> {
        if self.port.moment() > NOW {
            return Err(differs(alloc, "a port at another moment"));
        }
        let parcel = Parcel {
            from: Mac::Six(OWN.to_octets()),
            to: Target::All,
            npdu: Items::from_slice(self.memory, &[1, 0, 0x10, 8])?,
            stamp: WOKEN,
        };
        let mut change = Change::Nothing;
        let mut out = Items::new(self.memory);
        self.port.down(&mut change, &parcel, 0, NOW, &mut out)?;
        let mut told = Vec::new(alloc);
        for PortSent { sent, .. } in out.as_slice() {
            push_told(sent.to.as_octets(), &mut told)?;
            push_told(sent.octets.as_slice(), &mut told)?;
        }
        Ok(told)
    }
}
