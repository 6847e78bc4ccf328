//! Broadcast managers of BACnet/IP (ANSI/ASHRAE 135, clause J.4.5): forwarding a broadcast to the members of a subnet.

use crate::clock::{Clock, Often, Work};
use bbmd::Bbmd;
use bvll::Address;
use std::alloc::{AllocError, Allocator};
use std::io;

/// How often a call is made.
const OFTEN: Often = Often {
    few: 1_000,
    timed: 100_000,
};

/// How many members the subnet has beside its manager.
const MEMBERS: u16 = 16;

/// The port of the manager, which the other one's follows, and then those of the members.
const FIRST: u16 = 47808;

/// A Who-Is that the other manager forwards for a station of its subnet.
const FORWARDED: [u8; 18] = [
    0x81, 0x04, 0x00, 0x12, 127, 0, 0, 1, 0xBA, 0xE0, 0x01, 0x20, 0xFF, 0xFF, 0x00, 0xFF, 0x10,
    0x08,
];

/// The address with this port.
fn at_port(port: u16) -> Address {
    Address {
        ip: [127, 0, 0, 1],
        port,
    }
}

/// Forwarding what another manager sends.
#[derive(Drop)]
struct Forwarding<A: Allocator + Copy> {
    manager: Bbmd<A>,
}

impl<A: Allocator + Copy> Forwarding<A> {
    /// A manager with a peer and the members of its subnet.
    fn new(alloc: A) -> io::Result<Forwarding<A>> {
        let own = at_port(FIRST);
        let managers = [own, at_port(FIRST + 1)];
        if !managers.as_slice().contains(&own) {
            return Err(io::Error::from(AllocError));
        }
        let mut members = Vec::new(alloc);
        for port in FIRST + 2..FIRST + 2 + MEMBERS {
            members.push(at_port(port))?;
        }
        let Ok(manager) = Bbmd::new(alloc, own, members.as_slice(), &managers) else {
            return Err(io::Error::from(AllocError));
        };
        Ok(Forwarding { manager })
    }
}

impl<A: Allocator + Copy> Work for Forwarding<A> {
    fn go(&mut self, times: u64) -> Result<u64, AllocError> {
        let now = self.manager.moment();
        let mut sent = 0u64;
        for _ in 0..times {
            if now > 0 || self.manager.moment() > now {
                return Err(AllocError);
            }
            let Ok(all) = self
                .manager
                .on_datagram(at_port(FIRST + 1), &FORWARDED, now)
            else {
                return Err(AllocError);
            };
            sent = sent.saturating_add(all.len() as u64);
        }
        Ok(sent)
    }
}

/// Times forwarding to the members of a subnet.
///
/// # Errors
/// Those of the clock and of printing, and want of memory.
pub(crate) fn run(clock: Clock<'_>) -> io::Result<()> {
    let mut forwarding = Forwarding::new(clock.alloc())?;
    let name = format!(in clock.alloc(); "forwarded to {MEMBERS} members")?;
    clock.tell(OFTEN, name.as_str(), "datagrams", &mut forwarding)
}
