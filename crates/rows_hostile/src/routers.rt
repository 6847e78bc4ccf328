//! A router between network 1, of BACnet/IP, and network 2, of MS/TP, that has woken and learned the way to two other
//! networks (6.5, 6.6).

use crate::told::push_told;
use crate::watched::Hearer;
use npdu::{Mac, Parcel, Station, Target, View};
use router::{PortParcel, Router, are_numbered};
use sheets::{Part, Stop, differs};
use std::alloc::{Allocator, Global};
use tags::{Fault, Items};

/// Its ports.
const PORTS: [Station; 2] = [
    Station {
        net: 1,
        mac: Mac::Six([127, 0, 0, 1, 0xBA, 0xC0]),
    },
    Station {
        net: 2,
        mac: Mac::One(1),
    },
];

/// A station on each port.
const STATIONS: [Mac; 2] = [Mac::Six([127, 0, 0, 1, 0xBA, 0xC2]), Mac::One(5)];

/// When octets are heard, in milliseconds.
const NOW: u64 = 1000;

/// What it heard before: of two routers, which networks lie behind them (6.4.2).
const BEFORE: [(usize, &[u8]); 2] = [(0, &[1, 0x80, 1, 0, 3]), (1, &[1, 0x80, 1, 0, 4, 0, 5])];

/// What is asked of it: which networks it has a way to, on both ports, and messages for those that it learned of
/// (6.4.1).
const ASKED: [(usize, &[u8]); 5] = [
    (0, &[1, 0x80, 0]),
    (1, &[1, 0x80, 0]),
    (1, &[1, 0x20, 0, 3, 0, 9, 0x10, 8]),
    (0, &[1, 0x20, 0, 4, 0, 9, 0x10, 8]),
    (0, &[1, 0x20, 0, 5, 0, 9, 0x10, 8]),
];

/// The router, and over which of its ports and for whom it hears.
#[derive(Drop)]
pub(crate) struct HeardRouter<A: Allocator + Copy> {
    memory: A,
    router: Router<A>,
    port: usize,
    to: Target,
}

impl<A: Allocator + Copy> HeardRouter<A> {
    /// The router behind what it heard, for each port to the router itself and to all.
    ///
    /// # Errors
    /// `Differs` where it says nothing to that, `Memory`.
    pub(crate) fn all(alloc: Global, memory: A) -> Result<Vec<HeardRouter<A>>, Stop> {
        if !are_numbered(&PORTS) {
            return Err(Stop::Unread(Part::Number));
        }
        let mut router = Router::new(memory, &PORTS)?;
        router.on_tick(NOW)?;
        told_to(alloc, memory, &mut router, &BEFORE)?;
        let mut all = Vec::new(alloc);
        for (port, own) in PORTS.iter().enumerate() {
            for to in [Target::One(own.mac), Target::All] {
                let router = router.copy()?;
                all.push(HeardRouter {
                    memory,
                    router,
                    port,
                    to,
                })?;
            }
        }
        Ok(all)
    }
}

impl<A: Allocator + Copy> Hearer for HeardRouter<A> {
    fn copy(&self) -> Result<Self, Stop> {
        Ok(HeardRouter {
            memory: self.memory,
            router: self.router.copy()?,
            port: self.port,
            to: self.to,
        })
    }

    fn drops(&mut self, alloc: Global, octets: &[u8]) -> Result<bool, Stop> {
        let npdu = carried(octets);
        let said = said_to(
            alloc,
            self.memory,
            &mut self.router,
            self.port,
            self.to,
            npdu,
        )?;
        for sent in said.as_slice() {
            if View::read(sent.parcel.npdu.as_slice()).is_err() {
                return Err(differs(alloc, "a router that says what is no NPDU"));
            }
        }
        Ok(said.is_empty())
    }

    fn told(&mut self, alloc: Global) -> Result<Vec<u8>, Stop> {
        told_to(alloc, self.memory, &mut self.router, &ASKED)
    }
}

/// What stands behind the header of a datagram or a frame; all of other octets.
fn carried(octets: &[u8]) -> &[u8] {
    let header = match octets {
        [0x81, 0x04, ..] => 10,
        [0x81, ..] => 4,
        [0x55, 0xFF, ..] => 8,
        _ => 0,
    };
    octets.get(header..).unwrap_or(&[])
}

/// What a router says to an NPDU, and nothing where it refuses to learn of more networks.
fn said_to<A: Allocator + Copy>(
    alloc: Global,
    memory: A,
    router: &mut Router<A>,
    port: usize,
    to: Target,
    npdu: &[u8],
) -> Result<Items<PortParcel<A>, A>, Stop> {
    let Some(from) = STATIONS.get(port) else {
        return Err(Stop::Unread(Part::Number));
    };
    if router.moment() > NOW {
        return Err(differs(alloc, "a router at another moment"));
    }
    let parcel = Parcel {
        from: *from,
        to,
        npdu: Items::from_slice(memory, npdu)?,
        stamp: NOW,
    };
    match router.on_parcel(port, &parcel, NOW) {
        Ok(said) => Ok(said),
        Err(Fault::Memory) => Err(Stop::Memory),
        Err(Fault::TableFull) => Ok(Items::new(memory)),
        Err(_) => Err(differs(alloc, "a refusal that a router has not")),
    }
}

/// What a router says to broadcasts, to each of them something.
fn told_to<A: Allocator + Copy>(
    alloc: Global,
    memory: A,
    router: &mut Router<A>,
    questions: &[(usize, &[u8])],
) -> Result<Vec<u8>, Stop> {
    let mut told = Vec::new(alloc);
    for (port, npdu) in questions {
        let said = said_to(alloc, memory, router, *port, Target::All, npdu)?;
        if said.is_empty() {
            return Err(differs(alloc, "a router that doesn't answer"));
        }
        for sent in said.as_slice() {
            push_told(to_octets(sent.parcel.to).as_octets(), &mut told)?;
            push_told(sent.parcel.npdu.as_slice(), &mut told)?;
        }
    }
    Ok(told)
}

/// The address of a target; all stations have one that no station has.
fn to_octets(to: Target) -> Mac {
    match to {
        Target::One(mac) => mac,
        Target::All => Mac::One(0xFF),
    }
}
