//! A broadcast manager at 127.0.0.1:47808, with two members of its subnet, another manager, and a registered foreign
//! device (J.4, J.5).

use crate::told::push_told;
use crate::watched::Hearer;
use bbmd::{Bbmd, Outgoing};
use bbmd_tables::is_among;
use bvll::{Address, Bvll};
use sheets::{Part, Stop, differs};
use std::alloc::{Allocator, Global};
use tags::{Fault, Items};

/// The manager itself is at this port of 127.0.0.1.
const OWN: u16 = 47808;

/// .. the members of its subnet.
const MEMBERS: [u16; 2] = [47810, 47811];

/// .. the other manager.
const OTHER: u16 = 47809;

/// .. the registered foreign device.
const FOREIGN: u16 = 47824;

/// .. who asks for the tables.
const STRANGER: u16 = 47830;

/// When octets are heard, in milliseconds.
const NOW: u64 = 1000;

/// The station at a port.
fn at(port: u16) -> Address {
    Address {
        ip: [127, 0, 0, 1],
        port,
    }
}

/// The manager, and the station that it hears.
#[derive(Drop)]
pub(crate) struct HeardManager<A: Allocator + Copy> {
    memory: A,
    manager: Bbmd<A>,
    from: Address,
}

impl<A: Allocator + Copy> HeardManager<A> {
    /// The manager, at which the foreign device has registered for 60 seconds, once for each kind of station that it
    /// may hear.
    ///
    /// # Errors
    /// Want of memory.
    pub(crate) fn all(alloc: Global, memory: A) -> Result<Vec<HeardManager<A>>, Stop> {
        let members = [at(MEMBERS[0]), at(MEMBERS[1])];
        let mut manager = manager_of(memory, at(OWN), &members, &[at(OWN), at(OTHER)])?;
        said_to(
            alloc,
            memory,
            &mut manager,
            at(FOREIGN),
            &[0x81, 0x05, 0, 6, 0, 60],
        )?;
        let mut all = Vec::new(alloc);
        for port in [STRANGER, FOREIGN, MEMBERS[0], OTHER] {
            all.push(HeardManager {
                memory,
                manager: manager.copy()?,
                from: at(port),
            })?;
        }
        Ok(all)
    }
}

impl<A: Allocator + Copy> Hearer for HeardManager<A> {
    fn copy(&self) -> Result<Self, Stop> {
        Ok(HeardManager {
            memory: self.memory,
            manager: self.manager.copy()?,
            from: self.from,
        })
    }

    fn drops(&mut self, alloc: Global, octets: &[u8]) -> Result<bool, Stop> {
        let said = said_to(alloc, self.memory, &mut self.manager, self.from, octets)?;
        for sent in said.as_slice() {
            if Bvll::read(sent.octets.as_slice()).is_err() {
                return Err(differs(alloc, "a manager that says what is no datagram"));
            }
        }
        Ok(said.is_empty())
    }

    /// Both tables.
    fn told(&mut self, alloc: Global) -> Result<Vec<u8>, Stop> {
        let mut told = Vec::new(alloc);
        for question in [[0x81, 0x02, 0, 4], [0x81, 0x06, 0, 4]] {
            let said = said_to(
                alloc,
                self.memory,
                &mut self.manager,
                at(STRANGER),
                &question,
            )?;
            for sent in said.as_slice() {
                push_told(sent.octets.as_slice(), &mut told)?;
            }
        }
        Ok(told)
    }
}

/// The manager at an address, which is one of all managers.
fn manager_of<A: Allocator + Copy>(
    alloc: A,
    own: Address,
    members: &[Address],
    managers: &[Address],
) -> Result<Bbmd<A>, Stop> {
    if !is_among(own, managers) {
        return Err(Stop::Unread(Part::Asked));
    }
    let manager = Bbmd::new(alloc, own, members, managers)?;
    Ok(manager)
}

/// What a manager says to octets, and nothing where it refuses them as too long.
fn said_to<A: Allocator + Copy>(
    alloc: Global,
    memory: A,
    manager: &mut Bbmd<A>,
    from: Address,
    octets: &[u8],
) -> Result<Items<Outgoing<A>, A>, Stop> {
    if manager.moment() > NOW {
        return Err(differs(alloc, "a manager at another moment"));
    }
    match manager.on_datagram(from, octets, NOW) {
        Ok(said) => Ok(said),
        Err(Fault::Memory) => Err(Stop::Memory),
        Err(Fault::TooLong) => Ok(Items::new(memory)),
        Err(_) => Err(differs(alloc, "a refusal that a manager has not")),
    }
}
