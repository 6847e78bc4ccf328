//! The built-in device, of which other stations asked something before: it remembers their answers, assembles a
//! request of one and says segments to another (5.4.5).

use crate::said::check_datagram;
use crate::told::push_told;
use crate::watched::Hearer;
use console::{Builtin, respond};
use npdu::Mac;
use sheets::{Stop, differs, octets};
use std::alloc::{Allocator, Global};
use tags::{Fault, Items, Octets};

/// Who writes, and sends the first segment of a request.
const WRITER: Mac = Mac::Six([127, 0, 0, 1, 0xBA, 0xC2]);

/// Who reads what takes two segments.
const READER: Mac = Mac::Six([127, 0, 0, 1, 0xBA, 0xC3]);

/// Who asked nothing before.
const STRANGER: Mac = Mac::Six([127, 0, 0, 1, 0xBA, 0xC4]);

/// Where the octets come from.
const FROM: Mac = Mac::Six([127, 0, 0, 1, 0xBA, 0xC1]);

/// What was said to the device before: a write at priority 8 and its opposite, the first segment of another write,
/// and a ReadPropertyMultiple of one who takes 50 octets in an APDU.
const BEFORE: [(Mac, &str); 4] = [
    (WRITER, "810A001701040005020F0C0140000119553E91003F4908"),
    (WRITER, "810A0016010400050D0F0C0140000119553E003F4908"),
    (WRITER, "810A001301040C051000020F0C014000011955"),
    (
        READER,
        "810A001D01040260120E0C014000011E094D094B094F0955095709681F",
    ),
];

/// What is asked of it: the next segment, the first write again, all properties of both objects, and the last
/// segment.
const ASKED: [(Mac, &str); 4] = [
    (READER, "810A000A010040120004"),
    (WRITER, "810A001701040005020F0C0140000119553E91003F4908"),
    (
        STRANGER,
        "810A001C01040265FF0E0C020000631E09081F0C014000011E09081F",
    ),
    (WRITER, "810A0012010408051001020F3E91003F4908"),
];

/// The device.
#[derive(Drop)]
pub(crate) struct HeardDevice<A: Allocator + Copy> {
    device: Builtin<A>,
}

impl<A: Allocator + Copy> HeardDevice<A> {
    /// The device behind what was said to it.
    ///
    /// # Errors
    /// `Differs` where it says nothing to one of that, `Memory`.
    pub(crate) fn new(alloc: Global, memory: A) -> Result<HeardDevice<A>, Stop> {
        let mut device = Builtin::new(memory)?;
        told_to(alloc, &mut device, &BEFORE)?;
        Ok(HeardDevice { device })
    }
}

impl<A: Allocator + Copy> Hearer for HeardDevice<A> {
    fn copy(&self) -> Result<Self, Stop> {
        let device = self.device.copy()?;
        Ok(HeardDevice { device })
    }

    fn drops(&mut self, alloc: Global, octets: &[u8]) -> Result<bool, Stop> {
        let said = said_to(alloc, &mut self.device, FROM, octets)?;
        for datagram in said.as_slice() {
            check_datagram(alloc, datagram.as_slice())?;
        }
        Ok(said.is_empty())
    }

    fn told(&mut self, alloc: Global) -> Result<Vec<u8>, Stop> {
        told_to(alloc, &mut self.device, &ASKED)
    }
}

/// What a device says to octets.
fn said_to<A: Allocator + Copy>(
    alloc: Global,
    device: &mut Builtin<A>,
    from: Mac,
    octets: &[u8],
) -> Result<Items<Octets<A>, A>, Stop> {
    match respond(device, from, octets) {
        Ok(said) => Ok(said),
        Err(Fault::Memory) => Err(Stop::Memory),
        Err(_) => Err(differs(alloc, "another refusal than want of memory")),
    }
}

/// What a device says to datagrams in words, to each of them something.
fn told_to<A: Allocator + Copy>(
    alloc: Global,
    device: &mut Builtin<A>,
    all: &[(Mac, &str)],
) -> Result<Vec<u8>, Stop> {
    let mut told = Vec::new(alloc);
    for (from, word) in all {
        let datagram = octets(alloc, word)?;
        let said = said_to(alloc, device, *from, datagram.as_slice())?;
        if said.is_empty() {
            return Err(differs(alloc, "a device that doesn't answer"));
        }
        for datagram in said.as_slice() {
            push_told(datagram.as_slice(), &mut told)?;
        }
    }
    Ok(told)
}
