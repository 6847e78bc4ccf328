//! A device hears a datagram and answers (ANSI/ASHRAE 135, clauses 5.4.5, 6 and J.2).

use crate::decoding::INVOKE_ID;
use crate::opened::{OWN, device};
use bvll::Bvll;
use endpoint::Device;
use npdu::{Mac, Parcel, Target};
use profile::{LinkKind, MAX_MOMENT_MS};
use std::alloc::Allocator;
use std::mem;
use tags::{Fault, Octets};

/// From where the datagram comes.
pub(crate) const FROM: Mac = Mac::Six([127, 0, 0, 1, 0xBA, 0xC2]);

/// A device that hears one datagram again and again, each time with another invoke ID, and so many ms later. What it
/// hears and what it says lie each in one buffer that is kept.
#[derive(Drop)]
pub struct Answering<A: Allocator + Copy> {
    alloc: A,
    device: Device<A>,
    datagram: Vec<u8, A>,
    parcel: Parcel<A>,
    out: Vec<u8, A>,
    gap: u64,
    now: u64,
    turn: u8,
}

impl<A: Allocator + Copy> Answering<A> {
    /// A device with so many Binary Values that will hear this datagram each `gap` ms: of what it executes, as many
    /// answers are remembered as 13000 ms hold.
    ///
    /// # Errors
    /// `BadSite` for more than 512 objects, or `Memory`.
    pub fn new(alloc: A, objects: u16, datagram: &[u8], gap: u64) -> Result<Self, Fault> {
        Ok(Answering {
            alloc,
            device: device(alloc, objects)?,
            datagram: Vec::from_slice(alloc, datagram)?,
            parcel: Parcel {
                from: FROM,
                to: Target::One(OWN),
                npdu: Octets::new(alloc),
                stamp: 0,
            },
            out: Vec::new(alloc),
            gap,
            now: 0,
            turn: 0,
        })
    }

    /// Hears it so many times, and answers how many octets were said to it.
    ///
    /// # Errors
    /// `Memory`.
    pub fn go(&mut self, times: u64) -> Result<u64, Fault> {
        let mut octets = 0u64;
        for _ in 0..times {
            octets = octets.saturating_add(self.hear()?);
        }
        Ok(octets)
    }

    /// Hears it once.
    fn hear(&mut self) -> Result<u64, Fault> {
        self.turn = self.turn.wrapping_add(1);
        if let Some(octet) = self.datagram.as_mut_slice().get_mut(INVOKE_ID) {
            *octet = self.turn;
        }
        self.now = self.now.saturating_add(self.gap);
        if self.now > MAX_MOMENT_MS || self.now < self.device.moment() {
            return Ok(0);
        }
        let Ok(Bvll::OriginalUnicastNpdu(npdu)) = Bvll::read(self.datagram.as_slice()) else {
            return Ok(0);
        };
        let before = mem::replace(&mut self.parcel.npdu, Octets::new(self.alloc));
        self.parcel.npdu = refilled(before, npdu)?;
        self.parcel.stamp = self.now;
        let told = self.device.on_parcel(&self.parcel, self.now)?;
        say_all(told.said.as_slice(), &mut self.out)
    }
}

/// These octets in the memory of those before them.
fn refilled<A: Allocator + Copy>(before: Octets<A>, octets: &[u8]) -> Result<Octets<A>, Fault> {
    let mut kept = before.into_vec();
    kept.clear();
    kept.extend_from_slice(octets)?;
    Ok(Octets::from_vec(kept))
}

/// Writes the datagram of each parcel into one buffer in turn, and answers how many octets they have.
fn say_all<A: Allocator + Copy>(parcels: &[Parcel<A>], out: &mut Vec<u8, A>) -> Result<u64, Fault> {
    let mut octets = 0u64;
    for parcel in parcels {
        octets = octets.saturating_add(say(parcel.npdu.as_slice(), out)?);
    }
    Ok(octets)
}

/// Writes the datagram of an NPDU to one station.
fn say<A: Allocator + Copy>(npdu: &[u8], out: &mut Vec<u8, A>) -> Result<u64, Fault> {
    if npdu.len() > usize::from(LinkKind::BacnetIp.max_npdu()) {
        return Ok(0);
    }
    out.clear();
    Bvll::OriginalUnicastNpdu(npdu).write(out)?;
    Ok(out.len() as u64)
}
