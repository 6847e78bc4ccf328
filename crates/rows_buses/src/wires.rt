//! Buses on which steps are made.

use crate::shown::{push_heard, push_told};
use crate::steps::{At, Moments, Step};
use bus_traffic::{
    Bus, CutFrame, Ending, Hearing, Place, Put, Sending, Telling, ear_at, next_hear,
};
use sheets::{Part, Stop, push_mark, refusal, small, two_words};
use std::alloc::{Allocator, Global};
use tags::{Fault, Octets};
use words::parse_number;

/// Buses, and how many frames were put out on them all.
#[derive(Drop)]
pub(crate) struct Wires<A: Allocator + Copy> {
    pub(crate) buses: Vec<Bus<A>>,
    pub(crate) frames: u64,
}

/// The bus `2 with 5 16`, made at the moment 0.
fn bus_of<A: Allocator + Copy>(memory: A, words: &str) -> Result<Bus<A>, Stop> {
    let (net, rest) = two_words(words);
    let Some(addresses) = rest.strip_prefix("with ") else {
        return Err(Stop::Unread(Part::Asked));
    };
    let mut bus = Bus::new(memory, parse_number(net)?);
    for address in addresses.split(' ') {
        bus.join(small(address)?, 0)?;
    }
    Ok(bus)
}

/// The buses `2 with 5 16, 3 with 1`.
///
/// # Errors
/// `Unread` where the words are none, `Memory`.
pub(crate) fn wires_of<A: Allocator + Copy>(
    alloc: Global,
    memory: A,
    words: &str,
) -> Result<Wires<A>, Stop> {
    let mut buses = Vec::new(alloc);
    for word in words.split(", ") {
        buses.push(bus_of(memory, word)?)?;
    }
    Ok(Wires { buses, frames: 0 })
}

impl<A: Allocator + Copy> Wires<A> {
    /// The place of the bus of a number.
    fn place_of(&self, net: u16) -> Option<usize> {
        self.buses.as_slice().iter().position(|bus| bus.net == net)
    }

    /// A frame is put out.
    fn put(&mut self, memory: A, at: At, octets: &[u8], when: Moments) -> Result<(), Stop> {
        let place = Place {
            items: 0,
            frames: self.frames,
        };
        let sending = Sending {
            sender: at.address,
            octets: Octets::from_slice(memory, octets)?,
            stamp: when.stamp,
            place,
        };
        let put = Put::new(memory, sending)?;
        let Some(place) = self.place_of(at.net) else {
            return Err(Stop::Unread(Part::Asked));
        };
        let Some(bus) = self.buses.get_mut(place) else {
            return Err(Stop::Unread(Part::Asked));
        };
        bus.reserve(1)?;
        bus.put_out(put, when.now);
        self.frames = self.frames.saturating_add(1);
        Ok(())
    }

    /// What an ear makes of octets. Nothing is changed.
    ///
    /// # Errors
    /// `NoSuch` where there is no such ear, `Memory`.
    pub(crate) fn hearing(
        &self,
        memory: A,
        at: At,
        octets: &[u8],
        now: u64,
    ) -> Result<Hearing<A>, Fault> {
        let found = ear_at(self.buses.as_slice(), at.net, at.address)?;
        Ok(found.bus.hearing(memory, found.ear, octets, now)?)
    }

    /// An ear has heard octets, and keeps this.
    fn keep(&mut self, at: At, octets: &[u8], cut: CutFrame<A>, now: u64) {
        let (bus, place) = match ear_at(self.buses.as_slice(), at.net, at.address) {
            Ok(found) => (found.bus_place, found.ear_place),
            Err(_) => return,
        };
        if let Some(bus) = self.buses.get_mut(bus) {
            if place < bus.ears.len() {
                bus.hear(place, octets, cut, now);
            }
        }
    }

    /// An ear hears octets, and takes them where they are not refused.
    fn hear(
        &mut self,
        alloc: Global,
        memory: A,
        at: At,
        octets: &[u8],
        now: u64,
    ) -> Result<String, Stop> {
        let hearing = match self.hearing(memory, at, octets, now) {
            Ok(hearing) => hearing,
            Err(fault) => return refusal(alloc, fault),
        };
        let Hearing { frames, ending } = hearing;
        match ending {
            Ending::Refused(fault) => refusal(alloc, fault),
            Ending::Over { rest, cut } => {
                let mut out = String::new(alloc);
                push_heard(frames.as_slice(), rest, &mut out)?;
                self.keep(at, octets, cut, now);
                Ok(out)
            }
        }
    }

    /// A station restarts.
    fn restart(&mut self, at: At, now: u64) -> Result<(), Stop> {
        let found = ear_at(self.buses.as_slice(), at.net, at.address)?;
        let (bus, place) = (found.bus_place, found.ear_place);
        if let Some(bus) = self.buses.get_mut(bus) {
            if place < bus.ears.len() {
                bus.restart(place, now);
            }
        }
        Ok(())
    }

    /// Which frames are told to which ears.
    fn told(&self, alloc: Global, from: Telling, before: u64, now: u64) -> Result<String, Stop> {
        let mut out = String::new(alloc);
        let mut turn = from;
        for _ in 0..u64::MAX {
            let Some(next) = next_hear(self.buses.as_slice(), turn, before, now) else {
                break;
            };
            push_mark(", ", &mut out)?;
            push_told(&next, &mut out)?;
            turn = Telling {
                frames: next.recent.sending.place.frames,
                ear: next.ear_place.saturating_add(1),
            };
        }
        if out.is_empty() {
            out.push('-')?;
        }
        Ok(out)
    }

    /// A bus forgets.
    fn forget(&mut self, net: u16, now: u64) -> Result<(), Stop> {
        let Some(place) = self.place_of(net) else {
            return Err(Stop::Unread(Part::Asked));
        };
        if let Some(bus) = self.buses.get_mut(place) {
            bus.forget(now);
        }
        Ok(())
    }

    /// How many frames are known of a bus, and how many of them may still be told.
    fn known(&self, alloc: Global, net: u16) -> Result<String, Stop> {
        let Some(bus) = self.buses.as_slice().iter().find(|bus| bus.net == net) else {
            return Err(Stop::Unread(Part::Asked));
        };
        Ok(format!(in alloc; "{} known, {} recent", bus.known.len(), bus.recent.len())?)
    }

    /// Makes a step, and answers what comes of it in words, if it tells anything.
    ///
    /// # Errors
    /// `Memory` where a call says so, `Unread` where there is no such bus.
    pub(crate) fn make(
        &mut self,
        alloc: Global,
        memory: A,
        step: &Step,
        when: Moments,
    ) -> Result<Option<String>, Stop> {
        let now = when.now;
        Ok(match step {
            Step::Put { at, octets } => {
                self.put(memory, *at, octets.as_slice(), when)?;
                None
            }
            Step::PutEach { at, octets, until } => {
                for moment in now..until.saturating_add(1) {
                    let when = Moments {
                        now: moment,
                        stamp: moment,
                    };
                    self.put(memory, *at, octets.as_slice(), when)?;
                }
                None
            }
            Step::Hear { at, octets } => {
                Some(self.hear(alloc, memory, *at, octets.as_slice(), now)?)
            }
            Step::Restart { at } => {
                self.restart(*at, now)?;
                None
            }
            Step::Forget { net } => {
                self.forget(*net, now)?;
                None
            }
            Step::Told { from, before } => Some(self.told(alloc, *from, *before, now)?),
            Step::Known { net } => Some(self.known(alloc, *net)?),
        })
    }
}
