//! A wire over memory.

ghost use Rattle.std.specs.Prelude.{◌≡◌, ℕ, Option, option_map};
ghost use Rattle.wire.specs.Datagrams.{Datagram};

use crate::course::Course;
use npdu::Mac;
use std::alloc::{AllocError, Global};
use tags::Fault;
use wire::{Got, Wire};

/// A datagram on its way, and its ends.
#[derive(Drop)]
pub struct Carried {
    pub from: Mac,
    pub to: Mac,
    pub octets: Vec<u8>,
}

/// A wire over memory: what is sent waits on it until it is received.
#[derive(Drop)]
pub struct WireInMemory {
    alloc: Global,
    course: Course,
    /// The call of this number from here on fails, the next being 1; with 0 none does.
    fails_at: u64,
    waiting: Vec<Carried>,
    /// What was sent since it was asked for last.
    sent: Vec<Carried>,
    latest: Option<Carried>,
    faults: u64,
    sends: u64,
    recvs: u64,
}

/// A datagram with octets of its own.
fn copied(alloc: Global, from: Mac, to: Mac, octets: &[u8]) -> Result<Carried, AllocError> {
    let octets = Vec::from_slice(alloc, octets)?;
    Ok(Carried { from, to, octets })
}

/// Puts a datagram behind others.
fn put_last(list: &mut Vec<Carried>, datagram: Carried) -> Result<(), AllocError> {
    list.push(datagram)?;
    Ok(())
}

/// Puts a datagram before others.
fn put_first(list: &mut Vec<Carried>, datagram: Carried) -> Result<(), AllocError> {
    list.insert(0, datagram)?;
    Ok(())
}

/// Puts so many datagrams of these octets behind others.
fn put_copies(
    alloc: Global,
    list: &mut Vec<Carried>,
    count: u8,
    from: Mac,
    to: Mac,
    octets: &[u8],
) -> Result<(), AllocError> {
    for _ in 0..count {
        put_last(list, copied(alloc, from, to, octets)?)?;
    }
    Ok(())
}

/// Takes the first of these, if there is one.
fn take_first(list: &mut Vec<Carried>) -> Option<Carried> {
    if list.is_empty() {
        return None;
    }
    Some(list.remove(0))
}

impl WireInMemory {
    /// A wire on which nothing waits.
    pub fn new(alloc: Global, course: Course) -> Self {
        WireInMemory {
            alloc,
            course,
            fails_at: 0,
            waiting: Vec::new(alloc),
            sent: Vec::new(alloc),
            latest: None,
            faults: 0,
            sends: 0,
            recvs: 0,
        }
    }

    /// The call of this number from here on fails, the next being 1.
    pub fn fail_at(&mut self, number: u64) {
        self.fails_at = number;
    }

    /// This datagram comes behind those that wait.
    ///
    /// # Errors
    /// Want of memory.
    pub fn come(&mut self, from: Mac, to: Mac, octets: &[u8]) -> Result<(), AllocError> {
        put_last(&mut self.waiting, copied(self.alloc, from, to, octets)?)
    }

    /// What came last waits again, before all others, as if it had not been received.
    pub fn take_back(&mut self) {
        if let Some(carried) = self.latest.take() {
            let _ = put_first(&mut self.waiting, carried);
            if self.fails_at != 0 {
                self.fails_at = self.fails_at.saturating_add(1);
            }
        }
    }

    /// What was sent since it was asked for last.
    pub fn take_sent(&mut self) -> Vec<Carried> {
        std::mem::replace(&mut self.sent, Vec::new(self.alloc))
    }

    /// Whether this call is the one that fails.
    fn fails(&mut self) -> bool
        ensures faults { self.new.faults ≡ self.old.faults }
        ensures sends { self.new.sends ≡ self.old.sends }
        ensures recvs { self.new.recvs ≡ self.old.recvs }
        ensures latest { self.new.latest ≡ self.old.latest }
    {
        let fails = self.fails_at == 1;
        self.fails_at = self.fails_at.saturating_sub(1);
        fails
    }

    /// A datagram goes on its way.
    fn put(&mut self, from: Mac, to: Mac, octets: &[u8]) -> Result<(), AllocError>
        ensures faults { self.new.faults ≡ self.old.faults }
        ensures sends { self.new.sends ≡ self.old.sends }
        ensures recvs { self.new.recvs ≡ self.old.recvs }
        ensures latest { self.new.latest ≡ self.old.latest }
    {
        put_last(&mut self.sent, copied(self.alloc, from, to, octets)?)?;
        let way = self.course.next_way();
        if way.is_overtaking() {
            return put_first(&mut self.waiting, copied(self.alloc, from, to, octets)?);
        }
        put_copies(
            self.alloc,
            &mut self.waiting,
            way.copies(),
            from,
            to,
            octets,
        )
    }
}

impl Wire for WireInMemory {
    ghost faults = { λ s. s.faults };

    ghost sends = { λ s. s.sends };

    ghost recvs = { λ s. s.recvs };

    ghost latest = { λ s.
        option_map (λ c. record { from = c.from; to = c.to; octets = c.octets.items }) s.latest };

    fn send(&mut self, from: Mac, to: Mac, octets: &[u8]) -> Result<(), Fault> {
        self.sends = self.sends.saturating_add(1);
        if self.fails() || self.put(from, to, octets).is_err() {
            self.faults = self.faults.saturating_add(1);
            return Err(Fault::Wire);
        }
        Ok(())
    }

    fn recv(&mut self) -> Result<bool, Fault> {
        self.recvs = self.recvs.saturating_add(1);
        self.latest = None;
        if self.fails() {
            self.faults = self.faults.saturating_add(1);
            return Err(Fault::Wire);
        }
        self.latest = take_first(&mut self.waiting);
        Ok(self.latest.is_some())
    }

    fn wait(&mut self, _at_most_ms: u64) {}

    fn last(&self) -> Option<Got<'_>> {
        match &self.latest {
            Some(carried) => Some(Got {
                from: carried.from,
                to: carried.to,
                octets: carried.octets.as_slice(),
            }),
            None => None,
        }
    }

    fn faults(&self) -> u64 {
        self.faults
    }

    fn sends(&self) -> u64 {
        self.sends
    }

    fn recvs(&self) -> u64 {
        self.recvs
    }
}
