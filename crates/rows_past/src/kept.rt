//! Datagrams and issues on which steps are made.

use crate::steps::Step;
use npdu::Mac;
use sheets::{Stop, refusal};
use std::alloc::{AllocError, Allocator, Global};
use tags::Octets;
use traffic::{Item, RecentItems};
use world_log::{Key, LastIssues};

/// Datagrams that were put out, and issues, in one memory.
#[derive(Drop)]
pub(crate) struct Kept<A: Allocator + Copy> {
    memory: A,
    items: RecentItems<A>,
    issues: LastIssues<A>,
    /// Whose issues there were, as often as they issued.
    keys: Vec<Key>,
}

/// A datagram that was said and put out at a moment.
fn item<A: Allocator + Copy>(memory: A, stamp: u64) -> Item<A> {
    Item {
        net: 1,
        from: Mac::Six([10, 0, 0, 1, 0xBA, 0xC0]),
        to: Mac::Six([10, 0, 0, 2, 0xBA, 0xC0]),
        octets: Octets::new(memory),
        stamp,
        put_out: stamp,
        is_delivered: false,
    }
}

/// A datagram in words: `@5`, `@5 delivered`, or `blank` where one is forgotten.
fn item_in_words<A: Allocator>(alloc: Global, item: &Item<A>) -> Result<String, AllocError> {
    if item.net == 0 {
        return format!(in alloc; "blank");
    }
    let delivered = if item.is_delivered { " delivered" } else { "" };
    format!(in alloc; "@{}{delivered}", item.stamp)
}

/// A number in words, if there is one.
fn number_in_words(alloc: Global, number: Option<usize>) -> Result<String, AllocError> {
    match number {
        Some(number) => format!(in alloc; "{number}"),
        None => format!(in alloc; "none"),
    }
}

impl<A: Allocator + Copy> Kept<A> {
    /// Nothing was put out or issued.
    pub(crate) fn new(alloc: Global, memory: A) -> Self {
        Kept {
            memory,
            items: RecentItems::new(memory),
            issues: LastIssues::new(memory),
            keys: Vec::new(alloc),
        }
    }

    /// Puts so many datagrams out at a moment; where memory is wanting the others are as they were.
    fn put(&mut self, stamp: u64, times: u64) -> Result<(), AllocError> {
        for _ in 0..times {
            self.items.push(item(self.memory, stamp))?;
        }
        Ok(())
    }

    /// Issues a request.
    fn issue(&mut self, key: Key) -> Result<(), AllocError> {
        self.keys.reserve(1)?;
        self.issues.prepare(key)?;
        self.issues.push(key);
        self.keys.push(key)?;
        Ok(())
    }

    /// The datagram of a number, in words.
    fn item(&self, alloc: Global, number: u64) -> Result<String, Stop> {
        match self.items.item_at(number) {
            Ok(item) => Ok(item_in_words(alloc, item)?),
            Err(fault) => refusal(alloc, fault),
        }
    }

    /// A datagram was delivered, if there is one.
    fn mark(&mut self, number: u64) {
        if number < self.items.len() as u64 {
            self.items.mark(number);
        }
    }

    /// Makes a step, and answers what comes of it in words, if it tells anything.
    ///
    /// # Errors
    /// `Memory` where a call says so.
    pub(crate) fn make(&mut self, alloc: Global, step: Step) -> Result<Option<String>, Stop> {
        Ok(match step {
            Step::Put { stamp, times } => {
                self.put(stamp, times)?;
                None
            }
            Step::Mark { number } => {
                self.mark(number);
                None
            }
            Step::Cut { count } => {
                self.items.truncate(count as usize);
                None
            }
            Step::ForgetItems { now, latest } => {
                self.items.forget(latest as usize, now);
                None
            }
            Step::Item { number } => Some(self.item(alloc, number)?),
            Step::Next { from, before, now } => {
                let next = self.items.next_waiting(from as usize, before as usize, now);
                Some(number_in_words(alloc, next)?)
            }
            Step::Issue { key } => {
                self.issue(key)?;
                None
            }
            Step::ForgetIssues => {
                self.issues.forget();
                None
            }
            Step::Last { key } => {
                let last = self.issues.last(key.client, key.invoke_id);
                Some(number_in_words(alloc, last)?)
            }
            Step::Count => Some(format!(in alloc;
                "{} items, {} kept, {} issues",
                self.items.len(),
                self.items.kept().len(),
                self.issues.len()
            )?),
        })
    }

    /// All that is seen, in words: each datagram, and the last issue of each station under each invoke ID.
    ///
    /// # Errors
    /// Want of memory.
    pub(crate) fn state(&self, alloc: Global) -> Result<String, Stop> {
        let mut out = String::new(alloc);
        for number in 0..self.items.len() as u64 {
            writeln!(out, "{}", self.item(alloc, number)?)?;
        }
        writeln!(out, "{}", self.issues.len())?;
        for key in &self.keys {
            let last = self.issues.last(key.client, key.invoke_id);
            writeln!(out, "{}", number_in_words(alloc, last)?)?;
        }
        Ok(out)
    }

    /// Whether equal copies, in the same memory, tell the same.
    ///
    /// # Errors
    /// Want of memory.
    pub(crate) fn is_copied(&self, alloc: Global) -> Result<bool, Stop> {
        let mut keys = Vec::new(alloc);
        for key in &self.keys {
            keys.push(*key)?;
        }
        let copy = Kept {
            memory: self.memory,
            items: self.items.copy(self.memory)?,
            issues: self.issues.copy(self.memory)?,
            keys,
        };
        Ok(copy.state(alloc)? == self.state(alloc)?)
    }
}
