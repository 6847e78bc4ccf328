//! Writes that are said again after others: where a read shows that the older one was executed twice (5.4.5).

use crate::command::{Command, Shown, Write};
use crate::value::{value_read, value_written};
use diagnosis_parts::{Answered, At, Key, Outcome, Party, Subject, Transaction};
use findings::{Exchange, Finding, Findings, Kind, Packets};
use lru::{DefaultHasher, LruCache};
use std::alloc::{AllocError, Allocator};
use std::num::NonZeroUsize;

/// WriteProperty (15.9).
const WRITE: u8 = 15;

/// WritePropertyMultiple (15.10), of which it isn't known what it writes.
const WRITE_MULTIPLE: u8 = 16;

/// ReadProperty (15.5).
const READ: u8 = 12;

/// A property of a server.
#[derive(Clone, Copy, PartialEq, Eq, Hash)]
struct Property {
    server: Party,
    object_type: u16,
    instance: u32,
    number: u32,
}

/// The last writes of each property.
#[derive(Drop)]
pub struct Commands<A: Allocator> {
    last: LruCache<Property, Command, DefaultHasher, A>,
    /// The number of the last packet with a write of several properties.
    disturbed: u64,
}

impl<A: Allocator + Copy> Commands<A> {
    /// None yet, of so many properties at most.
    ///
    /// # Errors
    /// Want of memory.
    pub fn new(alloc: A, most: NonZeroUsize) -> Result<Commands<A>, AllocError> {
        Ok(Commands {
            last: LruCache::sparse(alloc, most)?,
            disturbed: 0,
        })
    }

    /// A request came as one of so many.
    ///
    /// # Errors
    /// Want of memory.
    pub fn asked(
        &mut self,
        key: Key,
        known: &Transaction,
        data: &[u8],
        requests: u64,
    ) -> Result<(), AllocError> {
        if known.service == WRITE_MULTIPLE {
            self.disturbed = known.first;
        }
        if known.service != WRITE {
            return Ok(());
        }
        let Some(property) = property_of(key.server, known.subject) else {
            return Ok(());
        };
        let command = self
            .last
            .peek(&property)
            .copied()
            .unwrap_or(Command::none());
        let write = write_of(key, known, data, requests);
        let next = command.asked(known, write, self.disturbed);
        self.last.put(property, next)?;
        Ok(())
    }

    /// A request came again that wasn't answered.
    ///
    /// # Errors
    /// Want of memory.
    pub fn asked_again(&mut self, key: Key, known: &Transaction) -> Result<(), AllocError> {
        if known.service == WRITE_MULTIPLE {
            self.disturbed = known.said;
        }
        if known.service != WRITE {
            return Ok(());
        }
        let Some(property) = property_of(key.server, known.subject) else {
            return Ok(());
        };
        let Some(command) = self.last.peek(&property).copied() else {
            return Ok(());
        };
        let next = command.asked_again(known.first, known.last);
        self.last.put(property, next)?;
        Ok(())
    }

    /// A request is answered.
    ///
    /// # Errors
    /// Want of memory.
    pub fn answered(
        &mut self,
        key: Key,
        known: &Transaction,
        answered: Answered<'_>,
        at: At,
        findings: &mut Findings<A>,
    ) -> Result<(), AllocError> {
        if self.last.is_empty() || known.answer.is_some() {
            return Ok(());
        }
        if known.service == WRITE_MULTIPLE {
            self.disturbed = at.packet;
        }
        let Some(property) = property_of(key.server, known.subject) else {
            return Ok(());
        };
        let Some(command) = self.last.peek(&property).copied() else {
            return Ok(());
        };
        let is_done = matches!(answered.outcome, Some(Outcome::Acknowledged));
        if known.service == WRITE {
            let next = command.answered(known.first, is_done, at.packet);
            self.last.put(property, next)?;
        }
        // A read that is said again may be answered from memory.
        let is_new = known.before.is_none() && answered.segment.is_none();
        if known.service != READ || !is_done || !is_new {
            return Ok(());
        }
        let Some(value) = value_read(answered.data) else {
            return Ok(());
        };
        match command.judged(known.first, value, self.disturbed) {
            Shown::Nothing => return Ok(()),
            Shown::Otherwise => {}
            Shown::Twice(write, packets) => {
                findings.tell(executed_twice(write, known, packets, at))?;
            }
        }
        self.last.put(property, command.forgotten())?;
        Ok(())
    }
}

/// That a write was executed twice, as a read shows that is answered now.
fn executed_twice(write: Key, read: &Transaction, packets: Packets, at: At) -> Finding {
    let exchange = Exchange {
        key: write,
        service: WRITE,
        subject: read.subject,
    };
    Finding {
        kind: Kind::ExecutedTwice(exchange),
        packets: Packets {
            fourth: at.packet,
            ..packets
        },
    }
}

/// The property that a request is about.
fn property_of(server: Party, subject: Subject) -> Option<Property> {
    let object = subject.object?;
    Some(Property {
        server,
        object_type: object.object_type,
        instance: object.instance,
        number: subject.property?,
    })
}

/// The write of a simple value that a request asks for.
fn write_of(key: Key, known: &Transaction, data: &[u8], requests: u64) -> Option<Write> {
    let (value, priority) = value_written(data)?;
    Some(Write {
        key,
        contents: known.contents,
        value,
        priority,
        packet: known.first,
        began: known.began,
        requests,
    })
}
