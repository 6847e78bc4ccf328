//! A device that remembers its answers: Integer Value 1, what executes writes to it, and the records.

use crate::entries::{entry_of, push_entry};
use crate::forms::Form;
use objects::{SiteObject, SiteObjects, Table, ValueKind};
use primitives::Request;
use profile::{KEEP_MS, LinkKind, MAX_REMEMBERED};
use remembered::Asker;
use services::{Executor, ObjectExecutor};
use sheets::{Given, Stop, differs, request_in, two_words};
use std::alloc::{AllocError, Allocator};
use tags::{Items, Value};
use words::Words;

/// How many allocations of an execution are refused at most.
const MANY: u64 = 100;

/// Memory that a row runs in: what a device has lies in `own`, and what it is asked in `other`.
#[derive(Clone, Copy)]
pub(crate) struct Run<'a, A> {
    pub(crate) given: Given<'a>,
    pub(crate) own: A,
    pub(crate) other: A,
}

/// A write that an asker asks for: the value, and the answer that is remembered of it, in words.
#[derive(Clone, Copy)]
pub(crate) struct Write<'w> {
    asker: Asker,
    value: &'w str,
    answer: &'w str,
}

impl<'w> Write<'w> {
    /// The write of an asker of which these are the words: the value, and the answer.
    pub(crate) fn of(asker: Asker, words: &'w str) -> Write<'w> {
        let (value, answer) = two_words(words);
        Write {
            asker,
            value,
            answer,
        }
    }
}

/// All that a device has, in words: before a write, and once it is executed.
#[derive(Clone, Copy)]
struct States<'w> {
    before: &'w str,
    after: &'w str,
}

/// A device, and the moment.
#[derive(Drop)]
pub(crate) struct Device<A: Allocator + Copy> {
    pub(crate) records: Form<A>,
    pub(crate) executor: ObjectExecutor<A>,
    pub(crate) now: u64,
    /// How many allocations were refused.
    pub(crate) refused: u64,
}

/// How a device takes a request.
#[derive(Clone, Copy, PartialEq, Eq)]
pub(crate) enum Taken {
    /// It is executed.
    Executed,
    /// Its answer is remembered, and it is not executed.
    Again,
    /// There is no place for its answer, and it is not executed.
    Full,
}

/// Integer Value 1, at 7.
fn level<A: Allocator + Copy>(alloc: A) -> Result<SiteObject<A>, AllocError> {
    Ok(SiteObject {
        kind: ValueKind::Integer { units: 95 },
        instance: 1,
        name: Items::from_slice(alloc, b"level")?,
        default: Value::Signed(7),
        description: Items::new(alloc),
    })
}

/// The objects of the device: Integer Value 1.
///
/// # Errors
/// Want of memory.
pub(crate) fn table<A: Allocator + Copy>(alloc: A) -> Result<Table<A>, Stop> {
    let mut objects = Items::new(alloc);
    objects.push(level(alloc)?)?;
    let site = SiteObjects {
        name: Items::from_slice(alloc, b"station")?,
        instance: 99,
        vendor: 260,
        data_link: LinkKind::BacnetIp,
        objects,
    };
    Ok(Table::new(alloc, site)?)
}

impl<A: Allocator + Copy> Device<A> {
    /// Whether there is no place for another answer.
    pub(crate) fn is_full(&self) -> bool {
        self.records.len() >= MAX_REMEMBERED && !self.records.begins_dead(self.now)
    }

    /// Whether the answer to this asker is remembered, and lives.
    fn is_remembered(&self, asker: Asker) -> bool {
        match self.records.find(asker) {
            Some(entry) => entry.at.saturating_add(KEEP_MS) >= self.now,
            None => false,
        }
    }

    /// Takes a request of this asker, as a device does: a write of a value, and what is remembered of it.
    pub(crate) fn ask(&mut self, run: &Run<'_, A>, write: Write<'_>) -> Result<Taken, Stop> {
        if self.is_remembered(write.asker) {
            return Ok(Taken::Again);
        }
        if self.is_full() {
            return Ok(Taken::Full);
        }
        self.execute(run, write)?;
        self.records.forget_dead(self.now);
        Ok(Taken::Executed)
    }

    /// Executes a write, once each of its allocations has been refused in turn on copies.
    pub(crate) fn execute(&mut self, run: &Run<'_, A>, write: Write<'_>) -> Result<(), Stop> {
        let refused = self.refuse_each(run, write)?;
        self.refused = self.refused.saturating_add(refused);
        self.try_execute(run, write, 0)?;
        Ok(())
    }

    /// Executes a write on copies with each allocation refused in turn, until none is. Answers how many were
    /// refused.
    fn refuse_each(&self, run: &Run<'_, A>, write: Write<'_>) -> Result<u64, Stop> {
        let before = self.state(run)?;
        let after = self.state_after(run, write)?;
        let states = States {
            before: before.as_str(),
            after: after.as_str(),
        };
        self.refuse_in_turn(run, write, states)
    }

    /// Refuses the allocations of a write in turn, each on a copy, until none is. Answers how many were.
    fn refuse_in_turn(
        &self,
        run: &Run<'_, A>,
        write: Write<'_>,
        states: States<'_>,
    ) -> Result<u64, Stop> {
        for refused in 0..MANY {
            if self.copy()?.refuse(run, write, states, refused + 1)? {
                return Ok(refused);
            }
        }
        Err(differs(
            run.given.alloc,
            "an execution that is refused memory again and again",
        ))
    }

    /// Executes a write with this allocation refused, and answers whether there was none to refuse. Where there
    /// was, the device is as it was, and the same call made again on it succeeds.
    fn refuse(
        &mut self,
        run: &Run<'_, A>,
        write: Write<'_>,
        states: States<'_>,
        refused: u64,
    ) -> Result<bool, Stop> {
        if self.try_execute(run, write, refused)? {
            return Ok(true);
        }
        self.compare_state(run, states.before, "a change where memory was refused")?;
        self.try_execute(run, write, 0)?;
        self.compare_state(
            run,
            states.after,
            "another change where the call is made again",
        )?;
        Ok(false)
    }

    /// Whether the device has what is wanted; a stop with these words where it hasn't.
    fn compare_state(&self, run: &Run<'_, A>, wanted: &str, why: &str) -> Result<(), Stop> {
        let state = self.state(run)?;
        if state.as_str() == wanted {
            return Ok(());
        }
        Err(differs(run.given.alloc, why))
    }

    /// What a copy has once it executed a write.
    fn state_after(&self, run: &Run<'_, A>, write: Write<'_>) -> Result<String, Stop> {
        let mut copy = self.copy()?;
        copy.try_execute(run, write, 0)?;
        copy.state(run)
    }

    /// Executes a write with this allocation refused, none for 0. Answers whether it was executed.
    fn try_execute(
        &mut self,
        run: &Run<'_, A>,
        write: Write<'_>,
        refused: u64,
    ) -> Result<bool, Stop> {
        let request = write_of(run, write.value)?;
        let entry = entry_of(run.own, write.asker, self.now, write.answer)?;
        run.given.memory.refuse_only(refused);
        let came = self.records.execute(entry, &mut self.executor, &request);
        judge(run.given, came, refused)
    }

    /// A device with equal records and objects.
    fn copy(&self) -> Result<Self, Stop> {
        Ok(Device {
            records: self.records.copy()?,
            executor: self.executor.copy()?,
            now: self.now,
            refused: 0,
        })
    }

    /// All that the device has, in words.
    fn state(&self, run: &Run<'_, A>) -> Result<String, Stop> {
        let mut out = String::new(run.given.alloc);
        self.push_state(run, &mut out)?;
        Ok(out)
    }

    /// Appends all that the device has: its records in order and as they are found, and its object.
    pub(crate) fn push_state(&self, run: &Run<'_, A>, out: &mut String) -> Result<(), Stop> {
        self.push_list(out)?;
        self.push_found(out)?;
        push_entry(self.records.at(self.records.len()), out)?;
        self.push_value(run, out)?;
        let is_dead = self.records.begins_dead(self.now);
        write!(out, " {is_dead} {}", self.records.len())?;
        Ok(())
    }

    /// Appends all records, in order of execution.
    pub(crate) fn push_list(&self, out: &mut String) -> Result<(), AllocError> {
        if self.records.len() == 0 {
            return push_entry(self.records.at(0), out);
        }
        for place in 0..self.records.len() {
            if place > 0 {
                out.push_str(", ")?;
            }
            push_entry(self.records.at(place), out)?;
        }
        Ok(())
    }

    /// Appends the newest record of the asker of each record.
    fn push_found(&self, out: &mut String) -> Result<(), AllocError> {
        for place in 0..self.records.len() {
            out.push_str(", ")?;
            if let Some(entry) = self.records.at(place) {
                push_entry(self.records.find(entry.asker), out)?;
            }
        }
        Ok(())
    }

    /// Appends the Present_Value of Integer Value 1.
    pub(crate) fn push_value(&self, run: &Run<'_, A>, out: &mut String) -> Result<(), Stop> {
        let request = request_in(run.other, "read 45:1 85")?;
        self.push_reply(&request, out)
    }

    /// Appends what the objects reply to a request.
    fn push_reply(&self, request: &Request<A>, out: &mut String) -> Result<(), Stop> {
        let reply = self.executor.reply(request)?;
        write!(out, "{}", Words(&reply))?;
        Ok(())
    }
}

/// Whether a call was executed of which this came with an allocation refused, none for 0. None is refused from
/// then on.
fn judge(given: Given<'_>, came: Result<(), AllocError>, refused: u64) -> Result<bool, Stop> {
    let is_met = refused > 0 && !given.memory.is_waiting();
    given.memory.refuse_only(0);
    match came {
        Ok(()) if !is_met => Ok(true),
        Err(AllocError) if is_met => Ok(false),
        _ => Err(differs(
            given.alloc,
            "want of memory where there was enough, or the reverse",
        )),
    }
}

/// The request that writes a value to Integer Value 1.
fn write_of<A: Allocator + Copy>(run: &Run<'_, A>, value: &str) -> Result<Request<A>, Stop> {
    let words = format!(in run.given.alloc; "write 45:1 85 signed {value}")?;
    request_in(run.other, words.as_str())
}
