//! What a device remembers: `remember: ask 1:05/7 20 simple; value; @13000; ask 1:05/7 30 simple; value -> 1
//! executed; values signed 20; 1 again; values signed 20`. Each step is taken by a device that remembers in a
//! list and by one that remembers under keys, and after each all that the two have is the same.
//!
//! - `@13000`: the moment of what follows.
//! - `ask ASKERS VALUE ANSWER`: a request of each asker, which writes the value and has this answer, is taken
//!   as a device does: executed, answered again from what is remembered, or refused for want of a place.
//! - `execute ASKERS VALUE ANSWER`: the same, executed without a question.
//! - `forget`, `clear`: what is dead, or all, is forgotten; with how many are left.
//! - `replace ASKER MAC LENGTH`: its answer goes to this address, in segments of 475 octets, none for 0.
//! - `find ASKER`, `list`, `full`, `value`: what is found, all records, whether there is no place, and the value.

use crate::asked::{body, length};
use crate::askers::{read_askers, read_mac};
use crate::devices::{Device, Run, Taken, Write, table};
use crate::entries::push_entry;
use crate::forms::Form;
use npdu::Way;
use remembered::{ListRecords, SlabRecords};
use segments::{Sender, Turn};
use services::ObjectExecutor;
use sheets::{Counts, Given, Part, Stop, differs, number, push_mark, run_text, two_words};
use std::alloc::{AllocError, Allocator, Global};

/// What a device answers to the steps of a row, and all that it has after each.
#[derive(Drop)]
struct Told {
    answers: String,
    states: String,
    refused: u64,
}

/// How many requests were executed, answered again, and refused.
#[derive(Clone, Copy)]
struct Tally {
    executed: u64,
    again: u64,
    full: u64,
}

impl Tally {
    /// Counts how a request was taken.
    fn count(&mut self, taken: Taken) {
        let of_kind = match taken {
            Taken::Executed => &mut self.executed,
            Taken::Again => &mut self.again,
            Taken::Full => &mut self.full,
        };
        *of_kind = of_kind.saturating_add(1);
    }

    /// Appends the counts that are not 0.
    fn push(self, out: &mut String) -> Result<(), Stop> {
        let mark = push_count(self.executed, "executed", "", out)?;
        let mark = push_count(self.again, "again", mark, out)?;
        push_count(self.full, "full", mark, out)?;
        Ok(())
    }
}

/// Appends a count behind a mark unless it is 0, and answers the mark of what follows.
fn push_count<'m>(
    count: u64,
    word: &str,
    mark: &'m str,
    out: &mut String,
) -> Result<&'m str, AllocError> {
    if count == 0 {
        return Ok(mark);
    }
    write!(out, "{mark}{count} {word}")?;
    Ok(" ")
}

impl<A: Allocator + Copy> Device<A> {
    /// Takes steps, and tells what is answered and all that the device has after each.
    fn tell(&mut self, run: &Run<'_, A>, steps: &str) -> Result<Told, Stop> {
        let mut told = Told {
            answers: String::new(run.given.alloc),
            states: String::new(run.given.alloc),
            refused: 0,
        };
        for step in steps.split("; ") {
            self.take_or_go(run, step, &mut told.answers)?;
            self.push_state(run, &mut told.states)?;
        }
        told.refused = self.refused;
        Ok(told)
    }

    /// Takes a step, or goes to the moment that it says.
    fn take_or_go(&mut self, run: &Run<'_, A>, step: &str, out: &mut String) -> Result<(), Stop> {
        let Some(moment) = step.strip_prefix("@") else {
            push_mark("; ", out)?;
            return self.take(run, step, out);
        };
        self.now = u64::from(number(moment)?);
        Ok(())
    }

    /// Takes a step, and appends what is answered.
    fn take(&mut self, run: &Run<'_, A>, step: &str, out: &mut String) -> Result<(), Stop> {
        let (verb, rest) = two_words(step);
        match verb {
            "ask" => self.take_asked(run, rest, out),
            "execute" => self.take_executed(run, rest, out),
            "forget" => {
                self.records.forget_dead(self.now);
                self.push_remembered(out)
            }
            "clear" => {
                self.records.clear();
                self.push_remembered(out)
            }
            "replace" => self.take_replaced(run.given, rest, out),
            "find" => {
                let askers = read_askers(run.given.alloc, rest)?;
                Ok(push_entry(self.records.find(askers.with(askers.first)), out)?)
            }
            _ => self.push_told(run, step, out),
        }
    }

    /// Appends how many are remembered.
    fn push_remembered(&self, out: &mut String) -> Result<(), Stop> {
        write!(out, "{} remembered", self.records.len())?;
        Ok(())
    }

    /// Appends what is asked for.
    fn push_told(&self, run: &Run<'_, A>, asked: &str, out: &mut String) -> Result<(), Stop> {
        match asked {
            "list" => Ok(self.push_list(out)?),
            "full" => Ok(out.push_str(if self.is_full() { "full" } else { "room" })?),
            "value" => self.push_value(run, out),
            _ => Err(Stop::Unread(Part::Asked)),
        }
    }

    /// Takes requests, and appends how.
    fn take_asked(&mut self, run: &Run<'_, A>, words: &str, out: &mut String) -> Result<(), Stop> {
        let (askers, rest) = two_words(words);
        let askers = read_askers(run.given.alloc, askers)?;
        let mut tally = Tally {
            executed: 0,
            again: 0,
            full: 0,
        };
        for invoke_id in askers.first..=askers.last {
            tally.count(self.ask(run, Write::of(askers.with(invoke_id), rest))?);
        }
        tally.push(out)
    }

    /// Executes requests.
    fn take_executed(
        &mut self,
        run: &Run<'_, A>,
        words: &str,
        out: &mut String,
    ) -> Result<(), Stop> {
        let (askers, rest) = two_words(words);
        let askers = read_askers(run.given.alloc, askers)?;
        for invoke_id in askers.first..=askers.last {
            self.execute(run, Write::of(askers.with(invoke_id), rest))?;
        }
        self.push_remembered(out)
    }

    /// Has an answer said on another way, which takes no memory.
    fn take_replaced(
        &mut self,
        given: Given<'_>,
        words: &str,
        out: &mut String,
    ) -> Result<(), Stop> {
        let (asker, rest) = two_words(words);
        let (to, size) = two_words(rest);
        let askers = read_askers(given.alloc, asker)?;
        let way = Way {
            to: read_mac(given.alloc, to)?,
            destination: None,
        };
        let sending = sending(given.alloc, length(size)?, self.now)?;
        given.memory.refuse_all();
        self.records
            .replace(askers.with(askers.first), way, sending);
        given.memory.refuse_only(0);
        self.push_remembered(out)
    }
}

/// What has begun to send an answer of so many octets, nothing for 0.
fn sending(alloc: Global, size: usize, now: u64) -> Result<Option<Sender>, Stop> {
    if size == 0 {
        return Ok(None);
    }
    let mut sender = Sender::new(body(alloc, size)?.as_slice(), 475);
    match sender.on_tick(now) {
        Turn::Sends => Ok(Some(sender)),
        Turn::Waits | Turn::Ends => Err(Stop::Unread(Part::Asked)),
    }
}

/// What a device with these records answers to steps, from the moment 0 on.
fn tell<A: Allocator + Copy>(
    run: &Run<'_, A>,
    records: Form<A>,
    steps: &str,
) -> Result<Told, Stop> {
    let mut device = Device {
        records,
        executor: ObjectExecutor {
            table: table(run.own)?,
        },
        now: 0,
        refused: 0,
    };
    device.tell(run, steps)
}

/// Runs a row.
pub(crate) fn run<A: Allocator + Copy>(
    run: &Run<'_, A>,
    steps: &str,
    wanted: &str,
) -> Result<Counts, Stop> {
    let listed = tell(run, Form::List(ListRecords::new(run.own)), steps)?;
    run_keyed(run, &listed, steps, wanted)
}

/// Runs a row of which this was told in a list under keys.
fn run_keyed<A: Allocator + Copy>(
    run: &Run<'_, A>,
    listed: &Told,
    steps: &str,
    wanted: &str,
) -> Result<Counts, Stop> {
    let keyed = tell(run, Form::Keys(SlabRecords::new(run.own)), steps)?;
    if listed.answers != keyed.answers || listed.states != keyed.states {
        return Err(differs(run.given.alloc, "other answers under keys than in a list"));
    }
    let refused = listed.refused.saturating_add(keyed.refused);
    Ok(Counts {
        refused,
        ..run_text(keyed.answers, wanted)?
    })
}
