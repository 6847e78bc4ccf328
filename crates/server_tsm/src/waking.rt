//! What a server does when it wakes (5.4.5).

ghost use Rattle.std.specs.Prelude.{◌≡◌, ◌++◌, ◌+◌, ◌&&◌, OnOk, drop, true};
ghost use Rattle.std.specs.List.{flat_map};
ghost use Rattle.due_times.specs.Until.{Until};
ghost use Rattle.segments.specs.Sender.{waits};
ghost use Rattle.server_tsm.specs.Waking.{again, is_quiet, said_on_wake, saying_on_wake, turn_of};

use crate::server::ServerTsm;
use profile::lives;
use segments::{Sender, Turn};
use server_answers::{
    Executor, QuietChange, Record, Records, Saying, ServerPlan, ServerSaid, ServerTold,
    SlabRecords, push_answer,
};
use std::alloc::{AllocError, Allocator};
use tags::Items;

/// Returns what is done with a remembered answer.
fn turn_of<A: Allocator>(entry: &Record<A>, now: u64) -> Turn
    ensures { result ≡ turn_of now entry.now }
{
    if !lives(entry.at, now) {
        return Turn::Waits;
    }
    match entry.sending {
        None => Turn::Waits,
        Some(mut sender) => sender.on_tick(now),
    }
}

/// Returns what goes on sending an answer, once its window is said again.
fn again(sending: &Option<Sender>, now: u64) -> Option<Sender>
    ensures { result ≡ again now sending.now }
{
    match sending {
        None => None,
        Some(sender) => {
            let mut sender = *sender;
            sender.on_tick(now);
            Some(sender)
        }
    }
}

/// Appends what is said of a remembered answer, and what goes on sending it, where that changes.
fn wake_one<A: Allocator + Copy>(
    alloc: A,
    now: u64,
    entry: &Record<A>,
    said: &mut Items<ServerSaid<A>, A>,
    sayings: &mut Items<Saying, A>,
) -> Result<(), AllocError>
    ensures said { OnOk result (said.new ≡ said.old ++ said_on_wake now entry.now) }
    ensures sayings { OnOk result (sayings.new ≡ sayings.old ++ saying_on_wake now entry.now) }
{
    let sending = match turn_of(entry, now) {
        Turn::Waits => return Ok(()),
        Turn::Sends => {
            let sending = again(&entry.sending, now);
            push_answer(alloc, &sending, entry.way, entry, said)?;
            sending
        }
        Turn::Ends => None,
    };
    sayings.push(Saying {
        asker: entry.asker,
        way: entry.way,
        sending,
    })
}

/// Appends what is said of the record at this place, and what goes on sending it, where that changes.
#[tactic(auto, using(crate::proofs::Places::map_rules))]
fn wake_at<A: Allocator + Copy>(
    alloc: A,
    now: u64,
    records: &SlabRecords<A>,
    place: usize,
    said: &mut Items<ServerSaid<A>, A>,
    sayings: &mut Items<Saying, A>,
) -> Result<(), AllocError>
    ensures said { OnOk result (said.new ++ flat_map (said_on_wake now) (drop (place + 1) records.now) ≡
        said.old ++ flat_map (said_on_wake now) (drop place records.now)) }
    ensures sayings { OnOk result (sayings.new ++ flat_map (saying_on_wake now) (drop (place + 1) records.now) ≡
        sayings.old ++ flat_map (saying_on_wake now) (drop place records.now)) }
{
    match records.at(place) {
        None => Ok(()),
        Some(entry) => wake_one(alloc, now, entry, said, sayings),
    }
}

/// Whether nothing is due of the record at this place.
fn waits_at<A: Allocator + Copy>(records: &SlabRecords<A>, place: usize, now: u64) -> bool
    ensures { (result && is_quiet now (drop (place + 1) records.now)) ≡ is_quiet now (drop place records.now) }
{
    match records.at(place) {
        None => true,
        Some(entry) => turn_of(entry, now).waits(),
    }
}

/// Returns a moment, in milliseconds, before which nothing is due of a remembered answer.
#[tactic(auto, using(crate::proofs::Dues::sending_rules))]
fn due_of<A: Allocator>(entry: &Record<A>) -> u64
    ensures { Until result (λ now. waits (turn_of now entry.now) ≡ true) }
{
    match &entry.sending {
        None => u64::MAX,
        Some(sender) => sender.next_due(),
    }
}

/// Returns a moment, in milliseconds, before which nothing is due of the record at this place.
fn due_at<A: Allocator + Copy>(records: &SlabRecords<A>, place: usize) -> u64
    ensures { Until result
        (λ now. is_quiet now (drop (place + 1) records.now) ≡ is_quiet now (drop place records.now)) }
{
    match records.at(place) {
        None => u64::MAX,
        Some(entry) => due_of(entry),
    }
}

impl<E: Executor<A> + Drop, A: Allocator + Copy> ServerTsm<E, A> {
    ghost use Rattle.std.specs.Prelude.{◌≡◌, ◌≤◌, ◌^◌, [], true, IfOk, OnOk, OnErr};
    ghost use Rattle.server_tsm.specs.Server.{committed};
    ghost use Rattle.server_tsm.specs.Steps.{IsPlanned, told_of_plan};
    ghost use Rattle.server_tsm.specs.Waking.{is_quiet, woken};
    ghost use Rattle.profile.specs.Times.{MAX_MOMENT_MS};
    ghost use Rattle.due_times.specs.Until.{Until};

    /// Returns what is said and left where the server wakes at the moment `now`, in milliseconds: windows of answers,
    /// in order of execution.
    ///
    /// # Errors
    /// Want of memory.
    pub fn plan_tick(&self, now: u64) -> Result<ServerPlan<A>, AllocError>
        ensures woken { IfOk result (λ plan. plan ≡ woken now self.now.records) }
        ensures planned { IfOk result (IsPlanned now self.now) }
    {
        let mut said = Items::new(self.alloc);
        let mut sayings = Items::new(self.alloc);
        for place in 0..self.records.len() {
            wake_at(
                self.alloc,
                now,
                &self.records,
                place,
                &mut said,
                &mut sayings,
            )?;
        }
        ServerPlan::changing(self.alloc, said, QuietChange::Wakes(sayings))
    }

    /// Wakes at the moment `now`, in milliseconds, and answers what is said.
    ///
    /// # Errors
    /// Want of memory. The server is then as it was.
    pub fn on_tick(&mut self, now: u64) -> Result<ServerTold<A>, AllocError>
        requires greatest { now ≤ MAX_MOMENT_MS }
        requires order { self.old.moment ≤ now }
        ensures told { IfOk result (λ told. told ≡ told_of_plan (woken now self.old.records)) }
        ensures left { OnOk result (self.new ≡ committed now (woken now self.old.records).change self.old) }
        ensures unchanged { OnErr result (self.new ≡ self.old) }
    {
        let plan = self.plan_tick(now)?;
        self.take(plan, now)
    }

    /// Whether nothing is due where the server wakes at the moment `now`, in milliseconds: no window is said again, and
    /// no answer's sending ends.
    pub fn is_quiet(&self, now: u64) -> bool
        ensures { result ≡ is_quiet now self.now.records }
    {
        for place in 0..self.records.len() {
            if !waits_at(&self.records, place, now) {
                return false;
            }
        }
        true
    }

    /// Returns a moment, in milliseconds, before which nothing is due where the server wakes.
    #[tactic(auto, using(crate::proofs::Dues::until_rules))]
    pub fn next_due(&self) -> u64
        ensures { Until result (λ now. is_quiet now self.now.records ≡ true) }
    {
        let mut due = u64::MAX;
        for place in 0..self.records.len() {
            due = due.min(due_at(&self.records, place));
        }
        due
    }

    /// Wakes at the moment `now`, in milliseconds, where nothing is due: nothing is said, and what is too old is
    /// forgotten. It takes no memory.
    #[tactic(auto, using(crate::proofs::Quiet::quiet_rules))]
    pub fn wake_quietly(&mut self, now: u64)
        requires order { self.old.moment ≤ now }
        requires quiet { is_quiet now self.old.records ≡ true }
        ensures said { (woken now self.old.records).said ≡ [] }
        ensures left { self.new ≡ committed now (woken now self.old.records).change self.old }
    {
        self.wake(&[], now);
    }
}
