//! A storm in a world that forgets, of which is counted what is gone: however long it is, it runs in the memory of a
//! short one.

ghost use Rattle.std.specs.Prelude.{◌≡◌, OnOk, drop};
ghost use Rattle.std.specs.Io.KnownBytes.{Appends};
ghost use Rattle.site_storm.specs.Counting.{count_text};
ghost use Rattle.site_storm.specs.Lines.{line};

use crate::counts::{CountLine, Counts, MessageCounts, OutcomeCounts, messages_in, outcomes_in};
use crate::raging::{Weather, put_down};
use crate::waits::Waits;
use site_run::{Event, WorldEntry};
use std::alloc::{AllocError, Allocator};
use std::io;
use std::io::{ErrorKind, Write};
use std::marker::Model;
use storm::{Internetwork, LATEST_ENTRIES, SaidMessage, Storm};

/// So many events happen until all is counted again, and what can no longer matter is forgotten.
const BETWEEN: u64 = 256;

/// Leaves the last of these entries, which a storm may look at.
fn keep_latest<A: Allocator>(told: &mut Vec<WorldEntry<A>, A>) {
    let older = told.len().saturating_sub(LATEST_ENTRIES);
    told.rotate_left(older);
    told.truncate(LATEST_ENTRIES);
}

/// The messages behind so many.
fn behind<A: Allocator>(said: &[SaidMessage<A>], count: usize) -> &[SaidMessage<A>]
    ensures { result.now ≡ drop count said.now }
{
    match said.get(count..) {
        Some(rest) => rest,
        None => &[],
    }
}

/// A world that forgets, and what was counted of all that is gone. It is not dropped, but closed.
pub(crate) struct Counted<A: Allocator + Copy> {
    world: Internetwork<A>,
    /// The last entries that were handed out.
    told: Vec<WorldEntry<A>, A>,
    outcomes: OutcomeCounts,
    waits: Waits<A>,
    messages: MessageCounts,
    /// So many of the messages that the world keeps are counted.
    seen: usize,
}

impl<A: Allocator + Copy> Model for Counted<A> {
    ghost use Rattle.site_storm.specs.Counted.{CountedState};

    ghost Value = { CountedState A };

    ghost view = { λ c. record {
      world = c.world;
      outcomes = c.outcomes;
      waits = c.waits;
      messages = c.messages;
      seen = c.seen;
    } };
}

impl<A: Allocator + Copy> Counted<A> {
    ghost use Rattle.std.specs.Prelude.{◌≡◌, ◌⊎◌, ◌-◌, IfOk, OnOk, drop, length};
    ghost use Rattle.site_run.specs.simulator.world.Keeping.{Forgets, handed_out};
    ghost use Rattle.site_run.specs.simulator.world.Step.{IsSoundEvent};
    ghost use Rattle.site_storm.specs.Counted as spec;
    ghost use Rattle.site_storm.specs.Counted.{CountsMessages, ForgetsIn, HasCounts, LetsGo, Makes, PrintsCounted};
    ghost use Rattle.site_storm.specs.Counted.{RagesCounted, RagesOnceCounted};
    ghost use Rattle.site_storm.specs.Counting.{messages_with, outcomes_in, outcomes_with};
    ghost use Rattle.site_storm.specs.Waits.{all_waits};
    ghost use Rattle.storm.specs.world_log.Kept.{all_said};

    /// A world of which nothing was counted.
    pub(crate) fn new(alloc: A, world: Internetwork<A>) -> Self
        ensures { result ≡ spec.begun world }
    {
        Counted {
            world,
            told: Vec::new(alloc),
            outcomes: OutcomeCounts::none(),
            waits: Waits::new(alloc),
            messages: MessageCounts::none(),
            seen: 0,
        }
    }

    /// Lets go of it. Whoever calls it, and drops none, need not prove anew how all its parts are let go.
    pub(crate) fn close(self) {
        let Counted {
            world,
            told: _told,
            outcomes: _outcomes,
            waits: _waits,
            messages: _messages,
            seen: _seen,
        } = self;
        world.close()
    }

    /// What was counted, with what the world has by itself.
    fn counts(&self) -> Counts
        ensures { HasCounts self.now result }
    {
        Counts {
            outcomes: self.outcomes,
            messages: self.messages,
            datagrams: self.world.item_count(),
            frames: self.world.buses().frames,
            moment: self.world.moment(),
            wait: self.waits.greatest(),
        }
    }

    /// How many entries of each kind the world has that it didn't hand out.
    fn outcomes_left(&self) -> OutcomeCounts
        ensures { result ≡ outcomes_in self.now.world.history }
    {
        outcomes_in(self.world.history())
    }

    /// Counts the waits for the entries that the world has.
    ///
    /// # Errors
    /// Want of memory.
    fn count_waits(&mut self) -> Result<(), AllocError>
        ensures { OnOk result
            (self.new ≡ record self.old { waits = all_waits self.old.world.history self.old.waits }) }
    {
        self.waits.count(self.world.history())
    }

    /// The entries that the world has are handed out, and the last of them kept for the storm.
    ///
    /// # Errors
    /// Want of memory.
    fn hand_out(&mut self) -> Result<(), AllocError>
        ensures { OnOk result (self.new ≡ record self.old { world = handed_out self.old.world }) }
    {
        self.world.hand_out(&mut self.told)?;
        keep_latest(&mut self.told);
        Ok(())
    }

    /// Counts more entries.
    ///
    /// # Errors
    /// Too many entries to be counted.
    fn add_outcomes(&mut self, more: OutcomeCounts) -> io::Result<()>
        ensures { OnOk result (self.new ≡ record self.old { outcomes = outcomes_with self.old.outcomes more }) }
    {
        let Some(outcomes) = self.outcomes.with(more) else {
            return Err(ErrorKind::OutOfMemory.into());
        };
        self.outcomes = outcomes;
        Ok(())
    }

    /// Counts the entries that the world has, which are handed out then.
    ///
    /// # Errors
    /// Want of memory, or too many entries to be counted.
    fn count_entries(&mut self) -> io::Result<()>
        ensures { OnOk result (self.new ≡ spec.entries_counted self.old) }
    {
        let more = self.outcomes_left();
        self.count_waits()?;
        self.hand_out()?;
        self.add_outcomes(more)
    }

    /// The messages that the world keeps and that aren't counted yet.
    #[tactic(auto, using(crate::proofs::SaidLaws::said_rules))]
    fn uncounted(&self) -> &[SaidMessage<A>]
        ensures { all_said result.now ≡ drop self.now.seen self.now.world.said }
    {
        behind(self.world.said(), self.seen)
    }

    /// How many messages the world keeps.
    #[tactic(auto, using(crate::proofs::SaidLaws::said_rules))]
    fn said_count(&self) -> usize
        ensures { result ≡ length self.now.world.said }
    {
        self.world.said().len()
    }

    /// Counts more messages, up to so many of those that the world keeps.
    ///
    /// # Errors
    /// Too many messages to be counted.
    fn add_messages(&mut self, more: MessageCounts, seen: usize) -> io::Result<()>
        ensures { OnOk result (self.new ≡
            record self.old { messages = messages_with self.old.messages more; seen = seen }) }
    {
        let Some(messages) = self.messages.with(more) else {
            return Err(ErrorKind::OutOfMemory.into());
        };
        self.messages = messages;
        self.seen = seen;
        Ok(())
    }

    /// Counts the messages that the world keeps and that aren't counted yet.
    ///
    /// # Errors
    /// Too many messages to be counted.
    fn count_messages(&mut self) -> io::Result<()>
        ensures { OnOk result (CountsMessages self.old self.new) }
    {
        let more = messages_in(self.uncounted());
        let count = self.said_count();
        self.add_messages(more, count)
    }

    /// How many messages are forgotten.
    fn first_said(&self) -> usize
        ensures { result ≡ self.now.world.first_said }
    {
        self.world.first_said()
    }

    /// The world forgets what can no longer matter.
    fn forget_in_world(&mut self)
        ensures forgets { Forgets self.old.world self.new.world }
        ensures rest { self.new ≡ record self.old { world = self.new.world } }
    {
        self.world.forget();
    }

    /// So many of the messages that were counted are forgotten.
    fn lose(&mut self, count: usize)
        ensures { self.new ≡ record self.old { seen = self.old.seen - count } }
    {
        self.seen = self.seen.saturating_sub(count);
    }

    /// Forgets what can no longer matter.
    fn forget(&mut self)
        ensures { ForgetsIn self.old self.new }
    {
        let before = self.first_said();
        self.forget_in_world();
        let after = self.first_said();
        self.lose(after.saturating_sub(before));
    }

    /// Counts all that the world keeps, and forgets what can no longer matter.
    ///
    /// # Errors
    /// Want of memory, or too much to be counted.
    fn let_go(&mut self) -> io::Result<()>
        ensures { OnOk result (LetsGo self.old self.new) }
    {
        self.count_entries()?;
        self.count_messages()?;
        self.forget();
        Ok(())
    }

    /// Does so once in so many events, of which this many are left.
    ///
    /// # Errors
    /// Want of memory, or too much to be counted.
    fn let_go_at(&mut self, left: u64) -> io::Result<()>
        ensures { OnOk result ((self.new ≡ self.old) ⊎ LetsGo self.old self.new) }
    {
        if left % BETWEEN != 0 {
            return Ok(());
        }
        self.let_go()
    }

    /// What happens next in a storm.
    ///
    /// # Errors
    /// Want of memory.
    fn next_event(&self, alloc: A, storm: &mut Storm) -> Result<Event<A>, AllocError>
        ensures sound { IfOk result IsSoundEvent }
    {
        storm.next_event_of(alloc, &self.world, self.told.as_slice())
    }

    /// An event happens, or is refused.
    fn make(&mut self, event: &Event<A>)
        requires sound { IsSoundEvent event.now }
        ensures { Makes event.now self.old self.new }
    {
        let _ = self.world.step(event);
    }

    /// Makes the next event of a storm, of which this many are left with it, and puts its line down.
    ///
    /// # Errors
    /// Those of writing, and want of memory for the event and to count.
    fn rage_once<L: Write>(
        &mut self,
        alloc: A,
        storm: &mut Storm,
        left: u64,
        lines: &mut L,
    ) -> io::Result<()>
        ensures { OnOk result
            (RagesOnceCounted self.old self.new (L.contents lines.old) (L.contents lines.new)) }
    {
        let event = self.next_event(alloc, storm)?;
        put_down(&event, lines)?;
        self.make(&event);
        self.let_go_at(left)
    }

    /// Makes so many events of a storm, and puts their lines down.
    ///
    /// # Errors
    /// Those of writing, and want of memory for the next event and to count.
    fn rage<L: Write>(&mut self, alloc: A, weather: Weather, lines: &mut L) -> io::Result<()>
        ensures { OnOk result
            (RagesCounted weather.steps self.old self.new (L.contents lines.old) (L.contents lines.new)) }
    {
        let mut storm = Storm::new(weather.seed, weather.chances);
        let mut left = weather.steps;
        while left > 0 {
            self.rage_once(alloc, &mut storm, left, lines)?;
            left -= 1;
        }
        Ok(())
    }

    /// Makes so many events of a storm, puts their lines down, and prints how many there were of what.
    ///
    /// # Errors
    /// Those of writing, and want of memory for the next event and to count.
    pub(crate) fn print_storm<L: Write, W: Write>(
        &mut self,
        alloc: A,
        weather: Weather,
        lines: &mut L,
        out: &mut W,
    ) -> io::Result<()>
        ensures { OnOk result (PrintsCounted weather.steps self.old
            (L.contents lines.old) (L.contents lines.new) (W.contents out.old) (W.contents out.new)) }
    {
        self.rage(alloc, weather, lines)?;
        self.let_go()?;
        print_line(self.counts(), out)
    }
}

/// Prints counts on a line.
fn print_line<W: Write>(counts: Counts, out: &mut W) -> io::Result<()>
    ensures { OnOk result (Appends (W.contents out.old) (W.contents out.new) (line (count_text counts))) }
{
    writeln!(out, "{}", CountLine(counts))
}
