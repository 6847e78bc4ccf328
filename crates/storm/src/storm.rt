//! A storm, and its next event.

ghost use Rattle.std.specs.Prelude.{IfOk};
ghost use Rattle.simulator.specs.world.Step.{IsSoundEvent, IsSoundIfAny};

use crate::asking::begun;
use crate::chances::Chances;
use crate::dice::Dice;
use crate::frames::next_frame;
use crate::items::{is_any_waiting, next_item};
use crate::ticks::next_tick;
use crate::wakes::next_wake;
use bus_traffic::Telling;
use simulator::{Event, Internetwork, World, WorldEntry};
use std::alloc::{AllocError, Allocator};

/// What comes next in a round: a tick, what was put out before it, and the wakes behind it.
#[derive(Clone, Copy, Debug, PartialEq, Eq)]
pub(crate) enum Part {
    /// The next tick.
    Ticks,
    /// The items from one number on and before another, and the frames from whose turn it is on and before another.
    Delivers {
        from: usize,
        before: usize,
        told: Telling,
        frames: u64,
    },
    /// The stations from one place on.
    Wakes {
        from: usize,
    },
}

/// What happens in a world at random, event by event, without end. Each event is made, or refused, before the next one
/// is asked for.
#[derive(Drop)]
pub struct Storm {
    pub(crate) dice: Dice,
    pub(crate) chances: Chances,
    pub(crate) part: Part,
    /// Whether so much time passed at the last tick that each station is to wake.
    pub(crate) is_late: bool,
    /// How many frames were put out before the last tick: each of them had its turn, or has it in this round.
    pub(crate) frames: u64,
    /// The moment at which the last frame was put out, in milliseconds, as far as rounds tell.
    pub(crate) spoken: u64,
}

impl Storm {
    /// The storm that a number seeds, with these chances.
    pub fn new(seed: u64, chances: Chances) -> Self {
        Storm {
            dice: Dice::new(seed),
            chances,
            part: Part::Ticks,
            is_late: false,
            frames: 0,
            spoken: 0,
        }
    }

    /// What happens next in a world: a sound event, which may be refused. It takes memory of `alloc`.
    ///
    /// # Errors
    /// Want of memory.
    pub fn next_event<A: Allocator + Copy>(
        &mut self,
        alloc: A,
        world: &World<A>,
    ) -> Result<Event<A>, AllocError>
        ensures sound { IfOk result IsSoundEvent }
    {
        let none: Vec<WorldEntry<A>, A> = Vec::new(alloc);
        self.next_event_of(alloc, world.internetwork(), none.as_slice())
    }

    /// The same in a world that hands its history out and forgets: of the entries that were handed out, these are the
    /// last `LATEST_ENTRIES`, or more of them, or all. It is the event that happens next in the whole.
    ///
    /// # Errors
    /// Want of memory.
    pub fn next_event_of<A: Allocator + Copy>(
        &mut self,
        alloc: A,
        world: &Internetwork<A>,
        told: &[WorldEntry<A>],
    ) -> Result<Event<A>, AllocError>
        ensures sound { IfOk result IsSoundEvent }
    {
        if self.dice.happens(self.chances.issue) {
            if let Some(event) = begun(self, alloc, world)? {
                return Ok(event);
            }
        }
        match self.going_on(alloc, world)? {
            Some(event) => Ok(event),
            None => Ok(self.tick(world, told)),
        }
    }

    /// The next delivery or wake of a round, or none at its end.
    fn going_on<A: Allocator + Copy>(
        &mut self,
        alloc: A,
        world: &Internetwork<A>,
    ) -> Result<Option<Event<A>>, AllocError>
        ensures sound { IfOk result IsSoundIfAny }
    {
        match self.part {
            Part::Ticks => Ok(None),
            Part::Delivers {
                from,
                before,
                told,
                frames,
            } => self.delivery(alloc, world, from, before, told, frames),
            Part::Wakes { from } => next_wake(self, alloc, world, from),
        }
    }

    /// The next delivery of a round, or the first wake behind all of them.
    fn delivery<A: Allocator + Copy>(
        &mut self,
        alloc: A,
        world: &Internetwork<A>,
        from: usize,
        before: usize,
        told: Telling,
        frames: u64,
    ) -> Result<Option<Event<A>>, AllocError>
        ensures sound { IfOk result IsSoundIfAny }
    {
        if let Some((number, from)) = next_item(self, world, from, before) {
            self.part = Part::Delivers {
                from,
                before,
                told,
                frames,
            };
            return Ok(Some(Event::Deliver(number as u64)));
        }
        let (event, told) = next_frame(self, alloc, world, told, frames)?;
        if event.is_some() {
            self.part = Part::Delivers {
                from,
                before,
                told,
                frames,
            };
            return Ok(event);
        }
        next_wake(self, alloc, world, 0)
    }

    /// The next tick, which begins a round.
    fn tick<A: Allocator + Copy>(
        &mut self,
        world: &Internetwork<A>,
        told: &[WorldEntry<A>],
    ) -> Event<A>
        ensures sound { IsSoundEvent result }
    {
        let frames = world.buses().frames;
        if frames > self.frames {
            self.spoken = world.moment();
        }
        let is_moving = frames > self.frames || is_any_waiting(self, world);
        let pass = next_tick(self, world, told, is_moving);
        self.part = Part::Delivers {
            from: 0,
            before: world.item_count(),
            told: Telling {
                frames: self.frames,
                ear: 0,
            },
            frames,
        };
        self.frames = frames;
        self.is_late = pass.is_late;
        Event::Tick(pass.ms)
    }
}
