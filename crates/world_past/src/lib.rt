//! A world that forgets: it keeps what may still matter, while what is promised of it speaks of the whole past.
//!
//! An item or a frame that is too old to be heard (the profile's LIFE_MS) may be forgotten, as may all issues but the
//! last of each client under each invoke ID (ANSI/ASHRAE 135, clause 5.4.1), what was said, and what was handed out of
//! the history. To the layers above it promises: whatever is kept so, each event that happens to it happens to the
//! whole, and each that is refused is refused there. What a world keeps where it forgets is so, and so is what it has
//! left where it hands its history out. It has no code. Each function is a law: its contract. In `specs/`:
//!
//! - `Laws`: what is said of the whole by what is kept;
//! - `Refusing`: why the whole refuses what is refused of what is kept;
//! - `Running`: what comes of whole lists of events, and what is legal;
//! - `Strays`: a datagram from outside;
//! - `Forgetting`: the least that is kept.
#![tactic(auto)]

ghost use Rattle.world_past.specs.Forgetting.{KeepsLeast, KnownOnceStill};
ghost use Rattle.world_past.specs.Laws.{HappensToAll, KeepsAll, KeepsOn, StandsInAll, StepsInAll};
ghost use Rattle.world_past.specs.Refusing.{HappeningIsRefusedInAll, IsRefusedInAll};
ghost use Rattle.world_past.specs.Running.{ComesInAll, ForgetsInAll, HandsOut, LegalInAll, RunsAreLegal, RunsInAll};
ghost use Rattle.world_past.specs.Strays.{StrayIsRefusedInAll, StraysInAll};

use std::alloc::Allocator;

/// A world keeps itself, where nothing was handed out.
pub fn keeps_all<A: Allocator>()
    ensures { KeepsAll A }
{}

/// What is kept of what is kept is kept of the whole: so is what a world has left where it forgets.
pub fn keeps_on<A: Allocator>()
    ensures { KeepsOn A }
{}

/// What happens at a place of what is kept happens to the whole, and of what it leaves there this is kept: each of the
/// eight.
pub fn keeps_happens<A: Allocator>()
    ensures { HappensToAll A }
{}

/// An event that happens to what is kept happens to the whole, and of what it leaves there this is kept: each of the
/// eight.
pub fn keeps_steps<A: Allocator>()
    ensures { StepsInAll A }
{}

/// Where what is kept stands as it must, the whole does.
pub fn keeps_stands<A: Allocator>()
    ensures { StandsInAll A }
{}

/// What is refused of what is kept, at a place, is refused of the whole: with the same fault, but for a delivery of an
/// item and a hearing of a frame that are forgotten.
pub fn keeps_happening_refused<A: Allocator>()
    ensures { HappeningIsRefusedInAll A }
{}

/// An event that is refused of what is kept is refused of the whole: with the same fault, but for a delivery of an item
/// and a hearing of a frame that are forgotten.
pub fn keeps_refused<A: Allocator>()
    ensures { IsRefusedInAll A }
{}

/// What comes of events in what is kept, be they accepted or refused, comes of them in the whole: of one, and of any
/// number.
pub fn keeps_runs<A: Allocator>()
    ensures one { ComesInAll A }
    ensures any { RunsInAll A }
{}

/// Where the history of the whole is legal, so are the entries that were handed out with those behind them that are
/// kept; and so they are once events have happened, where all that these leave of the whole is legal.
pub fn keeps_legal<A: Allocator>()
    ensures now { LegalInAll A }
    ensures later { RunsAreLegal A }
{}

/// A datagram from outside that is heard in what is kept is heard in the whole, and of what it leaves there this is
/// kept; one that is refused of what is kept is refused of the whole, with the same fault.
pub fn keeps_strays<A: Allocator>()
    ensures heard { StraysInAll A }
    ensures refused { StrayIsRefusedInAll A }
{}

/// All that is too old may be forgotten, with all issues but the last of each client under each invoke ID, what was
/// said, and what was handed out, where each frame is known once on its bus; and so it stays.
pub fn keeps_least<A: Allocator>()
    ensures least { KeepsLeast A }
    ensures once { KnownOnceStill A }
{}

/// Where all entries that are kept are handed out, the rest is kept, behind them.
pub fn keeps_handed<A: Allocator>()
    ensures { HandsOut A }
{}

/// Where what is kept forgets, what is left is kept of the whole, as so many entries were handed out.
pub fn keeps_forgotten<A: Allocator>()
    ensures { ForgetsInAll A }
{}
