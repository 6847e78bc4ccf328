//! What is kept of a world that events alone led to, however much of its past is handed out and forgotten.
//!
//! To the layers above it promises the headline for a world that forgets: the entries that were handed out with those
//! behind them that are kept are the legal history of the whole (ANSI/ASHRAE 135, clause 5.4), and what an event brings
//! there was said, issued and whole. So it stays, whatever events happen, are refused, and whatever is handed out and
//! forgotten between them. It has no code. Each function is a law: its contract. In `specs/`:
//!
//! - `Kept`: of what it is kept, and what is so of it;
//! - `Deeds`: what is done with a world that forgets, one thing after another, and what comes of the whole;
//! - `Growing`: the history grows at its end, and so does what was said.
#![tactic(auto)]

ghost use Rattle.world_kept.specs.Deeds.{DeedsLead};
ghost use Rattle.world_kept.specs.Growing.{EventsGoOn, StraysGoOn};
ghost use Rattle.world_kept.specs.Kept.{EventsBring, EventsKeep, ForgettingKeeps, HandingOutKeeps};
ghost use Rattle.world_kept.specs.Kept.{KeptIsLegal, LedIsKept};

use std::alloc::Allocator;

/// A world that events alone led to is kept of itself, where nothing was handed out.
pub fn led_is_kept<A: Allocator>()
    ensures { LedIsKept A }
{}

/// The entries that were handed out, and behind them those that are kept, are legal.
pub fn kept_is_legal<A: Allocator>()
    ensures { KeptIsLegal A }
{}

/// What an event brings in whatever world with all its past what it is made in is kept of was said, issued and whole;
/// and events alone led to what it leaves there.
pub fn events_bring<A: Allocator>()
    ensures { EventsBring A }
{}

/// What an event leaves, what is left where entries are handed out, and what is left where something is forgotten, is
/// kept still of a world that events alone led to.
pub fn kept_still<A: Allocator>()
    ensures event { EventsKeep A }
    ensures handed { HandingOutKeeps A }
    ensures forgotten { ForgettingKeeps A }
{}

/// Whatever is done, one thing after another, events alone lead the whole on: those that were made in what is kept of
/// it. The entries that were handed out are the beginning of its history, and what is kept is its end.
pub fn deeds_lead<A: Allocator>()
    ensures { DeedsLead A }
{}

/// What an event leaves of the history and of what was said, and what a datagram from outside does, stands behind what
/// was there.
pub fn history_goes_on<A: Allocator>()
    ensures event { EventsGoOn A }
    ensures stray { StraysGoOn A }
{}
