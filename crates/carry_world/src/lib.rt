//! A world of stations and of what lies on its networks, as it is kept, and the promise over every list of its steps
//! (ANSI/ASHRAE 135, clauses 5.4, 6, 9.3, J.2).
//!
//! To the layers above it promises: whatever comes of a world in steps from a fresh one, its history is legal, whatever
//! is inside of what was sent was said, whatever a station hears was said to it, what it executes and tells is of an
//! issue, and an answer that comes whole to a client is that of one execution. A step is said by the contracts of
//! clients and devices and by what is put out and passed on, so that a world's call has only to make such steps. It has
//! no code. In `specs/`, from below:
//!
//! - `Internetwork`, `InternetworkSteps`: all stations over one book, with what was sent and said. They are a witness
//!   of the proofs.
//! - `PlainWorld`, `PlainSteps`: a world as it is kept, without a book, and what can come of its events.
//! - `Laws`, `Answers`: what the functions here state, on a world's own fields.
#![tactic(auto)]

ghost use Rattle.carry.specs.Things.{AreCarried};
ghost use Rattle.std.specs.Prelude.{map};
ghost use Rattle.carry_world.specs.Answers.{WholeIsExecuted};
ghost use Rattle.carry_world.specs.Laws.{AllHearSaid, Always, DevicesStay, ExecutedIsIssued, IsLegal};
ghost use Rattle.carry_world.specs.Laws.{OutcomesAreOfIssues};
ghost use Rattle.carry_world.specs.Laws.{StaysSo, StepLeads, StepsLeadOn, WholeIsIssued, WokenAreOfIssues};
ghost use Rattle.carry_world.specs.Laws.{instances_at};
ghost use Rattle.carry_world.specs.Laws.{judged_at};

use std::alloc::Allocator;

/// The history of a world is legal for its devices, whatever comes of its events; and each device stays where it is,
/// with its instance.
pub fn history_is_legal<A: Allocator>()
    ensures legal { Always A (λ s w. IsLegal (instances_at w.devices) w.history (map (λ d. judged_at s d) w.devices)) }
    ensures devices { DevicesStay A }
{}

/// What a device executes was issued to it, what comes to it whole is the whole body of an issue, and what a client
/// tells, on what is delivered to it or where it wakes, is of its issue.
pub fn all_is_of_an_issue<A: Allocator>()
    ensures executed { Always A (λ s w. ExecutedIsIssued w) }
    ensures whole { Always A (λ s w. WholeIsIssued w) }
    ensures told { Always A (λ s w. OutcomesAreOfIssues w) }
    ensures woken { Always A (λ s w. WokenAreOfIssues w) }
{}

/// An answer that comes whole to a client, in one APDU or by its last segment, is the whole answer of one execution of
/// its issue, be it given or dropped.
pub fn answers_are_whole<A: Allocator>()
    ensures { Always A (λ s w. WholeIsExecuted w) }
{}

/// Whatever is inside what was sent or waits was said; and whatever a station hears was said, octet for octet, by whom
/// it takes to say it, for a destination that covers it, at most a second ago.
pub fn all_is_said<A: Allocator>()
    ensures things { Always A (λ s w. AreCarried w.said w.things) }
    ensures heard { Always A (λ s w. AllHearSaid w) }
{}

/// What comes of events, one after another, is steps.
pub fn steps_lead_on<A: Allocator>()
    ensures none { StaysSo A }
    ensures one { StepLeads A }
    ensures more { StepsLeadOn A }
{}
