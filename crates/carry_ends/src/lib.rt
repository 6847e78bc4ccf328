//! Each request comes to its end, in a world of octets (ANSI/ASHRAE 135, clause 5.4.4).
//!
//! To the layers above it promises, over every list of steps from a fresh world on: no issue of the history is
//! forgotten, and a client that wakes leaves none of its issues open that is older than the deadline, whatever was
//! lost, repeated or late. It has no code. Each function is a law: its contract. In `specs/`:
//!
//! - `Ends`: an issue that is closed or open, and what a wake ends.
#![tactic(auto)]

ghost use Rattle.carry_world.specs.Laws.{Always};
ghost use Rattle.carry_ends.specs.Ends.{IssuesAreAccountedFor, OpenAreUnclosed, WakesEnd};

use std::alloc::Allocator;

/// Each issue of the history has its one closing entry, or its transaction is open at the client that issued it, under
/// the last issue of its invoke ID, with its request and its moment; and no transaction is open whose issue has a
/// closing entry.
pub fn each_issue_is_accounted_for<A: Allocator>()
    ensures issues { Always A (λ s w. IssuesAreAccountedFor w) }
    ensures unclosed { Always A (λ s w. OpenAreUnclosed w) }
{}

/// A client that wakes ends each of its transactions that was issued DEADLINE_MS ago or more, in segments or not.
pub fn wakes_end_what_is_overdue<A: Allocator>()
    ensures { WakesEnd A }
{}
