//! What a client does is honest: each of its steps is a list of happenings of the promise (ANSI/ASHRAE 135, clause
//! 5.4).
//!
//! To the layers above it gives that the core of all stations, as the promise knows it, goes on by honest happenings
//! where a client issues, hears or wakes as its contracts say. It has no code. In `specs/`, from below:
//!
//! - `Safe`: what safety sees of a client.
//! - `Told`: what its steps say and tell, in the words of the book.
//! - `Heard`: what it says of what it hears.
//! - `Kept`: what holds of each client besides, from its start on.
//! - `Laws`: what the functions here state.
#![tactic(auto)]

ghost use Rattle.headline_client.specs.Laws.{HearingIsHonest, IssueIsHonest, SaidIsHeard, StartsWell, WakingIsHonest};
ghost use Rattle.headline_client.specs.Laws.{WhoIsIsHonest};

use std::alloc::Allocator;

/// What a client does on an NPDU that brings it what was said is a list of honest happenings.
pub fn hearing_is_honest<A: Allocator>()
    ensures { HearingIsHonest A }
{}

/// What a client does when it wakes is a list of honest happenings.
pub fn waking_is_honest<A: Allocator>()
    ensures { WakingIsHonest A }
{}

/// An issue of a client that isn't refused is a list of honest happenings.
pub fn issue_is_honest<A: Allocator>()
    ensures { IssueIsHonest A }
{}

/// Any station may say a Who-Is.
pub fn who_is_is_honest<A: Allocator>()
    ensures { WhoIsIsHonest A }
{}

/// A client at its start is what safety knows of one that has done nothing.
pub fn starts_well<A: Allocator>()
    ensures { StartsWell A }
{}

/// What is read of what a client says, says just that.
pub fn said_is_heard<A: Allocator>()
    ensures { SaidIsHeard A }
{}
