//! The server of transactions of each device, among all stations of a site (ANSI/ASHRAE 135, clause 5.4.5).
//!
//! To the layers above it promises: each step of a server, on an APDU that is heard, on a wake or a restart, is a list
//! of honest happenings of the promise. So the promise holds of servers as they are. It has no code. In `specs/`, from
//! below:
//!
//! - `Safe`: what the promise sees of a server.
//! - `Keeping`: what always holds of what a server remembers.
//! - `Refines`: what a step of a server says in the book, and tells in the history.
//! - `Laws`: what holds of each step of a server.
#![tactic(auto)]

ghost use Rattle.headline_server.specs.Laws.{
  AnnounceRefines,
  NewIsServed,
  RestartKeeps,
  RestartRefines,
  SaidIsHeard,
  SizeStays,
  StepKeeps,
  StepRefines,
  ToldMayBeExecuted,
  WakeKeeps,
  WakeRefines,
  WholeWasAsked,
};

use std::alloc::Allocator;

/// A step of a server on an APDU that is heard is a list of honest happenings: a repeat, a request that is executed,
/// rejected or aborted, a segment of one, a SegmentACK, an Abort. It keeps its answers well after it.
pub fn step_refines<A: Allocator>()
    ensures refined { StepRefines A }
    ensures kept { StepKeeps A }
{}

/// What a server executes on an APDU that is heard may be executed: it came whole, and means that request.
pub fn told_may_be_executed<A: Allocator>()
    ensures { ToldMayBeExecuted A }
{}

/// So it is with a wake of a server.
pub fn wake_refines<A: Allocator>()
    ensures refined { WakeRefines A }
    ensures kept { WakeKeeps A }
{}

/// So it is with a restart of a device.
pub fn restart_refines<A: Allocator>()
    ensures refined { RestartRefines A }
    ensures kept { RestartKeeps A }
{}

/// An I-Am of a device is a list of honest happenings.
pub fn announce_refines<A: Allocator>()
    ensures { AnnounceRefines A }
{}

/// A new server is a device at the start, and keeps its answers well.
pub fn new_is_served<A: Allocator>()
    ensures { NewIsServed A }
{}

/// No change of a server changes what its link carries.
pub fn size_stays<A: Allocator>()
    ensures { SizeStays A }
{}

/// What is read of what a server says is what it says, to any station.
pub fn said_is_heard<A: Allocator>()
    ensures { SaidIsHeard A }
{}

/// A request that comes whole by what a server hears was said whole, in one message or by its last piece.
pub fn whole_was_asked<A: Allocator>()
    ensures { WholeWasAsked A }
{}
