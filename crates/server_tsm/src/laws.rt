//! What holds of any server, for the proofs of the layers above. A function without a body is a law: its contract.

ghost use Rattle.server_tsm.specs.Laws.{
  AckOfDeadIsDropped,
  AnswerIsWhole,
  BusyIsFull,
  DeafDoesNothing,
  ExecutedIsFitted,
  FullIsAborted,
  JoinedIsExecuted,
  OnePlan,
  PlannedStaysKept,
  RememberedIsNotExecuted,
  RepeatIsSaidAgain,
  StaysTimely,
  WholeIsExecuted,
  WokenLive,
};

use std::alloc::Allocator;

/// What is heard is planned in one way.
pub fn one_plan<A: Allocator>()
    ensures { OnePlan A }
{}

/// A faultless request from a station alone, outside the quiet time, of which no answer is remembered and for whose
/// answer there is a place, is executed and its answer said: one in a whole APDU, and one whose last segment is taken.
pub fn whole_is_executed<A: Allocator>()
    ensures whole { WholeIsExecuted A }
    ensures joined { JoinedIsExecuted A }
{}

/// A request by a broadcast, or before the end of the quiet time, comes to nothing.
pub fn deaf_does_nothing<A: Allocator>()
    ensures { DeafDoesNothing A }
{}

/// Where an answer is remembered and lives, it is said again to a repeat, unless segments of it are being said,
/// and nothing is executed.
#[tactic(auto, using(crate::proofs::Planned::repeat_rules))]
pub fn repeat_is_said_again<A: Allocator>()
    ensures said { RepeatIsSaidAgain A }
    ensures nothing { RememberedIsNotExecuted A }
{}

/// A request is aborted for want of resources only where 64 answers live, or 16 requests are gathered; and no such
/// Abort is remembered as its answer.
pub fn busy_is_full<A: Allocator>()
    ensures busy { BusyIsFull A }
    ensures fitted { ExecutedIsFitted A }
{}

/// Where 64 answers live, a faultless request in a whole APDU, from a station alone, outside the quiet time, of which
/// no answer is remembered, is aborted for want of resources, and nothing is executed.
pub fn full_is_aborted<A: Allocator>()
    ensures { FullIsAborted A }
{}

/// Nothing is said of an answer once its record is dead.
#[tactic(auto, using(crate::proofs::Silent::silent_rules))]
pub fn dead_is_silent<A: Allocator>()
    ensures wake { WokenLive A }
    ensures ack { AckOfDeadIsDropped A }
{}

/// What is remembered stays in order of execution, and none of it is executed later than the moment.
#[tactic(auto, using(crate::proofs::Silent::stays_timely))]
pub fn stays_timely<A: Allocator>()
    ensures { StaysTimely A }
{}

/// What is planned for what is heard, or for a wake, keeps 64 answers at most, one for each asker, in order of
/// execution, and none of them executed later than the moment.
pub fn planned_stays_kept<A: Allocator>()
    ensures { PlannedStaysKept A }
{}

/// The octets of an answer, whole, are those of the APDU that answers.
#[tactic(auto, using(crate::proofs::Planned::answer_is_whole))]
pub fn answer_is_whole<A: Allocator>()
    ensures { AnswerIsWhole A }
{}
