//! What holds of expectations in a legal history.

ghost use Rattle.verdicts.specs.Laws.{AnsweredIsExecutedOnce, OneAnswer};

use std::alloc::Allocator;

/// Where a history is legal, a request that was answered as expected was executed once (5.4).
pub fn answered_is_executed_once<S, Q, A: Allocator>()
    ensures { AnsweredIsExecutedOnce S Q A }
{}

/// A request was answered with one reply: where two are expected and both expectations hold, they are one (5.4).
pub fn one_answer<S, Q, A: Allocator>()
    ensures { OneAnswer S Q A }
{}
