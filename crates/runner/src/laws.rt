//! What holds of any number of turns.

ghost use Rattle.runner.specs.Laws.{TurnsAreSteps, TurnsKeep, TurnsLead};

use std::alloc::Allocator;

/// Whatever the wire brings, what turns leave is what events leave, as long as no stray was heard and nothing was
/// handed out or forgotten: all that is true of whatever events lead to is then true of it. Where something was, that
/// is so of the whole: what the turns leave is kept of it, as what was there before them was.
pub fn turns_are_steps<A: Allocator>()
    ensures steps { TurnsAreSteps A }
    ensures whole { TurnsLead A }
    ensures kept { TurnsKeep A }
{}
