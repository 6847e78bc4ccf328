//! What holds of all that is known on buses, beside what the calls promise. A function without a body is a law: its
//! contract.

ghost use Rattle.buses.specs.Laws.{PutsAreKnown};

use std::alloc::Allocator;

/// What is known on the buses once frames were put out was known before, or is one of these frames.
pub fn puts_are_known<A: Allocator>()
    ensures { PutsAreKnown A }
{}
