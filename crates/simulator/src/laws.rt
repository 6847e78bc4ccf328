//! What holds of each event, for the proofs of the layers above.

ghost use Rattle.simulator.specs.Laws.{EventSteps, HappeningSteps};
ghost use Rattle.simulator.specs.Quiet.{QuietHears};

use std::alloc::Allocator;

/// What happens in a world that stands, and what an event leaves of it, is steps of its clients and devices: the
/// promise over every list of such steps is then its own.
pub fn events_lead<A: Allocator>()
    ensures events { EventSteps A }
    ensures happenings { HappeningSteps A }
{}

/// Octets on a bus that end no frame which may be heard change what a port counted and its ear keeps, and nothing else:
/// nothing is put out, said, executed or told (9.5.2, 9.5.4).
pub fn quiet_hears<A: Allocator>()
    ensures { QuietHears A }
{}
