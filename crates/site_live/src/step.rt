//! What a line of a script asks of a live run.

ghost use Rattle.std.specs.Prelude.{IfSome};
ghost use Rattle.script.specs.Steps.{IsSoundStep};
ghost use Rattle.site_live.specs.Steps.{IsLive};

use script::{Event, Expectation, Step};
use std::alloc::Allocator;

/// Returns a step as a live run takes it: nothing where it is an event that the run makes of itself, a fault of the
/// network, what a property is expected to read, or what a station is at. Time that passes at once passes there as a
/// flow does.
pub(crate) fn live_step<A: Allocator>(step: Step<A>) -> Option<Step<A>>
    requires sound { IsSoundStep step }
    ensures live { IfSome result (IsLive step) }
    ensures sound { IfSome result IsSoundStep }
{
    match step {
        Step::Happens(Event::Wake(_) | Event::Deliver(_) | Event::Hear { .. }) => None,
        Step::Disturbs(_) | Step::Shows(_) | Step::Expects(Expectation::Reads { .. }) => None,
        Step::Expects(expected) => Some(Step::Expects(expected)),
        Step::Happens(Event::Tick(n)) | Step::Flow(n) => Some(Step::Flow(n)),
        Step::Happens(event) => Some(Step::Happens(event)),
    }
}
