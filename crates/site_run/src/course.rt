//! What a run has besides its world.

use site_history::FaultsInForce;
use site_verdicts::{Refusals, Verdicts};
use std::alloc::Allocator;

/// The faults of the network that are in force, what was refused, and what came of expectations.
#[derive(Drop)]
pub(crate) struct Course<A: Allocator> {
    pub(crate) faults: FaultsInForce<A>,
    pub(crate) refusals: Refusals,
    pub(crate) verdicts: Verdicts<A>,
}

impl<A: Allocator + Copy> Course<A> {
    ghost use Rattle.std.specs.Prelude.{◌≡◌, false};

    /// As a run begins.
    pub(crate) fn new(alloc: A) -> Self
        ensures { result.verdicts ≡ false }
    {
        Course {
            faults: FaultsInForce::new(alloc),
            refusals: Refusals::none(),
            verdicts: Verdicts::new(alloc),
        }
    }
}
