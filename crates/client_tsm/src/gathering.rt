//! The segments of an answer, so far (5.4.4.4, SEGMENTED_CONF).

ghost use Rattle.std.specs.Prelude.{◌≡◌, IfOk};

use segments::Receiver;
use std::alloc::{AllocError, Allocator};

/// The segments of an answer, so far.
#[derive(Drop)]
pub struct Gathering<A: Allocator> {
    /// What gathers them.
    pub receiver: Receiver<A>,
    /// The moment at which one of them was heard last, in milliseconds.
    pub at: u64,
}

impl<A: Allocator + Copy> Gathering<A> {
    /// Equal segments, in the same memory.
    ///
    /// # Errors
    /// Want of memory.
    pub fn copy(&self) -> Result<Self, AllocError>
        ensures { IfOk result (λ copy. copy ≡ self.now) }
    {
        Ok(Gathering {
            receiver: self.receiver.copy()?,
            at: self.at,
        })
    }
}
