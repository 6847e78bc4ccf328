//! Why reading the body of a service stops, and what comes of it (18.9).

ghost use Rattle.std.specs.Prelude.{◌≡◌, IfOk, OnErr};
ghost use Rattle.answers.specs.declared.stop.Stop.TheVariants.{Memory, Reject};

use apdu::RejectReason;
use std::alloc::AllocError;

/// Memory is wanted, or the body is rejected.
#[derive(Clone, Copy, Debug, PartialEq, Eq)]
pub enum Stop {
    /// Want of memory.
    Memory,
    /// The body has a fault.
    Reject(RejectReason),
}

impl From<AllocError> for Stop {
    ghost from_gives = { λ _ stop. stop ≡ Memory };

    fn from(_: AllocError) -> Stop {
        Stop::Memory
    }
}

impl From<RejectReason> for Stop {
    ghost from_gives = { λ reason stop. stop ≡ Reject reason };

    fn from(reason: RejectReason) -> Stop {
        Stop::Reject(reason)
    }
}

/// The reason of the Reject with which a body is answered that isn't read to its end (18.9).
///
/// # Errors
/// Want of memory, where that is why it isn't.
pub fn reject_reason(stop: Stop) -> Result<RejectReason, AllocError>
    ensures rejected { IfOk result (λ reason. stop ≡ Reject reason) }
    ensures memory { OnErr result (stop ≡ Memory) }
{
    match stop {
        Stop::Reject(reason) => Ok(reason),
        Stop::Memory => Err(AllocError),
    }
}
