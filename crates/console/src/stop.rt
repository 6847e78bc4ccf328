//! Why a text ends before its datagram does.

use std::io;
use tags::Fault;

/// Why a text ends before its datagram does.
#[derive(Drop)]
pub(crate) enum Stop {
    /// The rest of the datagram is refused.
    Refused(Fault),
    /// The text could not be written.
    Unwritten(io::Error),
}

impl From<Fault> for Stop {
    fn from(fault: Fault) -> Stop {
        Stop::Refused(fault)
    }
}

impl From<io::Error> for Stop {
    fn from(error: io::Error) -> Stop {
        Stop::Unwritten(error)
    }
}
