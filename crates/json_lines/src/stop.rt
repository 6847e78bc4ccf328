//! Why a line has no object of its own.

use std::alloc::AllocError;
use words::Unread;

/// Why a line has no object of its own.
#[derive(Clone, Copy, Debug, PartialEq, Eq)]
pub(crate) enum Stop {
    /// Want of memory.
    Memory,
    /// It is no line of this kind.
    Unknown,
}

impl From<AllocError> for Stop {
    fn from(_error: AllocError) -> Stop {
        Stop::Memory
    }
}

impl From<Unread> for Stop {
    fn from(unread: Unread) -> Stop {
        match unread {
            Unread::Memory => Stop::Memory,
            Unread::Number
            | Unread::Octets
            | Unread::Object
            | Unread::Reference
            | Unread::Value
            | Unread::Request
            | Unread::Reply
            | Unread::Sound
            | Unread::Name
            | Unread::Step => Stop::Unknown,
        }
    }
}
