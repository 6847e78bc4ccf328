//! Why a row does not hold.

use std::alloc::{AllocError, AllocFailed, Global};
use std::fmt;
use tags::Fault;
use words::Unread;

/// A part of a row that is read.
#[derive(Clone, Copy, Debug, PartialEq, Eq)]
pub enum Part {
    /// A number within its range.
    Number,
    /// Octets.
    Octets,
    /// What is asked.
    Asked,
    /// What is wanted.
    Wanted,
    /// An object, a value, a request or a reply.
    Words,
    /// What a reader of words says.
    Said(Unread),
}

impl fmt::Display for Part {
    fn fmt<W: fmt::Write>(&self, f: &mut fmt::Formatter<W>) -> fmt::Result {
        match self {
            Part::Number => f.write_str("not a number within its range"),
            Part::Octets => f.write_str("not octets"),
            Part::Asked => f.write_str("not what a row asks"),
            Part::Wanted => f.write_str("not what a row wants"),
            Part::Words => f.write_str("not words that have a spelling"),
            Part::Said(unread) => write!(f, "{unread}"),
        }
    }
}

/// Why a row does not hold.
#[derive(Debug, Drop)]
pub enum Stop {
    /// There was no memory.
    Memory,
    /// The text of the row is not this.
    Unread(Part),
    /// What came, in words, which is not what the row wants.
    Differs(String),
}

impl From<AllocError> for Stop {
    fn from(_error: AllocError) -> Stop {
        Stop::Memory
    }
}

impl<T: Drop> From<AllocFailed<T>> for Stop {
    fn from(_error: AllocFailed<T>) -> Stop {
        Stop::Memory
    }
}

impl From<Part> for Stop {
    fn from(part: Part) -> Stop {
        Stop::Unread(part)
    }
}

impl From<Unread> for Stop {
    fn from(unread: Unread) -> Stop {
        match unread {
            Unread::Memory => Stop::Memory,
            _ => Stop::Unread(Part::Said(unread)),
        }
    }
}

impl From<Fault> for Stop {
    fn from(fault: Fault) -> Stop {
        match fault {
            Fault::Memory => Stop::Memory,
            _ => Stop::Unread(Part::Words),
        }
    }
}

/// A row that does not hold, and why in words.
pub fn differs(alloc: Global, why: &str) -> Stop {
    match String::from_str(alloc, why) {
        Ok(text) => Stop::Differs(text),
        Err(_) => Stop::Memory,
    }
}

/// Whether what came is what is wanted.
///
/// # Errors
/// `Differs` with what came, where it is not.
pub fn compare(found: String, wanted: &str) -> Result<(), Stop> {
    if found.as_str() == wanted {
        return Ok(());
    }
    Err(Stop::Differs(found))
}

/// A refusal in words: `refused`, its number and its name.
///
/// # Errors
/// `Memory` where that is the refusal.
pub fn refusal(alloc: Global, fault: Fault) -> Result<String, Stop> {
    match fault {
        Fault::Memory => Err(Stop::Memory),
        _ => Ok(format!(in alloc; "refused {} {fault}", u8::from(fault))?),
    }
}

/// Why a call stopped that was refused memory: want of memory where these octets are as they were
/// before.
pub fn refused_memory(alloc: Global, before: &[u8], now: &[u8]) -> Stop {
    if before == now {
        return Stop::Memory;
    }
    differs(alloc, "a change where memory was refused")
}
