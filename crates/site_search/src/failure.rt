//! Why nothing is told.

ghost use Rattle.std.specs.Prelude.{◌≡◌, ◌≤◌, Ok};

use crate::searching::Found;
use console::say_failed;
use site_storm::{Stop, say_stop};
use std::alloc::AllocError;
use std::io;
use std::io::Write;
use tags::Fault;

/// Why nothing is told of a search.
#[derive(Debug, Drop)]
pub enum Failure {
    /// A text is none, or want of memory.
    Stopped(Stop),
    /// The script could not be written.
    Unwritten(io::Error),
}

impl From<Stop> for Failure {
    fn from(stop: Stop) -> Failure {
        Failure::Stopped(stop)
    }
}

impl From<Fault> for Failure {
    fn from(fault: Fault) -> Failure {
        Failure::Stopped(Stop::Refused(fault))
    }
}

impl From<AllocError> for Failure {
    fn from(_error: AllocError) -> Failure {
        Failure::Stopped(Stop::Refused(Fault::Memory))
    }
}

impl From<io::Error> for Failure {
    fn from(error: io::Error) -> Failure {
        if error.kind() == io::ErrorKind::OutOfMemory {
            return Failure::from(Fault::Memory);
        }
        Failure::Unwritten(error)
    }
}

/// Tells on `err` what came of a search, unless a script was written, and answers the exit status: 0 where one was.
pub fn say_found<E: Write>(found: Result<Found, Failure>, err: &mut E) -> u8
    ensures status { result ≤ 1 }
    ensures written { result ≡ 0 → found ≡ Ok Found.Written }
{
    match found {
        Ok(Found::Written) => 0,
        Ok(Found::NoneWithin(depth)) => {
            let _ = writeln!(err, "bacsite: none within {depth}");
            1
        }
        Err(Failure::Stopped(stop)) => say_stop(stop, err),
        Err(Failure::Unwritten(error)) => say_failed(&error, err),
    }
}
