//! Why nothing runs, and how that is told.

ghost use Rattle.std.specs.Prelude.{◌≡◌};

use console::say_refused;
use script::BadScript;
use std::io::Write;
use tags::Fault;

/// Why nothing runs.
#[derive(Clone, Copy, Debug, PartialEq, Eq)]
pub enum Stop {
    /// The site, or want of memory.
    Refused(Fault),
    /// The line of this number asks for no step.
    Line(usize),
}

impl From<Fault> for Stop {
    fn from(fault: Fault) -> Stop {
        Stop::Refused(fault)
    }
}

impl From<BadScript> for Stop {
    fn from(bad: BadScript) -> Stop {
        match bad {
            BadScript::Memory => Stop::Refused(Fault::Memory),
            BadScript::Line { number, .. } => Stop::Line(number),
        }
    }
}

/// Tells on `err` why nothing runs, and answers the exit status.
pub fn say_stop<E: Write>(stop: Stop, err: &mut E) -> u8
    ensures { result ≡ 1 }
{
    match stop {
        Stop::Refused(fault) => say_refused(fault, err),
        Stop::Line(number) => {
            let _ = writeln!(err, "bacsite: script line {number}");
            1
        }
    }
}
