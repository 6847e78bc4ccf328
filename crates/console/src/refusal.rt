//! What ends the program before its time.

ghost use Rattle.std.specs.Prelude.{◌≡◌};

use std::io;
use std::io::Write;
use tags::Fault;

/// Prints a refusal that ends the program, and answers the exit status.
pub fn say_refused<E: Write>(fault: Fault, err: &mut E) -> u8
    ensures { result ≡ 1 }
{
    let _ = writeln!(err, "bacsite: refused {} {fault}", u8::from(fault));
    1
}

/// The exit status of a failed write or want of memory, the second of which is printed.
pub fn say_failed<E: Write>(error: &io::Error, err: &mut E) -> u8
    ensures { result ≡ 1 }
{
    if error.kind() == io::ErrorKind::OutOfMemory {
        return say_refused(Fault::Memory, err);
    }
    1
}
