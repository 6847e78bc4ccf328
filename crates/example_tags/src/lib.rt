//! An example of a caller: a value is read and written again (`tags`).
#![tactic(auto)]

ghost use Rattle.std.specs.Prelude.{◌≡◌, ◌<◌, ◌^◌, OnErr, length};

use std::alloc::Allocator;
use tags::{Fault, Reader, read_value, write_value};

/// Writes the value at the front of `octets`, fewer than 2^31, in the fewest octets behind what `out` has (20.2).
///
/// # Errors
/// Why there is no value at the front, or `Memory`; `out` is then as it was.
pub fn shorten<A: Allocator + Copy>(
    alloc: A,
    octets: &[u8],
    out: &mut Vec<u8, A>,
) -> Result<(), Fault>
    requires { length octets.now < 2 ^ 31 }
    ensures { OnErr result (out.new.items ≡ out.old.items) }
{
    let mut reader = Reader::new(octets);
    let value = read_value(alloc, &mut reader)?;
    write_value(&value, out)
}
