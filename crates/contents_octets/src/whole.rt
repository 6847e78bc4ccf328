//! What is put behind others is there whole, or not at all.

ghost use Rattle.std.specs.Prelude.{◌≡◌, OnOk, OnErr, IsOk, IsErr, take};

use std::alloc::{AllocError, Allocator};

/// What was put behind `start` stays where all of it was put, and else is taken away again.
///
/// # Errors
/// Want of memory, where not all was put.
pub fn whole_or_none<E: Drop, B: Allocator>(
    put: Result<(), E>,
    start: usize,
    out: &mut Vec<u8, B>,
) -> Result<(), AllocError>
    ensures all { OnOk result (IsOk put × (out.new.items ≡ out.old.items)) }
    ensures none { OnErr result (IsErr put × (out.new.items ≡ take start out.old.items)) }
{
    if put.is_err() {
        out.truncate(start);
        return Err(AllocError);
    }
    Ok(())
}
