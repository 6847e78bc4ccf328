//! Damaged octets.

use std::alloc::{AllocError, Allocator};
use tags::{Items, Octets};

/// Octets of which the last one has another value: in a frame a check fails (9.3), and what ends there isn't heard.
pub(crate) fn damaged<A: Allocator + Copy>(
    alloc: A,
    octets: &[u8],
) -> Result<Octets<A>, AllocError> {
    let mut changed = Vec::from_slice(alloc, octets)?;
    let last = changed.len().saturating_sub(1);
    if last < changed.len() {
        changed[last] = changed[last] ^ 0xFF;
    }
    Ok(Items::from_vec(changed))
}
