//! Octets in words: of many, the first and their number.

use sheets::push_octets;
use std::alloc::AllocError;

/// Appends octets in words: of more than `most` the first, `front` of them, and their number.
///
/// # Errors
/// Want of memory.
pub(crate) fn push_front(
    octets: &[u8],
    most: usize,
    front: usize,
    out: &mut String,
) -> Result<(), AllocError> {
    match octets.get(..front) {
        Some(first) if octets.len() > most => {
            push_octets(first, out)?;
            write!(out, "..{}", octets.len())
        }
        _ => push_octets(octets, out),
    }
}
