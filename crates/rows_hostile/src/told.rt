//! What is told to questions, one answer after another.

use std::alloc::AllocError;

/// Appends the octets of an answer behind their number.
///
/// # Errors
/// Want of memory.
pub(crate) fn push_told(answer: &[u8], told: &mut Vec<u8>) -> Result<(), AllocError> {
    told.extend_from_slice(&(answer.len() as u64).to_be_bytes())?;
    told.extend_from_slice(answer)
}
