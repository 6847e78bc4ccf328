//! What a call writes, behind an octet that stands.

use crate::digits::push_octets;
use crate::given::{Given, Memory};
use crate::stop::{Stop, differs};
use std::alloc::{AllocError, Allocator};
use tags::Fault;

/// The octet that stands in a buffer before a call writes.
const STANDING: u8 = 0x55;

/// A buffer in which an octet stands.
///
/// # Errors
/// Want of memory.
pub fn buffer<'a>(given: Given<'a>) -> Result<Vec<u8, Memory<'a>>, AllocError> {
    buffer_in(given.memory)
}

/// A buffer in which an octet stands, in memory of an allocator.
///
/// # Errors
/// Want of memory.
pub fn buffer_in<A: Allocator + Copy>(memory: A) -> Result<Vec<u8, A>, AllocError> {
    Vec::from_slice(memory, &[STANDING])
}

/// What a call wrote into the buffer.
///
/// # Errors
/// `Memory` where the call says so and the buffer is as it was, else `Differs`.
pub fn written_octets<'b>(
    given: Given<'_>,
    came: Result<(), Fault>,
    buffer: &'b [u8],
) -> Result<&'b [u8], Stop> {
    match (came, buffer) {
        (Ok(()), [STANDING, octets @ ..]) => Ok(octets),
        (Err(Fault::Memory), [STANDING]) => Err(Stop::Memory),
        _ => Err(differs(given.alloc, "a buffer that has changed")),
    }
}

/// Appends ` = ` and the octets that are written, where they are not those that were read.
///
/// # Errors
/// Want of memory.
pub fn push_written(read: &[u8], written: &[u8], out: &mut String) -> Result<(), AllocError> {
    if read == written {
        return Ok(());
    }
    out.push_str(" = ")?;
    push_octets(written, out)
}

/// What was read, in words, and behind it what was written of that, where it is not what was read.
///
/// # Errors
/// Those of `written_octets`, and want of memory.
pub fn with_written(
    given: Given<'_>,
    read: &[u8],
    came: Result<(), Fault>,
    buffer: &[u8],
    mut text: String,
) -> Result<String, Stop> {
    let written = written_octets(given, came, buffer)?;
    push_written(read, written, &mut text)?;
    Ok(text)
}

/// Appends a mark that parts what follows from what stands there: nothing where nothing stands.
///
/// # Errors
/// Want of memory.
pub fn push_mark(mark: &str, out: &mut String) -> Result<(), AllocError> {
    if out.is_empty() {
        return Ok(());
    }
    out.push_str(mark)
}
