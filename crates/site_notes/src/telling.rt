//! Both texts.

use crate::addresses::tell_addresses;
use crate::steps::Reader;
use script::{BadScript, Step, script_of};
use site_parts::Parts;
use site_text::{NoParts, parts_of};
use std::alloc::{Allocator, Global};
use std::io;
use std::io::{ErrorKind, Write};

/// Whether a site file and a script for it, if there is one, have something that shows only when they run. Each is told
/// on `out` on a line of its own, as `note: line 4: the site has no device with instance 99`. Nothing is told of a
/// text with faults. For a live run, what that doesn't take is told too. The document is read in memory of `reading`.
///
/// # Errors
/// A failed write, and want of memory (`OutOfMemory`).
pub fn tell_notes<A: Allocator + Copy, W: Write>(
    reading: Global,
    alloc: A,
    site: &[u8],
    script: Option<&[u8]>,
    is_live: bool,
    out: &mut W,
) -> io::Result<bool> {
    let parts = match parts_of(reading, alloc, site) {
        Ok(parts) => parts,
        Err(NoParts::Memory) => return Err(ErrorKind::OutOfMemory.into()),
        Err(NoParts::Document(_) | NoParts::Key(_)) => return Ok(false),
    };
    let are_addresses_told = tell_addresses(&parts, out)?;
    let Some(text) = script else {
        return Ok(are_addresses_told);
    };
    match script_of(alloc, text) {
        Ok(said) => {
            let steps = said.as_slice();
            let mut reader = Reader::new(alloc, &parts, steps, is_live);
            tell_steps(text, steps, &mut reader, out)?;
            Ok(are_addresses_told || reader.is_told)
        }
        Err(BadScript::Memory) => Err(ErrorKind::OutOfMemory.into()),
        Err(BadScript::Line { .. }) => Ok(are_addresses_told),
    }
}

/// Tells what shows of the steps of a text, with the numbers of their lines.
fn tell_steps<A: Allocator + Copy, W: Write>(
    text: &[u8],
    steps: &[Step<A>],
    reader: &mut Reader<'_, A>,
    out: &mut W,
) -> io::Result<()> {
    let mut left = steps;
    let mut number = 1usize;
    let mut is_begun = true;
    for (at, octet) in text.iter().enumerate() {
        if is_begun && !is_skipped(&text[at..]) {
            if let [step, rest @ ..] = left {
                reader.tell_step(number, step, out)?;
                left = rest;
            }
        }
        is_begun = *octet == b'\n';
        if is_begun {
            number = number.saturating_add(1);
        }
    }
    Ok(())
}

/// Whether the first line of a text, with the carriage return that it may end with, is empty or a comment.
fn is_skipped(text: &[u8]) -> bool {
    match text {
        [] | [b'\n' | b'#', ..] | [b'\r'] | [b'\r', b'\n', ..] => true,
        [_, ..] => false,
    }
}
