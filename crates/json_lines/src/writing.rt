//! Lines, one after another.

ghost use Rattle.std.specs.Prelude.{◌≡◌, ◌<◌, [], IfSome, OnOk, length};

use crate::checking::put_checked;
use crate::explaining::put_explained;
use crate::history::put_history;
use crate::stop::Stop;
use json_object::Object;
use std::alloc::{AllocError, Allocator};
use std::io;
use std::io::Write;

/// What lines tell of.
#[derive(Clone, Copy, Debug, PartialEq, Eq)]
pub enum Kind {
    /// A history, and what was put out: the lines of `sim`, of `storm` and of `run`.
    History,
    /// Faults of a site and a script: the lines of `check`.
    Check,
    /// A datagram or a capture taken apart: the lines of `explain`.
    Explain,
}

/// Writes of each line that was printed an object of JSON, on a line of its own. The last line need not have its end.
/// A line that is none of this kind becomes `{"line":..}`, and one that is no UTF-8 `{"line_octets":..}`. What it takes
/// of memory is `alloc`'s, and let go again line by line.
///
/// # Errors
/// Those of writing, and want of memory (`OutOfMemory`): the lines before are written then.
pub fn write_json<W: Write, A: Allocator + Copy>(
    alloc: A,
    kind: Kind,
    lines: &[u8],
    out: &mut W,
) -> io::Result<()>
    ensures nothing { OnOk result (lines.now ≡ [] → W.contents out.new ≡ W.contents out.old) }
{
    let mut rest = lines;
    while let Some((line, behind)) = first_line(rest) {
        write_line(alloc, kind, line, out)?;
        rest = behind;
    }
    Ok(())
}

/// The first line without its end, if there is one, and what stands behind it.
fn first_line(lines: &[u8]) -> Option<(&[u8], &[u8])>
    ensures { IfSome result (λ l. length l.1.now < length lines.now) }
{
    if lines.is_empty() {
        return None;
    }
    match lines.iter().position(|octet| *octet == b'\n') {
        Some(at) => Some((&lines[..at], &lines[at + 1..])),
        None => Some((lines, &[])),
    }
}

/// Writes the object of a line.
fn write_line<W: Write, A: Allocator + Copy>(
    alloc: A,
    kind: Kind,
    line: &[u8],
    out: &mut W,
) -> io::Result<()> {
    let text = text_of(alloc, kind, line)?;
    out.write_all(text.as_slice())?;
    out.write_all(b"\n")
}

/// The text of the object that a line becomes.
fn text_of<A: Allocator + Copy>(
    alloc: A,
    kind: Kind,
    line: &[u8],
) -> Result<Vec<u8, A>, AllocError> {
    let Ok(text) = std::str::from_utf8(line) else {
        return octets_of(alloc, line);
    };
    match known(alloc, kind, text) {
        Ok(object) => Ok(object),
        Err(Stop::Memory) => Err(AllocError),
        Err(Stop::Unknown) => unknown(alloc, text),
    }
}

/// The object of a line of this kind.
fn known<A: Allocator + Copy>(alloc: A, kind: Kind, line: &str) -> Result<Vec<u8, A>, Stop> {
    let mut object = Object::new(alloc)?;
    match kind {
        Kind::History => put_history(alloc, line, &mut object)?,
        Kind::Check => put_checked(line, &mut object)?,
        Kind::Explain => put_explained(line, &mut object)?,
    }
    Ok(object.into_text()?)
}

/// The object of any other line.
fn unknown<A: Allocator + Copy>(alloc: A, line: &str) -> Result<Vec<u8, A>, AllocError> {
    let mut object = Object::new(alloc)?;
    object.text("line", line)?;
    object.into_text()
}

/// The object of a line that is no UTF-8.
fn octets_of<A: Allocator + Copy>(alloc: A, line: &[u8]) -> Result<Vec<u8, A>, AllocError> {
    let mut object = Object::new(alloc)?;
    object.octets("line_octets", line)?;
    object.into_text()
}
