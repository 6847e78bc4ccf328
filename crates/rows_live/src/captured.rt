//! Captures of live runs over memory: `SITE-NAME.capture` is a script as that of a live run over memory, and what is
//! wanted is what `explain` prints of the capture of that run. Each runs again with each allocation refused in turn
//! (behind the eighth not each), where the file is a capture that can be read to its end, or still empty.

use crate::live::{observed_of, over_memory};
use capture_lines::explain_capture;
use refusing::Refusing;
use rows_wire::{Row, row_of, said, text_of, wanted_of};
use sheets::names;
use site_capture::LiveCapture;
use std::alloc::{Allocator, Global};
use std::io;
use words::Spelling;

/// How the name of a live run over memory ends of which there is a capture.
const CAPTURE: &str = ".capture";

/// How many runs have an allocation refused at most.
const MANY: u64 = 1000;

/// What is printed of a packet that is passed over, behind its number.
const PASSED_OVER: &str = " passed over: ";

/// Captures each live run, and prints a line for each.
///
/// # Errors
/// Those of reading and of printing, and want of memory.
pub(crate) fn run_all(rt: &HostRuntime) -> io::Result<()> {
    for name in names(rt, CAPTURE)?.as_slice() {
        let row = row_of(rt, name.as_str(), CAPTURE)?;
        let wanted = wanted_of(rt, name.as_str())?;
        let line = line_of(rt.alloc(), &row, wanted.as_str())?;
        rt.print(line.as_str())?;
    }
    Ok(())
}

/// What is said of a row.
fn line_of(alloc: Global, row: &Row, wanted: &str) -> io::Result<String> {
    let memory = Refusing::new(alloc);
    let file = captured(alloc, &memory, row)?;
    let found = explained(alloc, file.as_slice())?;
    let more = format!(in alloc;
        ", and {} of its captures can be read where memory is refused",
        refused(alloc, row)?
    )?;
    Ok(said(
        alloc,
        row.name.as_str(),
        found.as_str(),
        wanted,
        more.as_str(),
    )?)
}

/// The capture of a run in memory of `memory`.
fn captured<A: Allocator + Copy>(alloc: Global, memory: A, row: &Row) -> io::Result<Vec<u8>> {
    let mut file = Vec::new(alloc);
    let (script, over) = over_memory(alloc, row)?;
    let capture = LiveCapture::new(memory, &mut file);
    observed_of(
        alloc,
        memory,
        row.site.as_slice(),
        script.as_str(),
        over,
        capture,
    )?;
    Ok(file)
}

/// What is printed of a capture.
fn explained(alloc: Global, file: &[u8]) -> io::Result<String> {
    let memory = Refusing::new(alloc);
    let mut out = Vec::new(alloc);
    let mut err = Vec::new(alloc);
    explain_capture(&memory, Spelling::Numbers, file, &mut out, &mut err);
    out.extend_from_slice(err.as_slice())?;
    Ok(text_of(alloc, out.as_slice())?)
}

/// How many captures can be read of runs in which an allocation is refused, up to the first that is another one.
fn refused(alloc: Global, row: &Row) -> io::Result<u64> {
    let mut n = 1u64;
    for count in 0..MANY {
        let memory = Refusing::new(alloc);
        memory.refuse_only(n);
        let file = captured(alloc, &memory, row)?;
        if memory.is_waiting() || !can_be_read(alloc, file.as_slice())? {
            return Ok(count);
        }
        n = n.saturating_add(1 + n / 8);
    }
    Ok(MANY)
}

/// Whether a file is empty, or a capture of which no packet is passed over.
fn can_be_read(alloc: Global, file: &[u8]) -> io::Result<bool> {
    if file.is_empty() {
        return Ok(true);
    }
    let text = explained(alloc, file)?;
    Ok(text.starts_with("packet ") && !text.contains(PASSED_OVER))
}
