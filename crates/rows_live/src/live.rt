//! Rows of live runs over memory: `SITE-NAME.live` is a script, before whose lines may stand those that tell of the
//! wire in rows of turns, and `names` where the standard's names are printed. The clock tells a millisecond more each
//! round; in the first one no time passes yet. What is wanted is what is printed.

use crate::timer::{Pace, SteppingTimer};
use refusing::Refusing;
use rows_wire::{Course, Row, WireInMemory, row_of, said, take_word, text_of, wanted_of};
use sheets::names;
use site_history::say_stop;
use site_live::{Ending, Nobody, Observer, Settings, open, run};
use std::alloc::{Allocator, Global};
use std::io;
use std::io::Write;
use words::Spelling;

/// How the name of a live run over memory ends.
const LIVE: &str = ".live";

/// Runs each live run over memory, and prints a line for each.
///
/// # Errors
/// Those of reading and of printing, and want of memory.
pub(crate) fn run_all(rt: &HostRuntime) -> io::Result<()> {
    for name in names(rt, LIVE)?.as_slice() {
        let row = row_of(rt, name.as_str(), LIVE)?;
        let wanted = wanted_of(rt, name.as_str())?;
        let found = found_of(rt.alloc(), &row)?;
        let line = said(
            rt.alloc(),
            name.as_str(),
            found.as_str(),
            wanted.as_str(),
            "",
        )?;
        rt.print(line.as_str())?;
    }
    Ok(())
}

/// What is printed of a row.
fn found_of(alloc: Global, row: &Row) -> io::Result<String> {
    let memory = Refusing::new(alloc);
    let (script, over) = over_memory(alloc, row)?;
    printed_of(alloc, &memory, row.site.as_slice(), script.as_str(), over)
}

/// The script of a row, and how its site is run: the clock tells a millisecond more in each round.
///
/// # Errors
/// Want of memory.
pub(crate) fn over_memory(alloc: Global, row: &Row) -> io::Result<(String, OverMemory)> {
    let mut wire = WireInMemory::new(alloc, Course::InOrder);
    let mut script = String::new(alloc);
    let mut spelling = Spelling::Numbers;
    for line in row.happens.lines() {
        if line == "names" {
            spelling = Spelling::Names;
        } else if !take_word(alloc, &mut wire, line)? {
            writeln!(script, "{line}")?;
        }
    }
    let over = OverMemory {
        wire,
        pace: Pace::Even { step: 1 },
        is_open: row.happens.starts_with("open\n"),
        spelling,
    };
    Ok((script, over))
}

/// How a site is run over memory.
#[derive(Drop)]
pub(crate) struct OverMemory {
    pub(crate) wire: WireInMemory,
    /// What the clock tells from round to round.
    pub(crate) pace: Pace,
    pub(crate) is_open: bool,
    pub(crate) spelling: Spelling,
}

/// What is printed of a live run over memory, in memory of `memory`.
///
/// # Errors
/// Those of printing, and want of memory.
pub(crate) fn printed_of<A: Allocator + Copy>(
    alloc: Global,
    memory: A,
    site: &[u8],
    script: &str,
    over: OverMemory,
) -> io::Result<String> {
    observed_of(alloc, memory, site, script, over, Nobody)
}

/// The same, where an observer sees each turn.
///
/// # Errors
/// Those of printing, and want of memory.
pub(crate) fn observed_of<A: Allocator + Copy, S: Observer<A> + Drop>(
    alloc: Global,
    memory: A,
    site: &[u8],
    script: &str,
    over: OverMemory,
    observer: S,
) -> io::Result<String> {
    let mut out = Vec::new(alloc);
    let OverMemory {
        wire,
        pace,
        is_open,
        spelling,
    } = over;
    let settings = Settings {
        is_open,
        ending: Ending::WithScript,
        spelling,
    };
    let timer = SteppingTimer { elapsed: 0, pace };
    match open(alloc, memory, site, script.as_bytes()) {
        Ok(opened) => {
            if run(memory, opened, settings, wire, timer, observer, &mut out).is_err() {
                writeln!(out, "ended for want of memory")?;
            }
        }
        Err(stop) => {
            say_stop(stop, &mut out);
        }
    }
    Ok(text_of(alloc, out.as_slice())?)
}
