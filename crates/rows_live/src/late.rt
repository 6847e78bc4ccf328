//! Rows of live runs over memory whose rounds come late: `SITE-NAME.late` is a script. What is wanted is what is
//! printed of it, but for the moments; and the same, with its moments, however late its rounds come.

use crate::live::{OverMemory, printed_of};
use crate::timer::Pace;
use refusing::Refusing;
use rows_wire::{Course, Row, WireInMemory, row_of, said, wanted_of, without_moments};
use sheets::names;
use std::alloc::Global;
use std::io;
use words::Spelling;

/// How the name of such a script ends.
const LATE: &str = ".late";

/// In how many runs rounds come late, each in its own way.
const RUNS: u64 = 16;

/// Runs each row, and prints a line for each.
///
/// # Errors
/// Those of reading and of printing, and want of memory.
pub(crate) fn run_all(rt: &HostRuntime) -> io::Result<()> {
    for name in names(rt, LATE)?.as_slice() {
        let row = row_of(rt, name.as_str(), LATE)?;
        let wanted = wanted_of(rt, name.as_str())?;
        let line = line_of(rt.alloc(), &row, wanted.as_str())?;
        rt.print(line.as_str())?;
    }
    Ok(())
}

/// What is said of a row.
fn line_of(alloc: Global, row: &Row, wanted: &str) -> io::Result<String> {
    let in_time = run_at(alloc, row, Pace::Even { step: 1 })?;
    let found = without_moments(alloc, in_time.as_str(), "")?;
    let more = format!(in alloc;
        ", and {} of {RUNS} runs whose rounds come late print the same",
        count_same(alloc, row, in_time.as_str())?
    )?;
    Ok(said(
        alloc,
        row.name.as_str(),
        found.as_str(),
        wanted,
        more.as_str(),
    )?)
}

/// How many runs whose rounds come late print this.
fn count_same(alloc: Global, row: &Row, in_time: &str) -> io::Result<u64> {
    let mut count = 0u64;
    for seed in 0..RUNS {
        let late = run_at(alloc, row, Pace::Late { latest: seed })?;
        if late.as_str() == in_time {
            count = count.saturating_add(1);
        }
    }
    Ok(count)
}

/// What is printed of a row whose rounds come at a pace.
fn run_at(alloc: Global, row: &Row, pace: Pace) -> io::Result<String> {
    let memory = Refusing::new(alloc);
    let over = OverMemory {
        wire: WireInMemory::new(alloc, Course::InOrder),
        pace,
        is_open: false,
        spelling: Spelling::Numbers,
    };
    printed_of(
        alloc,
        &memory,
        row.site.as_slice(),
        row.happens.as_str(),
        over,
    )
}
