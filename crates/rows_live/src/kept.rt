//! Rows of long live runs over memory: `SITE-NAME.kept` is a script, and behind an empty line what is asked then, a
//! thousand times over. What is wanted is how many requests were issued, executed and answered, and that of what is
//! past no more is kept than a second needs, and what clients do that wait for an answer: no contract says so. Who sent
//! the datagrams that are kept, the runner keeps of just these.

use crate::live::{OverMemory, observed_of};
use crate::timer::Pace;
use refusing::Refusing;
use rows_wire::{Course, Row, WireInMemory, row_of, said, wanted_of, without_moments};
use sheets::names;
use site_live::{Got, Internetwork, Observer};
use std::alloc::{Allocator, Global};
use std::io;
use std::io::Write;
use words::Spelling;

/// How the name of such a row ends.
const KEPT: &str = ".kept";

/// How often the same is asked.
const TIMES: u64 = 1000;

/// A datagram or a frame may be heard for 1000 ms, and a list is looked through once half of it is older.
const YOUNG: usize = 2 * 1001;

/// A request is issued every 300 ms, and takes two datagrams: those of four are young, and the last 64 are never
/// forgotten. A device that were asked more often would abort, for want of room for what it remembers.
const MOST_ITEMS: usize = 2 * (2 * 4 + 64);

/// Each of two stations puts out two frames in a millisecond at most: one where it hears, and one where it wakes.
const MOST_FRAMES: usize = 4 * YOUNG;

/// One client has 256 invoke IDs: so many issues are the last ones.
const MOST_ISSUES: usize = 2 * 256 + 1;

/// How much was kept at most.
#[derive(Clone, Copy, Debug, Default)]
struct Kept {
    items: usize,
    issues: usize,
    frames: usize,
    sendings: usize,
}

impl Kept {
    /// Looks at what a site keeps.
    fn look<A: Allocator + Copy>(&mut self, site: &Internetwork<A>) {
        self.items = self.items.max(site.items().len());
        self.issues = self.issues.max(site.issues_kept());
        for bus in site.buses().buses.as_slice() {
            self.frames = self.frames.max(bus.recent.len());
            self.sendings = self.sendings.max(bus.known.len());
        }
    }
}

/// Who looks on at a run.
#[derive(Drop)]
struct Looking<'k> {
    kept: &'k mut Kept,
}

impl<A: Allocator + Copy> Observer<A> for Looking<'_> {
    fn see(&mut self, site: &Internetwork<A>, _stray: Option<Got<'_>>) -> io::Result<()> {
        self.kept.look(site);
        Ok(())
    }
}

/// Runs each row, and prints a line for each.
///
/// # Errors
/// Those of reading and of printing, and want of memory.
pub(crate) fn run_all(rt: &HostRuntime) -> io::Result<()> {
    for name in names(rt, KEPT)?.as_slice() {
        let row = row_of(rt, name.as_str(), KEPT)?;
        let wanted = wanted_of(rt, name.as_str())?;
        let found = found_of(rt.alloc(), &row)?;
        let line = said(
            rt.alloc(),
            name.as_str(),
            found.as_str(),
            wanted.as_str(),
            "",
        )?;
        rt.print(line.as_str())?;
    }
    Ok(())
}

/// The script of a row: what is asked at first, and what is asked again and again.
fn script_of(alloc: Global, happens: &str) -> io::Result<String> {
    let (first, again) = happens.split_once("\n\n").unwrap_or((happens, ""));
    let mut script = String::from_str(alloc, first)?;
    script.push_str("\n")?;
    for _ in 0..TIMES {
        script.push_str(again)?;
    }
    Ok(script)
}

/// What comes of a row, and how much is kept.
fn found_of(alloc: Global, row: &Row) -> io::Result<String> {
    let memory = Refusing::new(alloc);
    let script = script_of(alloc, row.happens.as_str())?;
    let mut kept = Kept::default();
    let over = OverMemory {
        wire: WireInMemory::new(alloc, Course::InOrder),
        pace: Pace::Even { step: 1 },
        is_open: false,
        spelling: Spelling::Numbers,
    };
    let looking = Looking { kept: &mut kept };
    let printed = observed_of(
        alloc,
        &memory,
        row.site.as_slice(),
        script.as_str(),
        over,
        looking,
    )?;
    told_of(alloc, printed.as_str(), kept)
}

/// The last line of what was printed, without its moment, and whether what was kept is within its bounds.
fn told_of(alloc: Global, printed: &str, kept: Kept) -> io::Result<String> {
    let last = printed.lines().last().unwrap_or("");
    let mut told = without_moments(alloc, last, "")?;
    writeln!(
        told,
        "at most {MOST_ITEMS} datagrams: {}",
        kept.items <= MOST_ITEMS
    )?;
    writeln!(
        told,
        "at most {MOST_ISSUES} issues: {}",
        kept.issues <= MOST_ISSUES
    )?;
    writeln!(
        told,
        "at most {MOST_FRAMES} frames: {}",
        kept.frames <= MOST_FRAMES
    )?;
    writeln!(
        told,
        "at most {MOST_FRAMES} sendings: {}",
        kept.sendings <= MOST_FRAMES
    )?;
    Ok(told)
}
