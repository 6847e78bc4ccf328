//! Live runs over memory in which a call fails or an allocation is refused: `SITE-NAME.failing` is a script. It runs
//! once for each call on the wire that fails, up to a run in which none does, while datagrams are lost, come twice and
//! overtake others, by several lists of numbers; and once for each allocation that is refused (behind the eighth not
//! each). Each history must be legal, and the counts of all runs are told.

use crate::live::{OverMemory, printed_of};
use crate::timer::Pace;
use refusing::Refusing;
use rows_wire::{Checker, Course, Row, WireInMemory, row_of};
use sheets::names;
use site_text::site_of;
use std::alloc::{Allocator, Global};
use std::io;
use tags::Fault;
use words::Spelling;

/// How the name of a script ends whose calls fail.
const FAILING: &str = ".failing";

/// The line of a call that failed, behind its moment.
const FAILED: &str = " refused 14 Wire\n";

/// Where the lists of numbers begin, each so that the first datagram arrives: with it lost nothing is bound, and
/// nothing executed.
const SEEDS: [u64; 3] = [1, 2, 4];

/// How many runs there are at most for a list, or for allocations.
const MANY: u64 = 2000;

/// The milliseconds that pass in each round.
const STEP_MS: u64 = 300;

/// What comes of several runs.
#[derive(Clone, Copy)]
struct Told {
    runs: u64,
    illegal: u64,
    executed: usize,
    answered: usize,
}

impl Told {
    /// What comes of no run.
    fn none() -> Self {
        Told {
            runs: 0,
            illegal: 0,
            executed: 0,
            answered: 0,
        }
    }

    /// What comes of one run more.
    fn and(self, is_legal: bool, printed: &str) -> Self {
        Told {
            runs: self.runs.saturating_add(1),
            illegal: self.illegal.saturating_add(u64::from(!is_legal)),
            executed: self
                .executed
                .saturating_add(count_of(printed, " executed ")),
            answered: self
                .answered
                .saturating_add(count_of(printed, " answered ")),
        }
    }
}

/// How many entries of this kind were printed.
fn count_of(printed: &str, kind: &str) -> usize {
    printed
        .lines()
        .filter(|line| !line.starts_with("end ") && line.contains(kind))
        .count()
}

/// Runs each script, and prints a line for each list of numbers and one for allocations.
///
/// # Errors
/// Those of reading and of printing, and want of memory.
pub(crate) fn run_all(rt: &HostRuntime) -> io::Result<()> {
    for name in names(rt, FAILING)?.as_slice() {
        let row = row_of(rt, name.as_str(), FAILING)?;
        for seed in SEEDS {
            let told = calls_failed(rt.alloc(), &row, seed)?;
            print_told(rt, name.as_str(), "a call fails", told)?;
        }
        let told = allocations_refused(rt.alloc(), &row)?;
        print_told(rt, name.as_str(), "an allocation is refused", told)?;
    }
    Ok(())
}

/// Prints what comes of runs in which this happens.
fn print_told(rt: &HostRuntime, name: &str, happens: &str, told: Told) -> io::Result<()> {
    let Told {
        runs,
        illegal,
        executed,
        answered,
    } = told;
    let line = format!(in rt.alloc();
        "{name}: {runs} runs in which {happens}, {illegal} illegal, {executed} executed, {answered} answered\n"
    )?;
    rt.print(line.as_str())
}

/// What is printed of a run, in memory of `memory`, in which the call of this number fails.
fn run_of<A: Allocator + Copy>(
    alloc: Global,
    memory: A,
    row: &Row,
    course: Course,
    call: u64,
) -> io::Result<String> {
    let mut wire = WireInMemory::new(alloc, course);
    wire.fail_at(call);
    let over = OverMemory {
        wire,
        pace: Pace::Even { step: STEP_MS },
        is_open: false,
        spelling: Spelling::Numbers,
    };
    printed_of(
        alloc,
        memory,
        row.site.as_slice(),
        row.happens.as_str(),
        over,
    )
}

/// Whether what was printed of a row is a legal history.
fn is_legal(alloc: Global, row: &Row, printed: &str) -> Result<bool, Fault> {
    let memory = Refusing::new(alloc);
    let site = site_of(alloc, &memory, row.site.as_slice())?;
    let mut checker = Checker::new(alloc, &memory, site.stations())?;
    checker.accepts_all(printed)
}

/// What comes of runs in which a call fails, the first, the second and so on, up to one in which none does.
fn calls_failed(alloc: Global, row: &Row, seed: u64) -> io::Result<Told> {
    let memory = Refusing::new(alloc);
    let mut told = Told::none();
    for call in 1..MANY {
        let printed = run_of(alloc, &memory, row, Course::Seeded(seed), call)?;
        let is_legal = is_legal(alloc, row, printed.as_str()).unwrap_or(false);
        told = told.and(is_legal, printed.as_str());
        if !printed.contains(FAILED) {
            break;
        }
    }
    Ok(told)
}

/// What comes of runs in which an allocation is refused, up to one in which none is.
fn allocations_refused(alloc: Global, row: &Row) -> io::Result<Told> {
    let memory = Refusing::new(alloc);
    let mut told = Told::none();
    let mut number = 1u64;
    for _ in 0..MANY {
        memory.refuse_only(number);
        let printed = run_of(alloc, &memory, row, Course::InOrder, 0)?;
        let is_over = memory.is_waiting();
        memory.refuse_only(0);
        let is_legal = is_legal_so_far(alloc, row, printed.as_str()).unwrap_or(false);
        told = told.and(is_legal, printed.as_str());
        if is_over {
            break;
        }
        number = number.saturating_add(1 + number / 8);
    }
    Ok(told)
}

/// Whether what was printed of a row is a legal history, or that it had no memory to begin with.
fn is_legal_so_far(alloc: Global, row: &Row, printed: &str) -> Result<bool, Fault> {
    let begins = !printed.starts_with("bacsite: refused 1 Memory\n")
        && !printed.starts_with("ended for want of memory\n");
    Ok(!begins || is_legal(alloc, row, printed)?)
}
