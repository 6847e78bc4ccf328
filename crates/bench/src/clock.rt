//! The time of a call.

use std::alloc::{AllocError, Global};
use std::io;
use std::time::Instant;

/// How many runs are timed, of which the best counts: what else the machine does only adds to it.
const RUNS: u64 = 12;

/// Something that is done again and again.
pub(crate) trait Work {
    /// Makes ready for so many times, which isn't timed.
    ///
    /// # Errors
    /// Want of memory.
    fn prepare(&mut self, _times: u64) -> Result<(), AllocError> {
        Ok(())
    }

    /// Does it so many times, and answers a number that depends on each.
    ///
    /// # Errors
    /// Want of memory.
    fn go(&mut self, times: u64) -> Result<u64, AllocError>;

    /// How many calls that was, of which so many came.
    fn calls(&self, times: u64, _came: u64) -> u64 {
        times
    }
}

/// What came of it, and the tenths of nanoseconds that each call took.
#[derive(Clone, Copy)]
struct Timed {
    came: u64,
    tenths: u64,
}

impl Timed {
    /// What came of it, in this unit, or the nanoseconds of one call, in words.
    fn text(self, alloc: Global, has_times: bool, unit: &str) -> Result<String, AllocError> {
        if has_times {
            return format!(in alloc; "{}.{} ns", self.tenths / 10, self.tenths % 10);
        }
        format!(in alloc; "{} {unit}", self.came)
    }
}

/// How often work is done in a run without words, and in one that is timed.
#[derive(Clone, Copy)]
pub(crate) struct Often {
    pub(crate) few: u64,
    pub(crate) timed: u64,
}

impl Often {
    /// How often it is done.
    pub(crate) fn times(self, has_times: bool) -> u64 {
        if has_times { self.timed } else { self.few }
    }
}

/// The tenths of nanoseconds that each of so many calls took.
fn per_call(nanoseconds: u128, calls: u64) -> u64 {
    let tenths = nanoseconds.saturating_mul(10);
    let each = tenths.checked_div(u128::from(calls)).unwrap_or(0);
    u64::try_from(each).unwrap_or(u64::MAX)
}

/// The time of the machine, and whether it is told.
#[derive(Clone, Copy)]
pub(crate) struct Clock<'r> {
    pub(crate) rt: &'r HostRuntime,
    pub(crate) has_times: bool,
}

impl Clock<'_> {
    /// The memory of the program.
    pub(crate) fn alloc(self) -> Global {
        self.rt.alloc()
    }

    /// Does work so many times in each run, and takes the time of the best run.
    fn time<W: Work>(self, work: &mut W, times: u64) -> io::Result<Timed> {
        let mut best = Timed {
            came: 0,
            tenths: u64::MAX,
        };
        for _ in 0..RUNS {
            work.prepare(times)?;
            let start = Instant::now(self.rt)?;
            let came = work.go(times)?;
            let took = start.elapsed(self.rt)?.as_nanos();
            let tenths = per_call(took, work.calls(times, came));
            best.came = came;
            best.tenths = best.tenths.min(tenths);
        }
        Ok(best)
    }

    /// Times work, and says what came of it, in this unit, or what a call took.
    ///
    /// # Errors
    /// Those of the clock, and want of memory.
    pub(crate) fn told<W: Work>(
        self,
        often: Often,
        unit: &str,
        work: &mut W,
    ) -> io::Result<String> {
        let timed = self.time(work, often.times(self.has_times))?;
        Ok(timed.text(self.alloc(), self.has_times, unit)?)
    }

    /// Prints a name, and what is told of it.
    ///
    /// # Errors
    /// Those of printing, and want of memory.
    pub(crate) fn print(self, name: &str, told: &str) -> io::Result<()> {
        let line = format!(in self.alloc(); "{name}: {told}")?;
        self.rt.println(line.as_str())
    }

    /// Times work, and prints its name, and what came of it or what a call took.
    ///
    /// # Errors
    /// Those of the clock and of printing, and want of memory.
    pub(crate) fn tell<W: Work>(
        self,
        often: Often,
        name: &str,
        unit: &str,
        work: &mut W,
    ) -> io::Result<()> {
        let told = self.told(often, unit, work)?;
        self.print(name, told.as_str())
    }
}
