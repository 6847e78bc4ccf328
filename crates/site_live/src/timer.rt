//! What tells a live run the time.

use std::io;
use std::time::{Clock, Instant};

/// What tells a live run how much time has passed.
pub trait Timer {
    /// The milliseconds that have passed since it was made.
    ///
    /// # Errors
    /// Those of the clock.
    fn elapsed(&mut self) -> io::Result<u64>;
}

/// The clock of the system, from a moment on.
#[derive(Drop)]
pub struct SystemTimer<'a, R: Clock> {
    clock: &'a R,
    start: Instant,
}

impl<'a, R: Clock> SystemTimer<'a, R> {
    /// The clock from now on.
    ///
    /// # Errors
    /// Those of the clock.
    pub fn new(clock: &'a R) -> io::Result<Self> {
        let start = Instant::now(clock)?;
        Ok(SystemTimer { clock, start })
    }
}

impl<R: Clock> Timer for SystemTimer<'_, R> {
    fn elapsed(&mut self) -> io::Result<u64> {
        let passed = self.start.elapsed(self.clock)?;
        Ok(u64::try_from(passed.as_millis()).unwrap_or(u64::MAX))
    }
}
