//! A clock that goes by its own steps.

use rows_wire::next_number;
use site_live::Timer;
use std::io;

/// By how many milliseconds a round may come late: now and then it is as if the program had been stopped.
const STOPS_MS: u64 = 3000;

/// .. and mostly, as on a machine that has other things to do.
const DELAYS_MS: u64 = 300;

/// When rounds come.
#[derive(Clone, Copy, Debug, PartialEq, Eq)]
pub(crate) enum Pace {
    /// A round each so many milliseconds.
    Even { step: u64 },
    /// A round each millisecond, of which about every second comes late, as numbers tell that follow from each other:
    /// this is the latest.
    Late { latest: u64 },
}

impl Pace {
    /// How many milliseconds pass until the next round.
    fn next_step(&mut self) -> u64 {
        match self {
            Pace::Even { step } => *step,
            Pace::Late { latest } => {
                *latest = next_number(*latest);
                delay_of(*latest)
            }
        }
    }
}

/// How many milliseconds pass by a number: of two rounds one comes in time, and of 256 one comes behind a stop.
fn delay_of(number: u64) -> u64 {
    let drawn = number >> 32;
    match number >> 56 {
        0 => 1 + drawn % STOPS_MS,
        1..=127 => 1 + drawn % DELAYS_MS,
        _ => 1,
    }
}

/// A clock of which so many milliseconds have passed, and on which more pass each time that it is asked.
#[derive(Clone, Copy, Debug)]
pub(crate) struct SteppingTimer {
    pub(crate) elapsed: u64,
    pub(crate) pace: Pace,
}

impl Timer for SteppingTimer {
    fn elapsed(&mut self) -> io::Result<u64> {
        self.elapsed = self.elapsed.saturating_add(self.pace.next_step());
        Ok(self.elapsed)
    }
}
