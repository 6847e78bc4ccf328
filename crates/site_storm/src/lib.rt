//! A storm at a site, from two texts to what is printed of it (ANSI/ASHRAE 135, clause 5.4, written for a person to
//! read): `bacsite storm` without its command line.
//!
//! To the layer above it promises: with status 0 the one text is a TOML document of a sound site, and each line of the
//! other one asks for a step; what was printed tells, line by line, what comes of these steps, and then of so many
//! sound events, in a world of that site, each refusal at its place; the lines that are put down are those of these
//! very events; and the history that is told is legal. Which events they are, no contract says.
//!
//! - `script_end`: where a line behind a script begins.
//! - `raging`: so many events of a storm, one after another.
//! - `counted`: the same in a world that forgets, of which is counted what is gone.
//! - `counts`: what there was of all, in one line.
//! - `waits`: how long clients waited.
//! - `unwritten`: where nothing is written.
//! - `storming`: the two texts, and the exit status.
#![tactic(auto)]

mod counted;
mod counts;
mod raging;
mod script_end;
mod storming;
mod unwritten;
mod waits;

pub use counts::{CountLine, Counts, MessageCounts, OutcomeCounts, counts_of};
pub use raging::Weather;
pub use script_end::end_missing;
pub use site_run::{
    EntryLine, Event, EventLine, LineNumbers, Opened, Spelling, Step, Stop, Telling, World,
    WorldEntry, open, say_stop, simulate_told, take_steps,
};
pub use storm::Chances;
pub use storming::{storm, storm_counted};
