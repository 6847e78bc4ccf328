//! A script at a site, from two texts to what is printed of it (ANSI/ASHRAE 135, clause 5.4, written for a person to
//! read): `bacsite sim` without its command line.
//!
//! To the layer above it promises: with status 0 or 4 the one text is a TOML document of a sound site, and each line of
//! the other one asks for a step; what was printed tells, line by line, what comes of these steps in their order in a
//! world of that site, each refusal at its place; the history that it tells is legal: no issue is executed twice, and
//! each answer is the reply of its one execution; and all that the script expects holds of it where the status is 0,
//! and something doesn't where it is 4. Which events were refused, no contract counts.
//!
//! - `running`: the steps of a script, one after another.
//! - `judging`: what a script expects. `course`: what a run has besides its world.
//! - `simulating`: the two texts, and the exit status.
#![tactic(auto)]

mod course;
mod judging;
mod running;
mod simulating;

pub use running::{Telling, Told, make, take_steps};
pub use script::{LineNumbers, NetworkFault, Step};
pub use simulating::{
    Opened, Simulated, open, print_end, simulate, simulate_judged, simulate_told, simulate_traced,
};
pub use site_history::{
    EndLine, EntryLine, Event, EventLine, FaultsInForce, FaultyFlow, Stop, World, WorldEntry,
    counted, say_failed, say_stop,
};
pub use site_verdicts::{Verdict, Verdicts};
pub use words::Spelling;
