//! What is wrong with the lines of a script, told so that they can be mended: the place where a line stops being a
//! step, what was expected there and what was found (the services of ANSI/ASHRAE 135, clause 15, written for a person
//! to read); and a script with its spaces and line ends mended.
//!
//! To the layer above it promises: a fault is told only of a text that is no script, and none only of one that is.
//! Which messages are told, rows show.
//!
//! - `word`: words of a line, with their places.
//! - `expected`: what may stand at a place.
//! - `fault`: what is wrong with a line.
//! - `layout`: spaces, tabs and comments that stand where none may.
//! - `step`, `disturbance`, `expectation`, `request`, `value`: the first place where a line stops being what their
//!   names say.
//! - `telling`: the faults of a script.
//! - `mending`: a script with its spaces and line ends mended.
#![tactic(auto)]

mod disturbance;
mod expectation;
mod expected;
mod fault;
mod layout;
mod mending;
mod request;
mod step;
mod telling;
mod value;
mod word;

pub use mending::mended;
pub use telling::{tell_live_faults, tell_script_faults};
