//! The shortest continuation of a script at a site, from its texts to the script that is written (ANSI/ASHRAE 135,
//! clause 5.4, written for a person to read): `bacsite search` without its command line.
//!
//! To the layer above it promises: where a script was written, the one text is a TOML document of a sound site, each
//! line of the other one asks for a step, and what was written is that script and a line for each of some events, at
//! most so many as were asked for; these steps and then these events, none of them refused, lead in a world of that
//! site to a history that is legal and has a new entry of these words. That fewer don't, and that there are none
//! where it says so, no contract says.
//!
//! - `until`: which entry of the history is searched for.
//! - `failure`: why nothing is told.
//! - `searching`: the texts, and what is written.
#![tactic(auto)]

mod failure;
mod searching;
mod until;

pub use failure::{Failure, say_found};
pub use searching::{Found, search};
pub use site_storm::{
    Chances, Spelling, Telling, Weather, end_missing, simulate_told, storm, storm_counted,
};
