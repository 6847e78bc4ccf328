//! The steps of a script at a site, event by event, for whoever looks at a run: what captures it, or draws it.
//!
//! To the layer above it promises that it returns, and that each event that a [`Watcher`] is to make is sound.
//!
//! - `watching`: the steps of a script, one after another.
//! - `plain`: the script of all that happened, event by event.
#![tactic(auto)]

mod plain;
mod watching;

pub use plain::plain_steps;
pub use site_run::{
    EndLine, EntryLine, Event, Simulated, Spelling, Stop, Telling, Verdict, Verdicts, World,
    WorldEntry, counted, open, simulate, simulate_judged, simulate_told, simulate_traced,
};
pub use watching::{Watcher, watch};
