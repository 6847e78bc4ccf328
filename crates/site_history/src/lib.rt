//! What is printed of a run at a site, by a script or live: each entry of its history, each refusal, and at last what
//! there was of all (ANSI/ASHRAE 135, clause 5.4, written for a person to read).
//!
//! To the layer above it promises the exact text of each line, and that a line is printed for each entry, in their
//! order.
//!
//! - `printed`: the lines, without their ends. `event_line`: an event as the line of a script.
//! - `counting`: what the last line counts.
//! - `lines`: entries and refusals, each on a line.
//! - `stop`: why nothing runs.
#![tactic(auto)]

mod counting;
mod event_line;
mod lines;
mod printed;
mod stop;

pub use console::say_failed;
pub use counting::{Counts, counted};
pub use event_line::{AskedFor, EventLine};
pub use faulty_flow::{Event, FaultsInForce, FaultyFlow, Flow, World, WorldEntry};
pub use lines::{
    print_entries, print_refusal, print_refused_asked, print_refused_event, print_refused_time,
};
pub use printed::{EndLine, EntryLine, RefusedLine};
pub use stop::{Stop, say_stop};
