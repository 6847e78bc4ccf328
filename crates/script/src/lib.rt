//! Scripts: the lines of a text, each of which asks for a step of a run (ANSI/ASHRAE 135, clauses 5.4, 9, 15, 16.10
//! and J.5, written for a person to read).
//!
//! To the layers above it promises: steps are what the lines say, in their order; the request of each issue has a
//! spelling, and one value for each write; a script is read whole or not at all, and what is refused is told with the
//! number of its first bad line. Whether a station or an item is there, it doesn't know.
//!
//! - `step`: what a line asks for.
//! - `line`: a line in words.
//! - `script`: the lines of a text. `numbers`: the numbers of those that ask for steps.
#![tactic(auto)]

mod line;
mod numbers;
mod script;
mod step;

pub use expectations::{Expectation, ExpectedEnd, ExpectedValue, Outcome, Times};
pub use line::step_of;
pub use network_faults::{FaultyMessage, IssueRef, NetworkFault, RequestOrAnswer};
pub use numbers::LineNumbers;
pub use script::{BadScript, script_of};
pub use site_events::Event;
pub use step::Step;
