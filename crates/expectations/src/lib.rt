//! What a script expects of a run: how requests end, how often they are executed, what a device holds, and that nothing
//! was refused (ANSI/ASHRAE 135, clauses 5.4, 15 and 18, written for a person to read). It is plain data.
//!
//! To the layers above it promises: an expectation is what the words say, and words that are refused, but for want of
//! memory, say none; exactly the text of each. Whether it holds, it doesn't know.
//!
//! - `expectation`: what is expected.
//! - `reading`: an expectation in words.
//! - `outcome`: how a request is expected to end, in words. `error`: an error by its names.
//! - `value`: what is expected of a property, in words.
//! - `parts`: words cut at a mark.
//! - `printed`: its words.
#![tactic(auto)]

mod error;
mod expectation;
mod outcome;
mod parts;
mod printed;
mod reading;
mod value;

pub use expectation::{Expectation, ExpectedEnd, ExpectedValue, Outcome, Times};
pub use network_faults::{IssueRef, issue_number};
pub use reading::parse_expectation;
