//! What a world keeps of all that happened, and how it grows (ANSI/ASHRAE 135, clauses 5.4, 6.2 and J.2): items that
//! were put out, who issued under which invoke ID, the history, and what is inside each message that was said.
//!
//! To the layer above it promises: what is put out over a node's places becomes items and frames, each in order; of
//! each message that is said the inside is kept, exactly; what a node executed and what came of requests becomes
//! entries of the history, each of the last issue under its invoke ID. Items are appended first, and cut off again
//! where the rest is refused; all else is appended where room was made. What can no longer matter it forgets when it is
//! told to: what is left keeps its numbers, and all issues stay as many, each with the last of its key.
//!
//! - `key`: who issued, and under which invoke ID.
//! - `last_issues`: the last issue of each client under each invoke ID; `last_numbers`: their numbers.
//! - `log`: what is kept, how it grows, how it is cut back, and what it hands out and forgets.
//! - `putting`: items and frames of what goes out.
//! - `saying`: what is inside what was said.
//! - `telling`: entries of the history.
//! - `keeping`: lists that grow where there is room.
//! - `copying`: copies of it.
#![tactic(auto)]

mod copying;
mod keeping;
mod key;
mod last_issues;
mod last_numbers;
mod log;
mod putting;
mod saying;
mod telling;

pub use key::Key;
pub use last_issues::LastIssues;
pub use log::{Cause, WorldEntry, WorldLog};
pub use node_laws::{Draft, Part, PartPlan, SiteNode, SitePort};
pub use saying::SaidMessage;
