//! What a script expects of a run at a site, judged at its place, and what there was instead (ANSI/ASHRAE 135, clauses
//! 5.4 and 15.5, written for a person to read).
//!
//! To the layers above it promises: an expectation counts as unmet exactly where it doesn't hold of what was seen. What
//! is told of it, rows show.
//!
//! - `verdict`: what came of expectations. `seen`: what they are judged by.
//! - `refusals`: what was refused so far.
#![tactic(auto)]

mod refusals;
mod seen;
mod verdict;

pub use refusals::Refusals;
pub use seen::Seen;
pub use verdict::{Verdict, Verdicts};
pub use verdicts::Expectation;
