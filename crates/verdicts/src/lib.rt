//! Whether what a script expects holds, of what a run has come to: its history, what was refused of it, and what a
//! device reads (ANSI/ASHRAE 135, clauses 5.4 and 15.5).
//!
//! To the layers above it promises: it says that an expectation holds exactly where it does; and, of a request, what
//! was last told of it.
//!
//! - `verdict`: whether an expectation holds.
//! - `closing`: whether a request came to its end as expected. `counting`: how often it was executed.
//! - `reading`: whether a property reads as expected.
//! - `same`: whether two replies are one. `told`: what was told of a request.
//! - `laws`: what holds of expectations in a legal history.
#![tactic(auto)]

mod closing;
mod counting;
mod laws;
mod reading;
mod same;
mod told;
mod verdict;

pub use expectations::{
    Expectation, ExpectedEnd, ExpectedValue, IssueRef, Outcome, Times, issue_number,
};
pub use laws::{answered_is_executed_once, one_answer};
pub use told::last_told;
pub use verdict::holds;
