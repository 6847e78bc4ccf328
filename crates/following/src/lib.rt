//! The confirmed requests of a capture, each followed to its end, and what they show that no plant should (ANSI/ASHRAE
//! 135, clauses 5.2, 5.4, 15 and 20.1).
//!
//! To the layer above it promises that any message is taken, and that the list of what ended holds no more than it may.
//! What is counted and found is shown by rows, and isn't proved.
//!
//! - `following`: transactions, each to its end. `listed`: those that ended. `waiting`: those without an answer.
//! - `strays`: answers to none of them. `judging`: what one shows.
#![tactic(auto)]

mod following;
mod judging;
mod listed;
mod strays;
mod waiting;

pub use following::Following;
