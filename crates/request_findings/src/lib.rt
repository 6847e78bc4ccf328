//! What no plant should show of what requests say: writes that are executed twice, and messages in segments that are
//! lost or sent beyond a window (ANSI/ASHRAE 135, clauses 5.2.2, 5.4.5, 15 and 20.1).
//!
//! To the layer above it promises that any message is taken. What is found is shown by rows, and isn't proved.
//!
//! - `commands`: writes that are said again after others. `command`: those of one property. `value`: what they write.
//!   `priorities`: which of a property's priorities hold a value.
//! - `segments`: messages in segments.
#![tactic(auto)]

mod command;
mod commands;
mod priorities;
mod segments;
mod value;

pub use commands::Commands;
pub use segments::{Segments, Sender};
