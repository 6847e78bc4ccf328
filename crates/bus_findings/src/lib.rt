//! What no plant should show of buses of MS/TP, as a capture shows it (ANSI/ASHRAE 135, clause 9).
//!
//! To the layer above it promises that any octets are taken. What is found is shown by rows, and isn't proved.
//!
//! - `checks`: frames whose check octets are wrong. `replies`: nodes that reply late. `tokens`: a token that is lost.
//! - `buses`: all of these, for each bus.
#![tactic(auto)]

mod buses;
mod checks;
mod replies;
mod tokens;

pub use buses::Buses;
