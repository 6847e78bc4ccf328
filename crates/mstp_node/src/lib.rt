//! The master node of MS/TP (ANSI/ASHRAE 135, clause 9.5): it says what is queued while it has the token, gives the
//! token on, and looks for other masters.
//!
//! To the layer above it promises: each call is exactly the step of the table that `mstp_table` has as a definition,
//! line by line, with the frames that it puts out in their canonical octets, each with the stamp of what it says. It
//! refuses want of memory alone. It reads no NPDU but one bit of its control octet.
//!
//! - `node`: the node and its calls.
//! - `queue`: what waits for the token.
//! - `saying`: the frames that are put out.
//! - `token`: what a node does with the token.
//! - `hearing`: what it does on a frame, by its state.
//! - `waking`: what it does at a tick, by its state.
#![tactic(auto)]

mod hearing;
mod node;
mod queue;
mod saying;
mod token;
mod waking;

pub use node::{Node, NodeStep};
