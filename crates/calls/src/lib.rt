//! Calls to be timed: each work makes one call so many times, and answers a number that depends on each of them. The
//! program `bench` times them by its clock, and the static library `bench_calls` gives them to C and Rust.
//!
//! - `decoding`: a datagram, down to its request.
//! - `answering`: a device hears a datagram and answers.
//! - `gathering`: a device hears a request in segments.
//! - `reading`: a table replies.
//! - `opened`: the device and its table.
#![tactic(auto)]

mod answering;
mod decoding;
mod gathering;
mod opened;
mod reading;

pub use answering::Answering;
pub use decoding::decode;
pub use gathering::gather;
pub use reading::Reading;
