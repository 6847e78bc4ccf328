//! What an event of a site puts out, line by line: its datagrams and its frames, with the names of the stations that
//! they come from and go to (ANSI/ASHRAE 135, clauses 9.3 and J.2, written for a person to read).
//!
//! To the layer above it promises: each item is printed with its number, in order; and of each bus each frame that may
//! still be heard and was put out behind so many, with its own number. Their octets are what `bacsite explain` takes
//! apart.
//!
//! - `naming`: the names of stations.
//! - `lines`: the line of a datagram, and of a frame.
//! - `tracing`: all that was put out, one line after another.
#![tactic(auto)]

mod lines;
mod naming;
mod tracing;

pub use naming::{DeviceName, NameAt};
pub use tracing::{print_frames, print_items};
