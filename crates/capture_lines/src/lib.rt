//! What `bacsite explain --pcap` prints of a capture (ANSI/ASHRAE 135, clauses 6, 9.3, 20 and Annex J): each packet
//! with its number; a datagram with its ends and the lines of `console::explain_datagram`, a frame with its ends, its
//! type and the lines of the NPDU that it carries, and of any other packet why it is passed over.
//!
//! To the layer above it promises the exit status, and that it returns, whatever the octets of the file are. What is
//! printed is shown by rows, and isn't proved.
//!
//! - `explaining`: packet behind packet.
//! - `lines`: the line of a packet.
#![tactic(auto)]

mod explaining;
mod lines;

pub use explaining::explain_capture;
