//! Which packets of a capture are asked for: those between two stations, those of a device, those from one time to
//! another (ANSI/ASHRAE 135, clauses 6.2, 9.3 and 16.10 and Annex J).
//!
//! To the layer above it promises that it takes any packet, and comes to an end of any file. Which packets are chosen
//! is shown by rows, and isn't proved.
//!
//! - `reading`: a capture that is read to its end, packet by packet. `ends`: between whom a packet is.
//! - `place`: a station, and the words for one. `choice`: what is asked for. `instances`: where a device is.
#![tactic(auto)]

mod choice;
mod ends;
mod instances;
mod place;
mod reading;

pub use choice::{Choice, Choosing, Chosen, Excerpt};
pub use ends::{Ends, ends_of};
pub use instances::places_of;
pub use place::{Place, party_in};
pub use reading::{Failure, Taker, read_packets};
