//! The buses of a world (ANSI/ASHRAE 135, clause 9): what is put out on each of them, in the order of all frames, and
//! what the ears of its stations hear.
//!
//! To the layer above it promises: frames are put out one after another, each on the bus of its network and in its
//! place behind all that was put out, once the memory for them is there; what an ear hears is that of the very station
//! that is named; each thing that is known on a bus was put out there; and what is too old to be heard may be
//! forgotten. No station is known here.
//!
//! - `net_put`: a frame that is to be put out, with all memory of its own.
//! - `puts`: frames that are to be put out, one after another.
//! - `buses`: the buses, what is put out on them, what is heard there, and what is forgotten.
//! - `laws`: what holds of all that is known, for the proofs of the layers above.
#![tactic(auto)]

mod buses;
mod laws;
mod net_put;
mod puts;

pub use buses::{Buses, EarHearing};
pub use laws::puts_are_known;
pub use puts::Puts;
