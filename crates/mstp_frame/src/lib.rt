//! MS/TP frames (ANSI/ASHRAE 135, clause 9.3, 9.5.4 and Annex G): the frames in a stream of octets on a bus.
//!
//! Promised to the layers above: a [`Deframer`] that is fed a stream, cut into any pieces, gives just the frames
//! that are heard in it, lends the octets of each, and takes no memory; [`Frame::read`] gives the frame that octets
//! spell, all of them; [`write_frame`] appends a frame's one spelling, refuses memory alone, and then leaves the buffer
//! as it was; what is written is read and heard again ([`spelling`], [`hearing`], [`cuts_are_one`]); the checks are the
//! standard's remainders.
//!
//! - `check`: the checks of a header and of data, by tables.
//! - `frame`, `frame_type`: frames, reading and writing them.
//! - `front`: what octets from 55 FF on are.
//! - `buffer`, `deframer`: the octets that are kept, and the frames of a stream.
//! - `laws`: what holds of every frame and of every stream, for the proofs of the layers above.
#![tactic(auto)]

mod buffer;
mod check;
mod deframer;
mod frame;
mod frame_type;
mod front;
mod laws;

pub use check::{data_check, header_check, tables_are_remainders};
pub use deframer::{Deframer, Fed};
pub use frame::{Frame, PREAMBLE, write_frame};
pub use frame_type::FrameType;
pub use laws::{cuts_are_one, hearing, spelling};
