//! What is on its way on the buses of a world (ANSI/ASHRAE 135, clause 9): the frames that were put out on a bus, and
//! what an ear there makes of the octets that it hears.
//!
//! To the layer above it promises: a frame that an ear hears whole is judged as its youngest sending on that bus says:
//! it is forged where nobody put its octets out, too old where each sending of them is, and else it carries the
//! youngest one's stamp. Equal frames are known once, so that an idle ring stops growing; and what may still be heard
//! is found without a walk through all that was ever sent. What is too old to be heard may be forgotten: a frame that
//! may be heard is judged as before. No station is known here.
//!
//! - `ear`: what a station on a bus has heard of a frame, and when.
//! - `cut_frame`: what is left of a frame that has begun.
//! - `sending`: a frame that was put out, where it was delivered, and what is known of equal ones.
//! - `judging`: how a frame is judged.
//! - `hearing`: the frames that octets end at an ear, each judged.
//! - `bus`: a bus, its ears, and what is known of it; what is put out, delivered and forgotten.
//! - `settling`: which frames need not be looked at again.
//! - `copying`: copies of a bus.
//! - `finding`: which ear is meant.
//! - `telling`: which frame an ear is told next.
//! - `laws`: what holds of all that was ever put out, for the proofs of the layers above.
#![tactic(auto)]

mod bus;
mod copying;
mod cut_frame;
mod ear;
mod finding;
mod hearing;
mod judging;
mod laws;
mod sending;
mod settling;
mod telling;

pub use bus::Bus;
pub use cut_frame::CutFrame;
pub use ear::Ear;
pub use finding::{FoundEar, ear_at};
pub use hearing::{Ending, HeardFrame, Hearing};
pub use laws::{all_is_remembered, each_is_judged, heard_is_given, little_is_kept};
pub use sending::{Known, Place, Put, Recent, RecentBox, Sending};
pub use telling::{NextTold, Telling, next_hear};
