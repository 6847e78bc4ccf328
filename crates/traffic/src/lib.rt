//! What is on its way on the networks of a world (ANSI/ASHRAE 135, clauses 6.1, 9 and J): datagrams, in the order in
//! which they were put out, and frames that are put out on buses.
//!
//! To the layer above it promises: it tells which one is meant, refuses one that was never put out or is too old to be
//! heard, and finds what is still to be delivered among those that are young, without a walk through all that was ever
//! sent. What is too old may be forgotten: the others keep their numbers. No station is known here.
//!
//! - `item`: a datagram on its way.
//! - `frame`: a frame that a station puts out.
//! - `recent_items`: items by their numbers, of which those that are too old may be forgotten.
//! - `seeking`: which of them is meant, and which is to be delivered next.
#![tactic(auto)]

mod frame;
mod item;
mod recent_items;
mod seeking;

pub use frame::FramePut;
pub use item::Item;
pub use recent_items::RecentItems;
pub use seeking::{in_time, next_waiting};
