//! Long messages in segments (ANSI/ASHRAE 135, clauses 5.2, 5.4, 20.1.2 and 20.1.6).
//!
//! To the layers above it promises: what is whole is the concatenation, in order, of the segments that were
//! taken, and of the pieces of one body, in whatever order they come and however often, it is that body. Each
//! call is one step of a function on plain data. It knows no APDU: a layer above puts a piece into a segment.
//!
//! - `pieces`: the pieces of a body, as slices of it.
//! - `sender`: the sender: which pieces go, on a SegmentACK and when it wakes.
//! - `receiver`: the receiver: which segments are taken, and what is said of them.
//! - `step`: what a receiver and a sender do.
//! - `laws`: what holds of any segments, for the proofs of the layers above.
#![tactic(auto)]

mod laws;
mod pieces;
mod receiver;
mod sender;
mod step;

pub use laws::{pieces_join, whole_is_cut, whole_is_taken, window_is_pieces};
pub use pieces::{Piece, Window};
pub use receiver::{Receiver, granted_window};
pub use sender::{Sender, piece_count};
pub use step::{Step, Turn};
