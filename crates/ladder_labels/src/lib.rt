//! What a message says of itself, for whoever draws it: its label and its kind, and the transaction that it belongs to
//! (ANSI/ASHRAE 135, clauses 5.4, 6.2, 9.3, 15, 16, 20.1 and J.2).
//!
//! To the layer above it promises that it returns; labels are shown by rows, and aren't proved.
//!
//! - `labels`: the label and the kind of a datagram and of a frame.
//! - `header_names`: the standard's names.
//! - `calls_in`: the transaction of a message, and its segment.
#![tactic(auto)]

mod calls_in;
mod header_names;
mod labels;

pub use calls_in::{Call, SegmentOf, Side, call_in};
pub use labels::{
    DatagramLabel, FrameLabel, is_broadcast, kind_of_datagram, kind_of_frame, npdu_in_datagram,
    npdu_in_frame,
};
