//! The lines that `bacsite explain` prints of a datagram's parts (ANSI/ASHRAE 135, clauses 6, 20 and Annex J).
//!
//! To the layer above it promises: what each call prints is the line of that field, network message or tag, with the
//! standard's name after each number where names are asked for.
//!
//! - `lines`: a line for each field, network message and tag.
//! - `named`: the names behind numbers.
#![tactic(auto)]

mod lines;
mod named;

pub use lines::{
    Dashed, Pairs, contents_of_error, print_contents, print_control, print_destination,
    print_flags, print_hops, print_message, print_named, print_reason, print_result,
    print_segment_ack, print_source, print_tag, print_transaction, print_type,
};
pub use named::Behind;
