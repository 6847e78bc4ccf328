//! The network side of a station: what goes down to a network and comes up from it, whatever that network is made of
//! (ANSI/ASHRAE 135, clauses 6.1, 9 and Annex J).
//!
//! To the layers above it promises that each call of a `Link` is a step of the relation that the link gives, and of
//! each such relation the carry law: what is put out carries a parcel that was handed down or waited, with its stamp,
//! or none; what is handed up is what the octets carry that were heard, and for this station. It knows neither
//! datagrams nor frames.
//!
//! - `link`: the trait.
//! - `step`: what is put out, and what an event changes of a link.
//! - `up`: a message as it comes up from a network.
//! - `limits`: what a network carries.
#![tactic(auto)]

mod limits;
mod link;
mod step;
mod up;

pub use limits::{is_target, max_npdu_at};
pub use link::Link;
pub use step::{Change, PortSent, Sent};
pub use up::Up;
