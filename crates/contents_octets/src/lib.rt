//! Numbers as the contents octets of a tag (ANSI/ASHRAE 135, clause 20.2), and what is put behind others stays whole or
//! not at all.
//!
//! To the tags above it promises: each number is the one that its octets say, needless octets in front included, in as
//! few octets as hold it; and of what could not be put whole nothing is left. A wrong one is refused here, before any
//! tag is read.
//!
//! - `number`: numbers from contents octets, and how many octets they take.
//! - `whole`: all that was put, or nothing.
#![tactic(auto)]

mod number;
mod whole;

pub use number::{signed_of, signed_width_of, unsigned_of, width_of};
pub use whole::whole_or_none;
