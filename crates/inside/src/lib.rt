//! What is inside a message on a network (ANSI/ASHRAE 135, clauses 6.2, 6.3 and 6.5): who says it, whom it is for, and
//! its APDU.
//!
//! To the layers above it promises: there is one thing inside a message, or nothing, and `inside_of` gives it; what is
//! inside what a router passes on was inside what it heard. A router needs no more of a message than this: neither
//! APDUs nor what carries a message over its network is known here.
//!
//! - `reach`: whom a message is for.
//! - `view`: what is inside a message.
//! - `laws`: what holds of all of them, for the proofs of the layers above.
#![tactic(auto)]

mod laws;
mod reach;
mod view;

pub use laws::{network_message_has_nothing, one_inside, routed_is_inside};
pub use reach::Reach;
pub use view::{InsideView, inside_of};
