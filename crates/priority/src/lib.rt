//! The sixteen priority slots of a commandable property (ANSI/ASHRAE 135, clause 19.2).
//!
//! To the layer above it promises: the current command is the one of the highest priority, which
//! is the filled slot of the least number, and a command sets its own slot and leaves the others.
//! The slots take no memory of their own, and no call fails.
//!
//! - `slots`: the slots, commanding them and reading them.
//! - `laws`: what holds of any slots, for the proofs of the layers above.
#![tactic(auto)]

mod laws;
mod slots;

pub use laws::{
    first_is_in_force, new_are_empty, no_first_is_none_filled, put_is_held, put_is_in_force,
    put_keeps_length, put_leaves_others, same_at_each_level,
};
pub use slots::Slots;
