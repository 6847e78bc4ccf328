//! Who sent the datagrams that were put out (ANSI/ASHRAE 135, clauses 6.1 and J.2): so that one from a stranger is
//! known as such without a look at each of them.
//!
//! To the layer above it promises: an address that it calls a stranger's is no sender of any of the items. What it took
//! note of stays true as items come behind those that it saw, and as those before are forgotten. Where memory is
//! wanting it knows less, and says so of nobody.
//!
//! - `senders`: who sent the first so many items.
#![tactic(auto)]

mod senders;

pub use senders::Senders;
