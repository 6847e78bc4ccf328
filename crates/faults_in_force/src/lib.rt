//! Faults of the network that a script asked for, as they are in force: what becomes of each delivery at its turn
//! (ANSI/ASHRAE 135, clauses 5.2, 5.4, 6 and 9).
//!
//! To the layer above it promises that it returns, and what it refuses, which is memory alone. Which deliveries are
//! lost, repeated, late or damaged, rows show: whatever they are, they are events of a world.
//!
//! - `in_force`: the faults, in the order in which they were asked for.
//! - `message_fault`: a fault of a message. `outage`: a station or a network that receives nothing.
//! - `set_aside`: deliveries that had their turn.
#![tactic(auto)]

mod in_force;
mod message_fault;
mod outage;
mod set_aside;

pub use in_force::{FaultsInForce, Turn};
pub use network_faults::NetworkFault;
