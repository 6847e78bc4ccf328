//! A flow in which faults of the network act (ANSI/ASHRAE 135, clauses 5.4, 6 and 9): what is lost isn't delivered,
//! what is repeated is delivered twice, what is late later, and of what is damaged other octets are heard.
//!
//! To the layers above it promises what a flow does: each of its events is one of a flow, and its milliseconds pass. So
//! whatever is lost, repeated, late or damaged, a world comes about by events alone.
//!
//! - `flow`: the flow.
//! - `damage`: damaged octets.
#![tactic(auto)]

mod damage;
mod flow;

pub use faults_in_force::{FaultsInForce, NetworkFault};
pub use flow::FaultyFlow;
pub use simulator::{Event, Flow, World, WorldEntry};
