//! A world: what came about from a site's opening by events alone (ANSI/ASHRAE 135, clauses 5.4, 6, 12, 16.10 and J).
//!
//! To whoever runs it it promises the headline: whatever events happen, in whatever order, the history is legal: no
//! issue is executed twice, each answer is the reply of an earlier execution of that very issue at the device that it
//! names, and the objects of each device are what its executions leave.
//!
//! - `simulation`: the world, and its runs.
//! - `flow`: the events of a site that nothing disturbs.
//! - `laws`: what holds of each event, for the proofs of the layers above.
#![tactic(auto)]

mod flow;
mod laws;
mod simulation;

pub use flow::Flow;
pub use laws::{events_lead, quiet_hears};
pub use simulation::World;
pub use world::{Event, Internetwork, LATEST_ITEMS, SaidMessage, SiteNode, WorldEntry};
