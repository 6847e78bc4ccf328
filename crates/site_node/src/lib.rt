//! A node of a site with its ports: a device, a client, a router or a broadcast manager (ANSI/ASHRAE 135, clauses 5.4,
//! 6 and J.4).
//!
//! To the layer above it promises: each input is looked at before anything changes. What it comes to is a plan of the
//! node's part, and a draft of what its ports would change and put out; [`SiteNode::commit`] does it, and may be
//! refused for want of memory alone, and then nothing has changed. A manager hears datagrams at its one address, and
//! has no port.
//!
//! - `part`: what a node is, and what it makes of a message, a wake, an issue, a question and a restart.
//! - `plan`, `told`: what it would do, and what comes of it.
//! - `stamping`: what a manager says, as datagrams that go out with a stamp.
//! - `drafting`: a plan and ports together.
//! - `node`: a node with its ports; `hearing`, `acting`: its inputs.
#![tactic(auto)]

mod acting;
mod drafting;
mod hearing;
mod node;
mod part;
mod plan;
mod stamping;
mod told;

pub use client::{Client, Outcome, TransactionOutcome};
pub use device::{Device, Executed};
pub use node::SiteNode;
pub use part::Part;
pub use plan::PartPlan;
pub use site_ports::{Draft, SitePort, link_bus};
pub use told::PartTold;
