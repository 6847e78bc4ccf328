//! What no plant should show of stations, routers and broadcasts, as a capture shows it (ANSI/ASHRAE 135, clauses 6,
//! 12.11, 16.10 and Annex J).
//!
//! To the layer above it promises that any message is taken. What is found is shown by rows, and isn't proved.
//!
//! - `instances`: devices with one instance at two addresses. `routers`: networks that two routers announce.
//! - `circles`: messages that come again with falling hop counts. `storms`: too many broadcasts.
//! - `forwarding`: broadcasts that two managers forward, and registrations that one refuses.
//! - `networks`: all of these.
#![tactic(auto)]

mod circles;
mod forwarding;
mod instances;
mod networks;
mod routers;
mod storms;

pub use networks::Networks;
