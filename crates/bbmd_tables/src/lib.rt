//! The tables of a broadcast manager of BACnet/IP (ANSI/ASHRAE 135, clauses J.2, J.4.5 and J.5): what they say at a
//! moment, and whom they lead to.
//!
//! Promised to the layer above: each call on [`ManagerTables`] answers exactly what its lists hold, in their order,
//! over addresses, registrations and a moment alone, so that a wrong one is refused here, before any datagram is read.
//! It refuses want of memory, and more managers than a network may have, alone.
//!
//! - `tables`: the tables of a manager, and how registrations come and go.
//! - `registration`: foreign devices, how long they are served, and how many.
//! - `addresses`: lists of addresses without one of them.
//! - `forwarding`: whom a manager forwards a broadcast to.
//! - `entries`: what a manager tells of its tables.
#![tactic(auto)]

mod addresses;
mod entries;
mod forwarding;
mod registration;
mod tables;

pub use addresses::{append_others, is_among, is_same, or_nobody};
pub use registration::Registration;
pub use tables::ManagerTables;
