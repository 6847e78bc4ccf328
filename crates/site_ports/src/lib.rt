//! The ports of a node of a site, and what goes out over them (ANSI/ASHRAE 135, clause 6.1).
//!
//! To the layer above it promises: an event changes no port until it is done; what it would change and what it puts out
//! stands in a [`Draft`], which the calls of one event go on from, and [`settle`] makes it, and can't be refused.
//!
//! - `draft`: what an event changes, so far.
//! - `ports`: parcels that go down, octets that are heard, wakes and restarts.
#![tactic(auto)]

mod draft;
mod ports;

pub use draft::{Draft, settle};
pub use link_site::{SitePort, link_bus};
pub use ports::{
    count_at, down_each, down_over, heard_at, is_any_due, next_due, register_at, restart_all,
    wake_all,
};
