//! The parts of a site: networks, and broadcast managers, routers, devices and clients, with the places where they
//! stand (ANSI/ASHRAE 135, clauses 3.2, 4.2, 6.1, 9 and J).
//!
//! To the layers above it promises: links, ports, stations and kinds of link of a place and of a role are those of its
//! definitions; a name is 1 to 32 letters and digits; copies are equal. Which parts fit together, it doesn't know.
//!
//! - `place`: where a station stands: on a network, or beyond all subnets.
//! - `role`: what a station is.
//! - `parts`: networks and stations, in the order of the site.
//! - `name`: names of stations.
//! - `copying`: equal copies.
#![tactic(auto)]

mod copying;
mod name;
mod parts;
mod place;
mod role;

pub use name::is_name;
pub use parts::{Network, Parts, Station};
pub use place::{Foreign, Link, Place};
pub use role::Role;
