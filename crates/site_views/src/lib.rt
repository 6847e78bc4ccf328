//! What the layers above ask of a site: who stands where, and whom it has to know (ANSI/ASHRAE 135, clauses 6.1, 9, 12
//! and J).
//!
//! To the layers above it promises: each answer is that of its definition, in site order; the devices of a sound site
//! are at distinct stations with distinct instances and sound objects; and its managers, as `Bbmd::new` makes them of
//! members and managers, have full tables where each foreign table has just the foreign devices of the site.
//!
//! - `stations`: stations by name and by address, and all addresses.
//! - `subnets`: members and managers of BACnet/IP networks, MAC addresses of MS/TP networks.
//! - `foreigns`: foreign devices and their managers.
//! - `laws`: what holds of a sound site.
#![tactic(auto)]

mod foreigns;
mod laws;
mod stations;
mod subnets;

pub use foreigns::{ForeignStation, foreign_stations};
pub use laws::{devices_apart, managers_full, stations_apart};
pub use stations::{addresses, at_address, named, opening_objects};
pub use subnets::{macs, managers, members};
