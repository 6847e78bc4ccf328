//! Broadcast managers of BACnet/IP (ANSI/ASHRAE 135, clauses J.4 and J.5): a manager carries the broadcasts of its
//! subnet to the managers of the others and to foreign devices, and theirs to its subnet.
//!
//! Promised to the layer above, besides what `bbmd_manager` promises of each manager: [`spread`] answers who hears
//! a broadcast that goes through managers: over full tables each other station once ([`reach`]). There what goes
//! through a manager never comes back to who said it ([`goes_on`]), nor from one manager through another to a third
//! ([`forwarded_stays`], [`full_are_apart`]). What layers above need of a manager and its tables, they name here.
//!
//! - `spreading`: who hears a broadcast that goes through managers.
//! - `laws`: what holds of all of it.
#![tactic(auto)]

mod laws;
mod spreading;

pub use bbmd_manager::{Bbmd, Outgoing};
pub use bbmd_tables::{ManagerTables, Registration};
pub use laws::{forwarded_stays, full_are_apart, goes_on};
pub use spreading::{SiteTables, Subnet, reach, spread, two_subnets};
