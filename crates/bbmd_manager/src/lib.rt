//! A broadcast manager of BACnet/IP (ANSI/ASHRAE 135, clauses J.4 and J.5): it carries the broadcasts of its subnet to
//! the managers of the others and to foreign devices, and theirs to its subnet.
//!
//! Promised to the layer above: [`Bbmd::on_datagram`] says exactly what the tables ask for, to each addressee in
//! order, and leaves exactly the registrations that it ought to; it refuses want of memory, and what is too long
//! to be forwarded, and is then as it was.
//!
//! - `saying`: a datagram to each of several addressees.
//! - `manager`: what a manager knows, says and changes.
#![tactic(auto)]

mod manager;
mod saying;

pub use manager::Bbmd;
pub use saying::Outgoing;
