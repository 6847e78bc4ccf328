//! Clients and devices on a network (ANSI/ASHRAE 135, clauses 5.4, 6 and 16.10), under one name.
//!
//! `client` and `device` stand side by side and hear and say parcels by `unitdata`; this crate gives both on with all
//! that their calls name, for the layers that run a site. Outcomes and executed requests are those of `transactions`.
#![tactic(auto)]

pub use client::{Binding, Client, ClientIssued, ClientTold};
pub use device::{Device, DeviceTold};
