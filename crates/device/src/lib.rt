//! A BACnet device on its network (ANSI/ASHRAE 135, clauses 5.4.5, 6 and 16.10): what it hears and says in parcels.
//!
//! To the layer above it promises: each call is one step of a relation on plain data, whose witness is what the parcel
//! brings and what the server of transactions does on it; what would be refused for want of memory leaves the device
//! as it was. A confirmed request is executed by the server alone; a Who-Is for this device is answered by an I-Am to
//! all; what brings nothing to it is dropped, and never refused. A call is a plan, which changes nothing, and its
//! commit: whoever has more to grow makes that between the two, and copies no device.
//!
//! - `plan`: what a device would do, before anything changes.
//! - `device`: the device, its wake and its restart, and the commit of a plan.
//! - `hearing`: what it does on a parcel.
//! - `saying`: what it says, in parcels.
//! - `laws`: what holds of any device, for the proofs of the layers above.
#![tactic(auto)]

mod device;
mod hearing;
mod laws;
mod plan;
mod saying;

pub use device::Device;
pub use laws::{heard_once, services_are_supported};
pub use plan::{DevicePlan, DeviceTold};
pub use server_tsm::Executed;
