//! A BACnet client on its network (ANSI/ASHRAE 135, clauses 5.4.4, 6 and 16.10): what it asks, hears and says in
//! parcels.
//!
//! To the layer above it promises: each call is one step of a relation on plain data, whose witness is what the parcel
//! brings and what the client of transactions does on it; what is refused leaves the client as it was. An I-Am binds
//! its device and no other; a router that has no route to a network closes the bindings on it, each until a new I-Am
//! of its device; an issue goes to where the device is bound; all else is for the client of transactions. A call is a
//! plan, which changes nothing, and its commit: whoever has more to grow makes that between the two, and copies no
//! client.
//!
//! - `plan`: what a client would do, before anything changes.
//! - `client`: the client, its wake, and the commit of a plan.
//! - `issuing`, `hearing`: what it asks, and what it does on a parcel.
//! - `saying`: what it says, in parcels.
//! - `laws`: what holds of any client and its bindings, for the proofs of the layers above.
#![tactic(auto)]

mod client;
mod hearing;
mod issuing;
mod laws;
mod plan;
mod saying;

pub use bindings::Binding;
pub use client::Client;
pub use client_tsm::{Outcome, Transaction, TransactionOutcome};
pub use laws::{heard_once, marked_alone, once, put_is_held};
pub use plan::{ClientIssuePlan, ClientIssued, ClientPlan, ClientTold};
