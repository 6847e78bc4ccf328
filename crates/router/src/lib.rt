//! A router between BACnet networks (ANSI/ASHRAE 135, clauses 6.5 and 6.6): it passes messages on from one of its
//! networks to the others, and tells and learns which networks lie behind which of its ports. It knows its ports by
//! the numbers of their networks and its addresses there, and neither datagrams nor frames.
//!
//! To the layer above it promises: what comes of a parcel is given by the header that it spells, by cases; what is
//! passed on is what was heard, with its stamp, and all that the router says of itself has nothing inside. A parcel
//! that is dropped for its header or destination takes no memory, and is never refused. A call is a plan, which
//! changes nothing, and its commit, which takes no memory: no route is copied where none is learned.
//!
//! - `handling`: what is done with a message, by its header.
//! - `passing`: messages passed on; `messages`: what the router says of itself; `saying`: all that it says.
//! - `routes`: the routes that it learned.
//! - `plan`: what it would do; `heard`: what it heard.
//! - `router`: the router and its commit; `hearing` and `waking`: its calls.
//! - `laws`: what holds of all that it says, for the proofs of the layers above.
#![tactic(auto)]

mod handling;
mod heard;
mod hearing;
mod laws;
mod messages;
mod passing;
mod plan;
mod router;
mod routes;
mod saying;
mod waking;

pub use handling::Handling;
pub use laws::{heard_once, keeps, passes_on};
pub use plan::{PortParcel, RouterPlan};
pub use router::{Router, are_numbered};
pub use routes::Route;
