//! What is on its way on the networks of a site (ANSI/ASHRAE 135, clauses 6.5 and 9.3 and Annex J): datagrams, frames,
//! and parcels that wait in ports.
//!
//! To the layers above it promises: where whatever is inside the things that are on their way was said, so was what is
//! inside each thing that a port puts out, or that a router, a node or a broadcast manager passes on; with its stamp.
//! Neither what APDUs mean nor who hears them is known here. It has no code. In `specs/`, from below:
//!
//! - `Datagrams`, `Frames`: which parcel octets carry.
//! - `Things`: what is on its way, what it bears, and whether what is inside was said.
//! - `Passing`: what it is to put a thing out, and to pass it on.
//! - `Ports`: what a port of BACnet/IP puts out of a parcel.
//! - `Laws`: what the functions of `laws` state.
#![tactic(auto)]

mod laws;

pub use laws::{
    frames_pass_on, manager_passes_on, network_message_passes_on, passing_is_carried,
    ports_put_out, router_passes_on, stamp_is_borne,
};
