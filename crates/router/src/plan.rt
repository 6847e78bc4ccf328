//! What a router would do on an input, before anything changes.

use crate::routes::Routes;
use npdu::Parcel;
use std::alloc::Allocator;
use tags::Items;

/// A parcel that goes out over a port.
#[derive(Drop)]
#[derive_where(Debug, PartialEq, Eq)]
pub struct PortParcel<A: Allocator> {
    /// The number of the port, from 0.
    pub port: usize,
    /// The parcel, from the router's address on that port's network.
    pub parcel: Parcel<A>,
}

/// What changes in a router beside its moment.
#[derive(Drop)]
pub(crate) enum RouterChange<A: Allocator> {
    Nothing,
    /// It has these routes then.
    Learns(Routes<A>),
    /// It has woken then.
    Wakes,
}

/// What goes out of an input, and what changes.
#[derive(Drop)]
pub struct RouterPlan<A: Allocator> {
    /// What goes out, in order.
    pub out: Items<PortParcel<A>, A>,
    pub(crate) change: RouterChange<A>,
}
