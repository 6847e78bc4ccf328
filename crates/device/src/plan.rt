//! What a device would do on an input, before anything changes.

use npdu::Parcel;
use server_tsm::{Executed, ServerPlan};
use std::alloc::Allocator;
use std::marker::Model;
use tags::Items;

/// What comes of an input.
#[derive(Drop)]
pub struct DeviceTold<A: Allocator> {
    /// What is said, in order.
    pub said: Items<Parcel<A>, A>,
    /// The request that was executed, if one was: its asker, and what the objects replied.
    pub executed: Option<Executed<A>>,
}

impl<A: Allocator> Model for DeviceTold<A> {
    ghost use Rattle.device.specs.DeviceTold as spec;

    ghost Value = { spec.DeviceTold A };

    ghost view = { λ s. record { said = s.said; executed = s.executed } };

    ghost inverse = { λ s. record { said = s.said; executed = s.executed } };
}

/// What is said of an input, and what its server does; `None` where nothing of it changes.
#[derive(Drop)]
pub struct DevicePlan<A: Allocator> {
    /// What is said, in order.
    pub said: Items<Parcel<A>, A>,
    pub(crate) server: Option<ServerPlan<A>>,
}
