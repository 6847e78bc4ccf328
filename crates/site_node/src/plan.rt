//! What a node's part would do.

ghost use Rattle.std.specs.Prelude.{◌≡◌, ◌↔◌, [], IsTrue, length};
ghost use Rattle.site_node.specs.Part.{downs_of, told_by};
ghost use Rattle.site_node.specs.Plan.{is_restart};

use bbmd::Bbmd;
use client::ClientPlan;
use device::DevicePlan;
use npdu::Parcel;
use objects::Table;
use router::RouterPlan;
use std::alloc::Allocator;
use tags::Items;

/// What a node's part would do, before anything changes.
#[derive(Drop)]
pub enum PartPlan<A: Allocator + Copy> {
    /// Nothing.
    Nothing,
    /// A device does this.
    Device(DevicePlan<A>),
    /// A client does this.
    Client(ClientPlan<A>),
    /// A router does this.
    Router(RouterPlan<A>),
    /// A manager knows this then.
    Manages(Bbmd<A>),
    /// A manager forgets the registrations that have ended.
    Forgets,
    /// A device restarts with these objects.
    Restarts(Table<A>),
    /// This is said, and nothing changes.
    Says(Items<Parcel<A>, A>),
}

impl<A: Allocator + Copy> PartPlan<A> {
    /// Returns what is said, in order.
    pub fn said(&self) -> &[Parcel<A>]
        ensures { result.now ≡ (told_by self.now).said }
    {
        match self {
            PartPlan::Device(plan) => plan.said.as_slice(),
            PartPlan::Client(plan) => plan.said.as_slice(),
            PartPlan::Says(said) => said.as_slice(),
            PartPlan::Nothing
            | PartPlan::Router(_)
            | PartPlan::Manages(_)
            | PartPlan::Forgets
            | PartPlan::Restarts(_) => &[],
        }
    }

    /// Returns whether nothing goes down over any port.
    pub(crate) fn says_nothing(&self) -> bool
        ensures { IsTrue result ↔ (downs_of self.now ≡ []) }
    {
        match self {
            PartPlan::Router(plan) => plan.out.is_empty(),
            PartPlan::Nothing
            | PartPlan::Device(_)
            | PartPlan::Client(_)
            | PartPlan::Manages(_)
            | PartPlan::Forgets
            | PartPlan::Restarts(_)
            | PartPlan::Says(_) => self.said().is_empty(),
        }
    }

    /// Returns whether a device restarts.
    pub(crate) fn restarts(&self) -> bool
        ensures { result ≡ is_restart self.now }
    {
        matches!(self, PartPlan::Restarts(_))
    }

    /// Returns how many outcomes are told.
    pub fn outcome_count(&self) -> usize
        ensures { result ≡ length (told_by self.now).outcomes }
    {
        match self {
            PartPlan::Client(plan) => plan.outcomes.len(),
            PartPlan::Nothing
            | PartPlan::Device(_)
            | PartPlan::Router(_)
            | PartPlan::Manages(_)
            | PartPlan::Forgets
            | PartPlan::Restarts(_)
            | PartPlan::Says(_) => 0,
        }
    }
}
