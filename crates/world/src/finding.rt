//! Which node an event is for.

ghost use Rattle.std.specs.Prelude.{◌≡◌, ◌≤◌, None, Some, true, IfErr, IfNone, IfOk, IfSome, OnErr, slice_get};
ghost use Rattle.profile.specs.Times.{MAX_MOMENT_MS};
ghost use Rattle.traffic.specs.Seeking.{is_young};
ghost use Rattle.world.specs.Laws.{IsSteady};
ghost use Rattle.world.specs.Refusals.{RefusesItem};
ghost use Rattle.world.specs.Step as spec;
ghost use Rattle.world.specs.Tables.{HasNoTable, HasNode, HasTable};
ghost use Rattle.world_sites.specs.Finding.{IsNamed, IsNobody, IsNobodyAt, IsNodeAt};

use crate::internetwork::Internetwork;
use npdu::Station;
use objects::Table;
use std::alloc::Allocator;
use tags::Fault;
use traffic::{Item, in_time};
use world_log::{Part, SiteNode};
use world_sites::{NamedNode, NodeFound, node_in};

/// An item, and the node that it goes to, on which of its ports.
#[derive(Drop)]
pub(crate) struct Recipient<'w, A: Allocator + Copy> {
    pub(crate) item: &'w Item<A>,
    pub(crate) place: usize,
    pub(crate) port: usize,
    pub(crate) node: &'w SiteNode<A>,
}

/// Returns the station that an item goes to (6.1).
pub(crate) fn addressee_of<A: Allocator>(item: &Item<A>) -> Station
    ensures { result ≡ spec.addressee_of item.now }
{
    Station {
        net: item.net,
        mac: item.to,
    }
}

impl<A: Allocator + Copy> Internetwork<A> {
    /// Returns the node at a place.
    ///
    /// # Errors
    /// `NoSuch` where there is none.
    #[tactic(auto, using(crate::proofs::FindingLaws::finding_rules))]
    pub(crate) fn node(&self, place: usize) -> Result<&SiteNode<A>, Fault>
        ensures there { IfOk result (λ node. slice_get self.now.nodes place ≡ Some node.now) }
        ensures steady { IfOk result (λ node. IsSteady self.now.site self.now.moment node.now) }
        ensures cause { IfErr result (λ fault. fault ≡ Fault.NoSuch) }
        ensures none { OnErr result (slice_get self.now.nodes place ≡ None) }
    {
        match node_in(self.nodes.as_slice(), place) {
            Some(node) => Ok(node),
            None => Err(Fault::NoSuch),
        }
    }

    /// Returns the node that has a name, if one has.
    pub fn named(&self, name: &[u8]) -> Option<NamedNode<'_, A>>
        ensures there { IfSome result (λ found. IsNamed name.now self.now.nodes found.id found.node.now) }
        ensures none { IfNone result (IsNobody name.now self.now.nodes) }
    {
        match self.directory.node_named(self.nodes.as_slice(), name) {
            Some(found) => Some(found),
            None => None,
        }
    }

    /// Returns the node at an address, if one is there (6.1).
    #[tactic(auto, using(crate::proofs::FindingLaws::finding_rules))]
    pub(crate) fn at(&self, address: Station) -> Option<NodeFound<'_, A>>
        ensures there { IfSome result (λ found.
            IsNodeAt address self.now.nodes found.place found.port found.node.now) }
        ensures steady { IfSome result (λ found. IsSteady self.now.site self.now.moment found.node.now) }
        ensures none { IfNone result (IsNobodyAt address self.now.nodes) }
    {
        match self.directory.node_at(self.nodes.as_slice(), address) {
            Some(found) => Some(found),
            None => None,
        }
    }

    /// Returns the item of a number, which may still be heard, and the node that it goes to.
    ///
    /// # Errors
    /// `NoSuch` where there is no such item, or it goes to nobody; `Expired` where it is too old.
    #[tactic(auto, using(crate::proofs::FindingLaws::finding_rules))]
    pub(crate) fn recipient(&self, number: u64) -> Result<Recipient<'_, A>, Fault>
        ensures item { IfOk result (λ r. slice_get self.now.items number ≡ Some r.item.now) }
        ensures addressee { IfOk result (λ r.
            IsNodeAt (spec.addressee_of r.item.now) self.now.nodes r.place r.port r.node.now) }
        ensures young { IfOk result (λ r. is_young self.now.moment r.item.now ≡ true) }
        ensures steady { IfOk result (λ r. IsSteady self.now.site self.now.moment r.node.now) }
        ensures cause { IfErr result (λ fault. RefusesItem number self.now fault) }
    {
        let item = self.log.items.item_at(number)?;
        let Some(NodeFound { place, port, node }) = self.at(addressee_of(item)) else {
            return Err(Fault::NoSuch);
        };
        in_time(item, self.moment)?;
        Ok(Recipient {
            item,
            place,
            port,
            node,
        })
    }

    /// Returns the node of a name, with all that it is.
    #[tactic(auto, using(crate::proofs::FindingLaws::node_rules))]
    pub fn node_of(&self, name: &[u8]) -> Option<&SiteNode<A>>
        ensures node { IfSome result (λ node. HasNode name.now self.now node.now) }
        ensures none { IfNone result (IsNobody name.now self.now.nodes) }
    {
        let Some(NamedNode { node, .. }) = self.named(name) else {
            return None;
        };
        Some(node)
    }

    /// Returns the objects of the device of a name.
    #[tactic(auto, using(crate::proofs::FindingLaws::table_rules))]
    pub fn table(&self, name: &[u8]) -> Option<&Table<A>>
        ensures table { IfSome result (λ table. HasTable name.now self.now table.now) }
        ensures none { IfNone result (HasNoTable name.now self.now) }
    {
        let Some(NamedNode { node, .. }) = self.named(name) else {
            return None;
        };
        match node.part() {
            Part::Device(device) => Some(device.table()),
            Part::Client(_) | Part::Router(_) | Part::Manager { .. } => None,
        }
    }
}
