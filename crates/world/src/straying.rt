//! A datagram that no node of the site sent.

ghost use Rattle.std.specs.Prelude.{◌≡◌, IfErr, IfOk, OnErr, OnOk};
ghost use Rattle.world.specs.Straying as spec;
ghost use Rattle.world.specs.Straying.{StrayIsRefused, Strays};

use crate::finding::addressee_of;
use crate::internetwork::Internetwork;
use npdu::{Mac, Station};
use std::alloc::{AllocError, Allocator};
use tags::{Fault, Items};
use traffic::Item;
use world_log::{Cause, Draft};
use world_sites::NodeFound;

/// Returns a datagram from outside, as an item that nobody put out, said at the moment `now` at which it comes.
fn stray_item<A: Allocator + Copy>(
    alloc: A,
    from: Mac,
    to: Station,
    octets: &[u8],
    now: u64,
) -> Result<Item<A>, AllocError>
    ensures { IfOk result (λ item. item ≡ spec.stray_item from to octets.now now) }
{
    Ok(Item {
        net: to.net,
        from,
        to: to.mac,
        octets: Items::from_slice(alloc, octets)?,
        stamp: now,
        put_out: now,
        is_delivered: false,
    })
}

impl<A: Allocator + Copy> Internetwork<A> {
    /// A datagram that no node of the site sent comes to an address of the site, from an address on its network: the
    /// node there hears it, as said at this moment (J.2). What came about so is no run of the site's own nodes, and its
    /// history need not be legal.
    ///
    /// # Errors
    /// `NoSuch` where no node is at that address; what the node refuses; or `Memory`. All is then as it was.
    pub fn stray(&mut self, from: Mac, to: Station, octets: &[u8]) -> Result<(), Fault>
        ensures strays { OnOk result (Strays (spec.stray_item from to octets.now self.old.moment) self.old self.new) }
        ensures cause { IfErr result (λ fault.
            StrayIsRefused (spec.stray_item from to octets.now self.old.moment) self.old fault) }
        ensures unchanged { OnErr result (self.new ≡ self.old) }
    {
        let item = stray_item(self.alloc, from, to, octets, self.now())?;
        let mut draft = self.lend();
        let taken = self.take(&item, &mut draft);
        self.take_back(draft);
        taken
    }

    /// The node at an item's address hears it.
    fn take(&mut self, item: &Item<A>, draft: &mut Draft<A>) -> Result<(), Fault>
        ensures strays { OnOk result (Strays item.now self.old self.new) }
        ensures cause { IfErr result (λ fault. StrayIsRefused item.now self.old fault) }
        ensures unchanged { OnErr result (self.new ≡ self.old) }
    {
        let now = self.now();
        let Some(NodeFound { place, port, node }) = self.at(addressee_of(item)) else {
            return Err(Fault::NoSuch);
        };
        let octets = item.octets.as_slice();
        let plan = node.plan_hears(port, item.from, octets, item.stamp, now, draft)?;
        self.carry_out(place, plan, draft, Cause::Nothing)?;
        Ok(())
    }
}
