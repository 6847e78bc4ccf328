//! What a node makes of what it hears.

ghost use Rattle.std.specs.Prelude.{◌≡◌, ◌≤◌, ◌⊎◌, [], false, IfOk, IfErr, OnOk};
ghost use Rattle.profile.specs.Times.{MAX_MOMENT_MS};
ghost use Rattle.bbmd_manager.specs.Manager as forwarding;
ghost use Rattle.bvll.specs.Address.{address_at};
ghost use Rattle.site_node.specs.Manager.{HearsFrom, IsTooLong};
ghost use Rattle.site_node.specs.Plan.{Manages};
ghost use Rattle.site_node.specs.Node.{IsBefore};
ghost use Rattle.site_node.specs.Part.{IsPlanned, downs_of, told_by};
ghost use Rattle.site_node.specs.Part as part;
ghost use Rattle.site_node.specs.Plan.{left_by, is_restart};
ghost use Rattle.site_node.specs.Refusals.{FrameIsRefused, HearingIsRefused, RefusesOn};
ghost use Rattle.site_node.specs.Steps.{HearsOn, NodeCounts, NodeHears, NodeHearsFrame};
ghost use Rattle.site_ports.specs.Drafts.{drafted};
ghost use Rattle.site_ports.specs.Ports.{AreBefore, DownsEach, IsOneTooLong, places_of};

use crate::drafting::{count_first, hear_first, hear_on};
use crate::node::SiteNode;
use crate::part::Part;
use crate::plan::PartPlan;
use crate::stamping::put_out;
use bbmd::Bbmd;
use bvll::Address;
use npdu::Mac;
use site_ports::Draft;
use std::alloc::Allocator;
use tags::Fault;

// The count of an array is known to a contract where the array is a parameter.
fn address_of(octets: &[u8; 6]) -> Address
    ensures { result ≡ address_at octets.now }
{
    Address::from_octets(octets.as_slice())
}

/// Returns what a manager knows once it has heard octets from an address of BACnet/IP, said at the moment `stamp`, at
/// the moment `now`, in milliseconds, and appends what it puts out (J.2, J.4.5, J.5).
///
/// # Errors
/// `TooLong` for an NPDU that it would carry on and that is longer than one may be on BACnet/IP; or `Memory`.
#[tactic(auto, using(crate::proofs::Stamps::stamp_rules))]
fn manager_takes<A: Allocator + Copy>(
    manager: &Bbmd<A>,
    from: &[u8; 6],
    octets: &[u8],
    stamp: u64,
    now: u64,
    draft: &mut Draft<A>,
) -> Result<Bbmd<A>, Fault>
    requires greatest { now ≤ MAX_MOMENT_MS }
    requires order { manager.now.moment ≤ now }
    requires empty { draft.old.out ≡ [] }
    ensures hears { IfOk result (λ left. HearsFrom now (address_at from.now) octets.now stamp manager.now draft.new.out
        left) }
    ensures changes { draft.new.changes ≡ draft.old.changes }
    ensures cause { IfErr result (λ fault. (fault ≡ Fault.Memory) ⊎
        ((fault ≡ Fault.TooLong) × forwarding.IsTooLong now (address_at from.now) octets.now manager.now)) }
{
    let mut next = manager.copy()?;
    let said = next.on_datagram(address_of(from), octets, now)?;
    put_out(said, stamp, now, &mut draft.out)?;
    Ok(next)
}

/// Returns what a manager does of octets from an address: those from an address of another kind than its own are
/// dropped (J.1.2).
fn manager_hears<A: Allocator + Copy>(
    manager: &Bbmd<A>,
    from: Mac,
    octets: &[u8],
    stamp: u64,
    now: u64,
    draft: &mut Draft<A>,
) -> Result<PartPlan<A>, Fault>
    requires greatest { now ≤ MAX_MOMENT_MS }
    requires order { manager.now.moment ≤ now }
    ensures hears { IfOk result (λ plan. Manages now from octets.now stamp manager.now draft.new.out plan) }
    ensures changes { draft.new.changes.items ≡ [] }
    ensures cause { IfErr result (λ fault. (fault ≡ Fault.Memory) ⊎
        ((fault ≡ Fault.TooLong) × IsTooLong now from octets.now manager.now)) }
{
    draft.clear();
    match from {
        Mac::Six(from) => {
            let left = manager_takes(manager, &from, octets, stamp, now, draft)?;
            Ok(PartPlan::Manages(left))
        }
        Mac::One(_) => Ok(PartPlan::Nothing),
    }
}

impl<A: Allocator + Copy> SiteNode<A> {
    /// Returns what it does where octets from an address, said at the moment `stamp`, are heard on a port at the moment
    /// `now`, in milliseconds, and drafts what its ports do of it: `commit` does it. A manager hears all at its one
    /// address (6.5, J.4.5).
    ///
    /// # Errors
    /// What the port refuses of octets; `TableFull` where a client has no place for one more binding, or a router none
    /// for one more route; `TooLong` where what is said is too long for its port, or what a manager would carry on for
    /// BACnet/IP; or `Memory`.
    pub fn plan_hears(
        &self,
        port: usize,
        from: Mac,
        octets: &[u8],
        stamp: u64,
        now: u64,
        draft: &mut Draft<A>,
    ) -> Result<PartPlan<A>, Fault>
        requires greatest { now ≤ MAX_MOMENT_MS }
        requires before { IsBefore now self.now }
        ensures hears { IfOk result (λ plan. NodeHears now port from octets.now stamp self.now
            (record { told = told_by plan; out = draft.new.out }) (left_by now plan draft.new.changes.items self.now)) }
        ensures planned { IfOk result (IsPlanned now self.now.part) }
        ensures cause { IfErr result (λ fault. (fault ≡ Fault.Memory) ⊎
            HearingIsRefused now port from octets.now stamp self.now fault) }
    {
        if let Part::Manager { manager, .. } = &self.part {
            let managed = manager_hears(manager, from, octets, stamp, now, draft)?;
            return Ok(managed);
        }
        let ports = self.ports.as_slice();
        let plan = hear_first(ports, &self.part, port, from, octets, stamp, now, draft)?;
        Ok(plan)
    }

    /// Returns what it does where so many octets are heard on a port at the moment `now`, in milliseconds, and no frame
    /// ends with them, and drafts what its port does of it: `commit` does it (9.5.2).
    ///
    /// # Errors
    /// `Memory` alone.
    pub fn plan_octets(
        &self,
        port: usize,
        count: usize,
        now: u64,
        draft: &mut Draft<A>,
    ) -> Result<PartPlan<A>, Fault>
        requires greatest { now ≤ MAX_MOMENT_MS }
        requires before { IsBefore now self.now }
        ensures counts { IfOk result (λ plan. NodeCounts now port count self.now
            (record { told = told_by plan; out = draft.new.out }) (left_by now plan draft.new.changes.items self.now)) }
        ensures planned { IfOk result (IsPlanned now self.now.part) }
        ensures cause { IfErr result (λ fault. fault ≡ Fault.Memory) }
    {
        count_first(self.ports.as_slice(), port, count, now, draft)?;
        Ok(PartPlan::Nothing)
    }

    /// Returns what it does where so many octets are heard on a port at the moment `now`, in milliseconds, and then the
    /// frame that they end, from an address, said at the moment `stamp`, and drafts what its ports do of it: `commit`
    /// does it. A manager is on no bus (9.5.2).
    ///
    /// # Errors
    /// What the port refuses of octets; `TableFull` where a client has no place for one more binding, or a router none
    /// for one more route; `TooLong` where what is said is too long for its port; or `Memory`.
    pub fn plan_frame(
        &self,
        port: usize,
        count: usize,
        from: Mac,
        octets: &[u8],
        stamp: u64,
        now: u64,
        draft: &mut Draft<A>,
    ) -> Result<PartPlan<A>, Fault>
        requires greatest { now ≤ MAX_MOMENT_MS }
        requires before { IsBefore now self.now }
        ensures hears { IfOk result (λ plan. NodeHearsFrame now port count from octets.now stamp self.now
            (record { told = told_by plan; out = draft.new.out }) (left_by now plan draft.new.changes.items self.now)) }
        ensures planned { IfOk result (IsPlanned now self.now.part) }
        ensures cause { IfErr result (λ fault. (fault ≡ Fault.Memory) ⊎
            FrameIsRefused now port count from octets.now stamp self.now fault) }
    {
        let ports = self.ports.as_slice();
        count_first(ports, port, count, now, draft)?;
        let plan = hear_on(ports, &self.part, port, from, octets, stamp, now, draft)?;
        Ok(plan)
    }
}
