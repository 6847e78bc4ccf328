//! A node with its ports.

ghost use Rattle.std.specs.Prelude.{◌≡◌, ◌≤◌, ◌∷◌, [], IfOk, IfErr, OnOk, OnErr, length, slice_get};
ghost use Rattle.profile.specs.Times.{MAX_MOMENT_MS};
ghost use Rattle.site_node.specs.Node as spec;
ghost use Rattle.site_node.specs.Node.{IsBefore, node_places};
ghost use Rattle.site_node.specs.Part.{IsPlanned, told_by};
ghost use Rattle.site_node.specs.Plan.{left_by, ports_by};
ghost use Rattle.site_ports.specs.Ports.{AreBefore, places_of};

use crate::part::Part;
use crate::plan::PartPlan;
use crate::told::PartTold;
use bbmd::Bbmd;
use link::Link;
use npdu::{Mac, Station};
use site_ports::{Draft, SitePort, restart_all, settle};
use std::alloc::{AllocError, Allocator};
use std::marker::Model;
use tags::{Fault, Octets};

/// A node of a site: its name, its ports in order, and what it is. A broadcast manager, which hears datagrams at its
/// one address, has no port.
#[derive(Drop)]
pub struct SiteNode<A: Allocator + Copy> {
    pub(crate) alloc: A,
    pub(crate) name: Octets<A>,
    pub(crate) ports: Vec<SitePort<A>, A>,
    pub(crate) part: Part<A>,
}

impl<A: Allocator + Copy> Model for SiteNode<A> {
    ghost use Rattle.site_node.specs.Node.{NodeState};

    ghost Value = { NodeState A };

    ghost view = { λ s. record { name = s.name; ports = s.ports.items; part = s.part } };
}

impl<A: Allocator + Copy> SiteNode<A> {
    /// Returns a node of this name, with these ports, in order. Memory for its calls will be that of `alloc`.
    pub fn new(alloc: A, name: Octets<A>, ports: Vec<SitePort<A>, A>, part: Part<A>) -> Self
        ensures { result ≡ record { name = name; ports = ports.items; part = part } }
    {
        SiteNode {
            alloc,
            name,
            ports,
            part,
        }
    }

    /// Returns an equal node, in the same memory.
    ///
    /// # Errors
    /// Want of memory.
    pub fn copy(&self) -> Result<Self, AllocError>
        ensures { IfOk result (λ copy. copy ≡ self.now) }
    {
        let name = self.name.copy(self.alloc)?;
        let ports = copy_of(self.alloc, self.ports.as_slice())?;
        let part = self.part.copy()?;
        Ok(SiteNode {
            alloc: self.alloc,
            name,
            ports,
            part,
        })
    }

    /// Returns its name.
    pub fn name(&self) -> &[u8]
        ensures { result.now ≡ self.now.name }
    {
        self.name.as_slice()
    }

    /// Returns its ports, in order.
    pub fn ports(&self) -> &[SitePort<A>]
        ensures { result.now ≡ self.now.ports }
    {
        self.ports.as_slice()
    }

    /// Returns where its port of a number is, if it has one: a manager has one place, its address (6.1, J.1.2).
    pub fn place(&self, port: usize) -> Option<Station>
        ensures { result ≡ slice_get (node_places self.now) port }
    {
        match &self.part {
            Part::Manager { net, manager } => manager_place(*net, manager, port),
            Part::Device(_) | Part::Client(_) | Part::Router(_) => {
                place_at(self.ports.as_slice(), port)
            }
        }
    }

    /// Returns how many places it has.
    pub fn place_count(&self) -> usize
        ensures { result ≡ length (node_places self.now) }
    {
        match &self.part {
            Part::Manager { .. } => 1,
            Part::Device(_) | Part::Client(_) | Part::Router(_) => self.ports.len(),
        }
    }

    /// Returns what it is.
    pub fn part(&self) -> &Part<A>
        ensures { result.now ≡ self.now.part }
    {
        &self.part
    }

    /// Does what was planned at the moment `now`, in milliseconds, with no other input between, and returns what its
    /// part says, executes and tells. It takes what memory it must first, and none once anything has changed.
    ///
    /// # Errors
    /// `Memory` alone. The node is then as it was.
    pub fn commit(
        &mut self,
        plan: PartPlan<A>,
        now: u64,
        draft: &mut Draft<A>,
    ) -> Result<PartTold<A>, Fault>
        requires greatest { now ≤ MAX_MOMENT_MS }
        requires before { IsBefore now self.old }
        requires planned { IsPlanned now self.old.part plan }
        ensures told { IfOk result (λ told. told ≡ told_by plan) }
        ensures left { OnOk result (self.new ≡ left_by now plan draft.old.changes.items self.old) }
        ensures out { draft.new.out ≡ draft.old.out }
        ensures cause { IfErr result (λ fault. fault ≡ Fault.Memory) }
        ensures unchanged { OnErr result (self.new ≡ self.old) }
    {
        let restarts = plan.restarts();
        let told = self.part.commit(self.alloc, plan, now)?;
        settle_or_restart(&mut self.ports, restarts, now, draft);
        Ok(told)
    }
}

/// Returns where the port of this number is, if there is one.
fn place_at<A: Allocator + Copy>(ports: &[SitePort<A>], port: usize) -> Option<Station>
    ensures { result ≡ slice_get (places_of ports.now) port }
{
    match ports.get(port) {
        Some(port) => Some(SitePort::station(port)),
        None => None,
    }
}

/// Returns the place of this number of a manager, which has one.
fn manager_place<A: Allocator + Copy>(net: u16, manager: &Bbmd<A>, port: usize) -> Option<Station>
    ensures { result ≡ slice_get (spec.manager_place net manager.now ∷ []) port }
{
    if port > 0 {
        return None;
    }
    Some(Station {
        net,
        mac: Mac::Six(manager.own().to_octets()),
    })
}

/// Makes what an event changes of ports, or restarts them all.
fn settle_or_restart<A: Allocator + Copy>(
    ports: &mut Vec<SitePort<A>, A>,
    restarts: bool,
    now: u64,
    draft: &mut Draft<A>,
)
    requires greatest { now ≤ MAX_MOMENT_MS }
    requires order { AreBefore now ports.old.items }
    ensures ports { ports.new.items ≡ ports_by restarts now draft.old.changes.items ports.old.items }
    ensures out { draft.new.out ≡ draft.old.out }
{
    if restarts {
        restart_all(ports, now);
    } else {
        settle(ports, draft, now);
    }
}

/// Returns equal ports.
fn copy_of<A: Allocator + Copy>(
    alloc: A,
    ports: &[SitePort<A>],
) -> Result<Vec<SitePort<A>, A>, AllocError>
    ensures { IfOk result (λ copies. copies.items ≡ ports.now) }
{
    let mut copies = Vec::with_capacity(alloc, ports.len())?;
    for port in ports {
        copies.push(SitePort::copy(port)?)?;
    }
    Ok(copies)
}
