//! What a node is, and what it makes of an input, whatever its kind.

ghost use Rattle.std.specs.Prelude.{◌≡◌, ◌≤◌, ◌⊎◌, [], true, false, Some, IfOk, IfErr, OnOk, OnErr};
ghost use Rattle.link.specs.Up.{parcel_of};
ghost use Rattle.primitives.specs.Sound.{IsSoundRequest};
ghost use Rattle.profile.specs.Times.{MAX_MOMENT_MS};
ghost use Rattle.due_times.specs.Until.{Until};
ghost use Rattle.router.specs.Hearing.{IsOverfull, RouterHears};
ghost use Rattle.router.specs.Plan as routing;
ghost use Rattle.site_node.specs.Node.{home_of, moment_of};
ghost use Rattle.site_node.specs.Part as spec;
ghost use Rattle.site_node.specs.Part.{IsClient, IsDevice, IsNoClient, IsNoDevice, IsPlanned, PartAsks, PartHears};
ghost use Rattle.site_node.specs.Part.{IsSilent, PartIssues, RefusesMessage, awake, downs_awake, downs_of};
ghost use Rattle.site_node.specs.Part.{issue_refusal, left_by, silence};
ghost use Rattle.site_node.specs.Part.{told_awake, told_by};
ghost use Rattle.site_node.specs.Plan.{is_restart};
ghost use Rattle.site_ports.specs.Ports.{over};

use crate::plan::PartPlan;
use crate::told::{PartTold, by_client, by_device, says};
use apdu::Limits;
use bbmd::Bbmd;
use client::{Client, ClientPlan};
use device::{Device, DevicePlan};
use link::Up;
use npdu::{Mac, Station};
use objects::Table;
use primitives::Request;
use router::{Router, RouterPlan};
use std::alloc::{AllocError, Allocator};
use tags::{Fault, Items};

/// What a node is.
#[derive(Drop)]
pub enum Part<A: Allocator + Copy> {
    /// A device with its objects (12).
    Device(Device<A>),
    /// A client (5.4.4).
    Client(Client<A>),
    /// A router (6.6).
    Router(Router<A>),
    /// A broadcast manager of the network of BACnet/IP of a number, 1..=65534 (J.4).
    Manager {
        /// The network.
        net: u16,
        /// The manager.
        manager: Bbmd<A>,
    },
}

/// Returns what a router does where a message comes up on a port. Its octets stay where they lie.
///
/// # Errors
/// `TableFull` where it has no place for one more route; or `Memory`.
fn route<A: Allocator + Copy>(
    router: &Router<A>,
    port: usize,
    up: Up<'_>,
    now: u64,
) -> Result<RouterPlan<A>, Fault>
    ensures hears { IfOk result (λ plan.
        RouterHears now port (parcel_of up.entry) router.now plan.out (routing.left_by now plan router.now)) }
    ensures cause { IfErr result (λ fault. (fault ≡ Fault.Memory) ⊎
        ((fault ≡ Fault.TableFull) × IsOverfull port (parcel_of {A = A} up.entry) router.now)) }
{
    let plan = router.plan_npdu(port, up.from, up.to, up.npdu, up.stamp, now)?;
    Ok(plan)
}

impl<A: Allocator + Copy> Part<A> {
    /// Returns where its application entity is: on network 0 for a router and a manager, which have none (6.2.2).
    pub fn home(&self) -> Station
        ensures { result ≡ home_of self.now }
    {
        match self {
            Part::Device(device) => device.station(),
            Part::Client(client) => client.station(),
            Part::Router(_) | Part::Manager { .. } => Station {
                net: 0,
                mac: Mac::One(0),
            },
        }
    }

    /// Returns an equal part, in the same memory.
    ///
    /// # Errors
    /// Want of memory.
    pub fn copy(&self) -> Result<Self, AllocError>
        ensures { IfOk result (λ copy. copy ≡ self.now) }
    {
        match self {
            Part::Device(device) => Ok(Part::Device(device.copy()?)),
            Part::Client(client) => Ok(Part::Client(client.copy()?)),
            Part::Router(router) => Ok(Part::Router(router.copy()?)),
            Part::Manager { net, manager } => Ok(Part::Manager {
                net: *net,
                manager: manager.copy()?,
            }),
        }
    }

    /// Returns the moment of the last call that it didn't refuse, in milliseconds.
    pub fn moment(&self) -> u64
        ensures { result ≡ moment_of self.now }
    {
        match self {
            Part::Device(device) => device.moment(),
            Part::Client(client) => client.moment(),
            Part::Router(router) => router.moment(),
            Part::Manager { manager, .. } => manager.moment(),
        }
    }

    /// Returns what it does where a message comes up on the port of this number at the moment `now`, in milliseconds:
    /// `commit` does it. A manager, which has no port, does nothing of it.
    ///
    /// # Errors
    /// `TableFull` where a client has no place for one more binding, or a router none for one more route; or `Memory`.
    pub(crate) fn plan_message(
        &self,
        port: usize,
        up: Up<'_>,
        now: u64,
    ) -> Result<PartPlan<A>, Fault>
        ensures hears { IfOk result (λ plan. PartHears now port (parcel_of up.entry) self.now (told_by plan)
            (downs_of plan) (left_by now plan self.now)) }
        ensures planned { IfOk result (IsPlanned now self.now) }
        ensures none { IfOk result (λ plan. is_restart plan ≡ false) }
        ensures cause { IfErr result (λ fault. (fault ≡ Fault.Memory) ⊎
            ((fault ≡ Fault.TableFull) × RefusesMessage port (parcel_of up.entry) self.now)) }
    {
        match self {
            Part::Device(device) => {
                let plan = device.plan_npdu(up.from, up.to, up.npdu, now)?;
                Ok(PartPlan::Device(plan))
            }
            Part::Client(client) => {
                let plan = client.plan_npdu(up.from, up.to, up.npdu, now)?;
                Ok(PartPlan::Client(plan))
            }
            Part::Router(router) => Ok(PartPlan::Router(route(router, port, up, now)?)),
            Part::Manager { .. } => Ok(PartPlan::Nothing),
        }
    }

    /// Returns what it does where it wakes at the moment `now`, in milliseconds: `commit` does it.
    ///
    /// # Errors
    /// `Memory` alone.
    pub(crate) fn plan_tick(&self, now: u64) -> Result<PartPlan<A>, Fault>
        ensures told { IfOk result (λ plan. told_by plan ≡ told_awake now self.now) }
        ensures downs { IfOk result (λ plan. downs_of plan ≡ downs_awake now self.now) }
        ensures left { IfOk result (λ plan. left_by now plan self.now ≡ awake now self.now) }
        ensures none { IfOk result (λ plan. is_restart plan ≡ false) }
        ensures planned { IfOk result (IsPlanned now self.now) }
        ensures cause { IfErr result (λ fault. fault ≡ Fault.Memory) }
    {
        match self {
            Part::Device(device) => Ok(PartPlan::Device(device.plan_tick(now)?)),
            Part::Client(client) => Ok(PartPlan::Client(client.plan_tick(now)?)),
            Part::Router(router) => Ok(PartPlan::Router(router.plan_tick(now)?)),
            Part::Manager { .. } => Ok(PartPlan::Forgets),
        }
    }

    /// Returns whether nothing is due where it wakes at the moment `now`, in milliseconds: none of its timers expires
    /// (5.4.1), and a router has woken before (6.6.2). Of a manager nothing ever is.
    pub fn is_quiet(&self, now: u64) -> bool
        ensures { result ≡ spec.is_quiet now self.now }
    {
        match self {
            Part::Device(device) => device.is_quiet(now),
            Part::Client(client) => client.is_quiet(now),
            Part::Router(router) => router.has_woken(),
            Part::Manager { .. } => true,
        }
    }

    /// Returns a moment, in milliseconds, before which nothing is due where it wakes.
    #[tactic(auto, using(crate::proofs::Dues::part_rules))]
    pub(crate) fn next_due(&self) -> u64
        ensures { Until result (λ now. spec.is_quiet now self.now ≡ true) }
    {
        match self {
            Part::Device(device) => device.next_due(),
            Part::Client(client) => client.next_due(),
            Part::Router(router) => { if router.has_woken() { u64::MAX } else { 0 } }
            Part::Manager { .. } => u64::MAX,
        }
    }

    /// Wakes at the moment `now`, in milliseconds, where nothing is due: it says, executes and tells nothing. It takes
    /// no memory.
    #[tactic(auto, using(crate::proofs::Quiet::quiet_rules))]
    pub(crate) fn wake_quietly(&mut self, now: u64)
        requires greatest { now ≤ MAX_MOMENT_MS }
        requires order { moment_of self.old ≤ now }
        requires quiet { spec.is_quiet now self.old ≡ true }
        ensures told { told_awake now self.old ≡ silence }
        ensures downs { downs_awake now self.old ≡ [] }
        ensures left { self.new ≡ awake now self.old }
    {
        match self {
            Part::Device(device) => device.wake_quietly(now),
            Part::Client(client) => client.wake_quietly(now),
            Part::Router(router) => router.wake_again(now),
            Part::Manager { manager, .. } => manager.on_tick(now),
        }
    }

    /// Returns what an issue of a request to the device of this instance comes to at the moment `now`, in milliseconds,
    /// and the invoke ID that is given: `commit` does it (5.4.4.1).
    ///
    /// # Errors
    /// `NoSuch` where it is no client; those of `Client::issue`; or `Memory`, of a client alone.
    pub(crate) fn plan_issue(
        &self,
        alloc: A,
        instance: u32,
        request: &Request<A>,
        now: u64,
    ) -> Result<(u8, PartPlan<A>), Fault>
        requires sound { IsSoundRequest request.now }
        ensures issued { IfOk result (λ p.
            PartIssues now instance request.now self.now p.0 (told_by p.1) (left_by now p.1 self.now)) }
        ensures downs { IfOk result (λ p. downs_of p.1 ≡ over spec.ITS_PORT (told_by p.1).said) }
        ensures none { IfOk result (λ p. is_restart p.1 ≡ false) }
        ensures planned { IfOk result (λ p. IsPlanned now self.now p.1) }
        ensures cause { IfErr result (λ fault. ((fault ≡ Fault.Memory) × IsClient self.now) ⊎
            (issue_refusal now instance request.now self.now ≡ Some fault)) }
    {
        let Part::Client(client) = self else {
            return Err(Fault::NoSuch);
        };
        let issue = client.plan_issue(instance, request, now)?;
        let mut plan = issue.plan;
        plan.outcomes = Items::new(alloc);
        Ok((issue.invoke_id, PartPlan::Client(plan)))
    }

    /// Returns what a question who is there comes to at the moment `now`, in milliseconds: `commit` does it (16.10.1).
    ///
    /// # Errors
    /// `NoSuch` where it is no client; or `Memory`, of a client alone.
    pub(crate) fn plan_ask(
        &self,
        alloc: A,
        limits: Option<Limits>,
        now: u64,
    ) -> Result<PartPlan<A>, Fault>
        requires greatest { now ≤ MAX_MOMENT_MS }
        requires order { moment_of self.now ≤ now }
        ensures asks { IfOk result (λ plan.
            PartAsks now limits self.now (told_by plan) (left_by now plan self.now)) }
        ensures downs { IfOk result (λ plan. downs_of plan ≡ over spec.ITS_PORT (told_by plan).said) }
        ensures none { IfOk result (λ plan. is_restart plan ≡ false) }
        ensures planned { IfOk result (IsPlanned now self.now) }
        ensures cause { IfErr result (λ fault. ((fault ≡ Fault.Memory) × IsClient self.now) ⊎
            ((fault ≡ Fault.NoSuch) × IsNoClient self.now)) }
    {
        let Part::Client(client) = self else {
            return Err(Fault::NoSuch);
        };
        let mut said = Items::new(alloc);
        said.push(client.who_is(limits, now)?)?;
        Ok(PartPlan::Says(said))
    }

    /// Returns whether it is a device, which alone restarts (12).
    pub(crate) fn restarts(&self) -> bool
        ensures device { (result ≡ true) → IsDevice self.now }
        ensures other { (result ≡ false) → IsNoDevice self.now }
    {
        match self {
            Part::Device(_) => true,
            Part::Client(_) | Part::Router(_) | Part::Manager { .. } => false,
        }
    }

    /// Does what was planned at the moment `now`, in milliseconds, with no other input between, and returns what is
    /// said, executed and told. It takes what memory it must first, and none once anything has changed.
    ///
    /// # Errors
    /// `Memory` alone. The part is then as it was.
    pub(crate) fn commit(
        &mut self,
        alloc: A,
        plan: PartPlan<A>,
        now: u64,
    ) -> Result<PartTold<A>, Fault>
        requires greatest { now ≤ MAX_MOMENT_MS }
        requires order { moment_of self.old ≤ now }
        requires planned { IsPlanned now self.old plan }
        ensures told { IfOk result (λ told. told ≡ told_by plan) }
        ensures left { OnOk result (self.new ≡ left_by now plan self.old) }
        ensures cause { IfErr result (λ fault. fault ≡ Fault.Memory) }
        ensures unchanged { OnErr result (self.new ≡ self.old) }
    {
        match plan {
            PartPlan::Device(plan) => self.commit_device(alloc, plan, now),
            PartPlan::Client(plan) => self.commit_client(alloc, plan, now),
            PartPlan::Says(said) => Ok(says(alloc, said)),
            PartPlan::Nothing
            | PartPlan::Router(_)
            | PartPlan::Manages(_)
            | PartPlan::Forgets
            | PartPlan::Restarts(_) => {
                self.change(plan, now);
                Ok(says(alloc, Items::new(alloc)))
            }
        }
    }

    /// A device does what it planned.
    fn commit_device(
        &mut self,
        alloc: A,
        plan: DevicePlan<A>,
        now: u64,
    ) -> Result<PartTold<A>, Fault>
        requires greatest { now ≤ MAX_MOMENT_MS }
        requires order { moment_of self.old ≤ now }
        requires planned { IsPlanned now self.old (PartPlan.Device plan) }
        ensures told { IfOk result (λ told. told ≡ told_by (PartPlan.Device plan)) }
        ensures left { OnOk result (self.new ≡ left_by now (PartPlan.Device plan) self.old) }
        ensures cause { IfErr result (λ fault. fault ≡ Fault.Memory) }
        ensures unchanged { OnErr result (self.new ≡ self.old) }
    {
        match self {
            Part::Device(device) => Ok(by_device(alloc, device.commit(plan, now)?)),
            Part::Client(_) | Part::Router(_) | Part::Manager { .. } => {
                Ok(says(alloc, Items::new(alloc)))
            }
        }
    }

    /// A client does what it planned.
    fn commit_client(
        &mut self,
        alloc: A,
        plan: ClientPlan<A>,
        now: u64,
    ) -> Result<PartTold<A>, Fault>
        requires greatest { now ≤ MAX_MOMENT_MS }
        requires order { moment_of self.old ≤ now }
        requires planned { IsPlanned now self.old (PartPlan.Client plan) }
        ensures told { IfOk result (λ told. told ≡ told_by (PartPlan.Client plan)) }
        ensures left { OnOk result (self.new ≡ left_by now (PartPlan.Client plan) self.old) }
        ensures cause { IfErr result (λ fault. fault ≡ Fault.Memory) }
        ensures unchanged { OnErr result (self.new ≡ self.old) }
    {
        match self {
            Part::Client(client) => Ok(by_client(client.commit(plan, now)?)),
            Part::Device(_) | Part::Router(_) | Part::Manager { .. } => {
                Ok(says(alloc, Items::new(alloc)))
            }
        }
    }

    /// A device restarts with these objects.
    fn restart(&mut self, opening: Table<A>, now: u64)
        requires greatest { now ≤ MAX_MOMENT_MS }
        requires order { moment_of self.old ≤ now }
        ensures { self.new ≡ left_by now (PartPlan.Restarts opening) self.old }
    {
        let Part::Device(device) = self else {
            return;
        };
        device.restart(opening, now);
    }

    /// Does what was planned, where nothing is said of it. It takes no memory, and is never refused.
    fn change(&mut self, plan: PartPlan<A>, now: u64)
        requires greatest { now ≤ MAX_MOMENT_MS }
        requires order { moment_of self.old ≤ now }
        requires silent { IsSilent plan }
        ensures left { self.new ≡ left_by now plan self.old }
    {
        match plan {
            PartPlan::Router(plan) => {
                if let Part::Router(router) = self {
                    let _ = router.commit(plan, now);
                }
            }
            PartPlan::Manages(next) => {
                if let Part::Manager { manager, .. } = self {
                    *manager = next;
                }
            }
            PartPlan::Forgets => {
                if let Part::Manager { manager, .. } = self {
                    manager.on_tick(now);
                }
            }
            PartPlan::Restarts(opening) => self.restart(opening, now),
            PartPlan::Nothing | PartPlan::Device(_) | PartPlan::Client(_) | PartPlan::Says(_) => {}
        }
    }
}
