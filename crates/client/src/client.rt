//! A client on its network, its wake, and the commit of what is planned.

use crate::plan::{ClientChange, ClientPlan, ClientTold};
use bindings::{Binding, binding_of, mark_refused, put_binding};
use client_tsm::{ClientTsm, ClientTsmPlan, Transaction};
use npdu::{Mac, Station};
use profile::LinkKind;
use std::alloc::{AllocError, Allocator};
use std::marker::Model;
use tags::Fault;
use unitdata::{longest_apdu, parcels_of};

/// A client on its network.
#[derive(Drop)]
pub struct Client<A: Allocator> {
    pub(crate) alloc: A,
    pub(crate) machine: ClientTsm<A>,
    pub(crate) bindings: Vec<Binding, A>,
    pub(crate) net: u16,
    pub(crate) mac: Mac,
}

impl<A: Allocator> Model for Client<A> {
    ghost use Rattle.client.specs.Client.{ClientState};

    ghost Value = { ClientState A };

    ghost view = { λ c. record {
      machine = c.machine;
      bindings = c.bindings.items;
      net = c.net;
      mac = c.mac;
    } };
}

impl<A: Allocator + Copy> Client<A> {
    ghost use Rattle.std.specs.Prelude.{◌≡◌, ◌<◌, ◌≤◌, ◌^◌, [], true, IfOk, IfErr, OnOk, OnErr};
    ghost use Rattle.client_tsm.specs.Client.{committed};
    ghost use Rattle.client_tsm.specs.Steps.{told_of_plan};
    ghost use Rattle.client_tsm.specs.Waking.{is_quiet, woken};
    ghost use Rattle.bindings.specs.Binding as spec;
    ghost use Rattle.client.specs.Client.{new_client};
    ghost use Rattle.client.specs.Plan.{ChangesSomething, IsPlanned, IsPlannedChange, left_by, left_of, told_by};
    ghost use Rattle.unitdata.specs.Sizes.{longest_apdu};
    ghost use Rattle.client.specs.Saying.{told_of};
    ghost use Rattle.profile.specs.Times.{MAX_MOMENT_MS};
    ghost use Rattle.due_times.specs.Until.{Until};

    /// A client at this address on this kind of link, that is bound to no device and has asked nothing, whose memory
    /// will be that of `alloc`. It takes answers in segments or not, in APDUs of at most what the link carries
    /// (20.1.2.5). It takes no memory.
    pub fn new(alloc: A, address: Station, segmented: bool, link: LinkKind) -> Self
        ensures { result ≡ new_client address segmented (longest_apdu link) }
    {
        Client {
            alloc,
            machine: ClientTsm::new(alloc, segmented, longest_apdu(link)),
            bindings: Vec::new(alloc),
            net: address.net,
            mac: address.mac,
        }
    }

    /// The moment of the last call that went to its client of transactions and was not refused, in milliseconds.
    pub fn moment(&self) -> u64
        ensures { result ≡ self.now.machine.moment }
    {
        self.machine.moment()
    }

    /// Returns where it is (6.1).
    pub fn station(&self) -> Station
        ensures { result ≡ record { net = self.now.net; mac = self.now.mac } }
    {
        Station {
            net: self.net,
            mac: self.mac,
        }
    }

    /// The devices that it is bound to, in the order of their first I-Ams.
    pub fn bindings(&self) -> &[Binding]
        ensures { result.now ≡ self.now.bindings }
    {
        self.bindings.as_slice()
    }

    /// The binding of the device of this instance.
    pub fn binding(&self, instance: u32) -> Option<Binding>
        ensures { result ≡ spec.binding_of instance self.now.bindings }
    {
        binding_of(self.bindings.as_slice(), instance)
    }

    /// Its requests that have neither an answer nor an end (5.4.4).
    pub fn open_requests(&self) -> &[Transaction<A>]
        ensures { result.now ≡ self.now.machine.open_ones }
    {
        self.machine.open_ones()
    }

    /// An equal client, in the same memory.
    ///
    /// # Errors
    /// Want of memory.
    pub fn copy(&self) -> Result<Self, AllocError>
        ensures { IfOk result (λ copy. copy ≡ self.now) }
    {
        Ok(Client {
            alloc: self.alloc,
            machine: self.machine.copy()?,
            bindings: Vec::from_slice(self.alloc, self.bindings.as_slice())?,
            net: self.net,
            mac: self.mac,
        })
    }

    /// Wakes at the moment `now`, in milliseconds: says again what is due of its requests, and ends what is too old.
    ///
    /// # Errors
    /// `Memory` alone. The client is then as it was.
    pub fn on_tick(&mut self, now: u64) -> Result<ClientTold<A>, Fault>
        requires greatest { now ≤ MAX_MOMENT_MS }
        requires order { self.old.machine.moment ≤ now }
        ensures told { IfOk result (λ told. told ≡
            told_of now self.old.mac (told_of_plan (woken now self.old.machine.open_ones))) }
        ensures left { OnOk result (self.new ≡ record self.old {
          machine = committed now (woken now self.old.machine.open_ones).change self.old.machine;
        }) }
        ensures cause { IfErr result (λ fault. fault ≡ Fault.Memory) }
        ensures unchanged { OnErr result (self.new ≡ self.old) }
    {
        let plan = self.plan_tick(now)?;
        self.commit(plan, now)
    }

    /// What it does when it wakes at the moment `now`, in milliseconds: `commit` does it.
    ///
    /// # Errors
    /// `Memory` alone.
    pub fn plan_tick(&self, now: u64) -> Result<ClientPlan<A>, Fault>
        ensures told { IfOk result (λ plan. told_by plan ≡
            told_of now self.now.mac (told_of_plan (woken now self.now.machine.open_ones))) }
        ensures left { IfOk result (λ plan. left_by now plan self.now ≡ record self.now {
          machine = committed now (woken now self.now.machine.open_ones).change self.now.machine;
        }) }
        ensures planned { IfOk result (IsPlanned now self.now) }
        ensures cause { IfErr result (λ fault. fault ≡ Fault.Memory) }
    {
        let plan = self.machine.plan_tick(now)?;
        self.said_by(plan, now)
    }

    /// Whether nothing is due where it wakes at the moment `now`, in milliseconds.
    pub fn is_quiet(&self, now: u64) -> bool
        ensures { result ≡ is_quiet now self.now.machine.open_ones }
    {
        self.machine.is_quiet(now)
    }

    /// Returns a moment, in milliseconds, before which nothing is due where it wakes.
    pub fn next_due(&self) -> u64
        ensures { Until result (λ now. is_quiet now self.now.machine.open_ones ≡ true) }
    {
        self.machine.next_due()
    }

    /// Wakes at the moment `now`, in milliseconds, where nothing is due: it says and tells nothing, and all that it
    /// asked goes on. It takes no memory.
    pub fn wake_quietly(&mut self, now: u64)
        requires { is_quiet now self.old.machine.open_ones ≡ true }
        ensures said { (woken now self.old.machine.open_ones).said ≡ [] }
        ensures told { (woken now self.old.machine.open_ones).told ≡ [] }
        ensures left { self.new ≡ record self.old {
          machine = committed now (woken now self.old.machine.open_ones).change self.old.machine;
        } }
    {
        self.machine.wake_quietly(now);
    }

    /// What its client of transactions plans at the moment `now`, in milliseconds, with what is said in parcels.
    pub(crate) fn said_by(&self, plan: ClientTsmPlan<A>, now: u64) -> Result<ClientPlan<A>, Fault>
        ensures told { IfOk result (λ done. told_by done ≡ told_of now self.now.mac (told_of_plan plan)) }
        ensures change { IfOk result (λ done. done.change ≡ ClientChange.Transacts plan.change) }
        ensures cause { IfErr result (λ fault. fault ≡ Fault.Memory) }
    {
        let ClientTsmPlan { said, told, change } = plan;
        let said = parcels_of(self.alloc, self.mac, now, said.as_slice())?;
        Ok(ClientPlan {
            said,
            outcomes: told,
            change: ClientChange::Transacts(change),
        })
    }

    /// Does what was planned at the moment `now`, in milliseconds, with no other input between, and answers what is
    /// said and told. It takes what memory it must first, and none once anything has changed.
    ///
    /// # Errors
    /// `Memory` alone, and only where something is to change. The client is then as it was.
    pub fn commit(&mut self, plan: ClientPlan<A>, now: u64) -> Result<ClientTold<A>, Fault>
        requires greatest { now ≤ MAX_MOMENT_MS }
        requires order { self.old.machine.moment ≤ now }
        requires planned { IsPlanned now self.old plan }
        ensures told { IfOk result (λ told. told ≡ told_by plan) }
        ensures left { OnOk result (self.new ≡ left_by now plan self.old) }
        ensures changes { OnErr result (ChangesSomething plan.change) }
        ensures cause { IfErr result (λ fault. fault ≡ Fault.Memory) }
        ensures unchanged { OnErr result (self.new ≡ self.old) }
    {
        let ClientPlan {
            said,
            outcomes,
            change,
        } = plan;
        self.change(change, now)?;
        Ok(ClientTold { said, outcomes })
    }

    /// Makes a change.
    fn change(&mut self, change: ClientChange<A>, now: u64) -> Result<(), Fault>
        requires greatest { now ≤ MAX_MOMENT_MS }
        requires order { self.old.machine.moment ≤ now }
        requires planned { IsPlannedChange now self.old change }
        ensures left { OnOk result (self.new ≡ left_of now change self.old) }
        ensures changes { OnErr result (ChangesSomething change) }
        ensures cause { IfErr result (λ fault. fault ≡ Fault.Memory) }
        ensures unchanged { OnErr result (self.new ≡ self.old) }
    {
        match change {
            ClientChange::Stays => {}
            ClientChange::Refuses(rejected) => mark_refused(&mut self.bindings, rejected),
            ClientChange::Binds(binding) => put_binding(&mut self.bindings, binding)?,
            ClientChange::Transacts(change) => self.machine.commit(change, now)?,
        }
        Ok(())
    }
}
