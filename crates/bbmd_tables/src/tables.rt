//! The tables of a broadcast manager, and the changes of its foreign device table (J.4.3, J.5.2).

ghost use Rattle.std.specs.Prelude.{◌≡◌, ◌≤◌, ◌+◌, ◌⊎◌, true, false, length, IfOk, IfErr, OnOk, OnErr};
ghost use Rattle.profile.specs.Limits as limit;
ghost use Rattle.bbmd_tables.specs.Tables.{TablesState, has_few_peers, has_room, is_among, living, new_tables};
ghost use Rattle.bbmd_tables.specs.Tables.{registered, served, without};

use crate::addresses::{append_others, is_among};
use crate::registration::{Registration, has_room, keep_living, keep_others, served};
use bvll::Address;
use bvll::tags::Fault;
use profile::MAX_PEERS;
use std::alloc::{AllocError, Allocator};
use std::marker::Model;

/// The tables of a broadcast manager: its own address, the members of its subnet, all managers of the network, and the
/// foreign devices that are registered (J.4.3, J.5.2).
#[derive(Drop)]
pub struct ManagerTables<A: Allocator> {
    pub(crate) own: Address,
    pub(crate) members: Vec<Address, A>,
    pub(crate) managers: Vec<Address, A>,
    pub(crate) foreign: Vec<Registration, A>,
}

impl<A: Allocator> Model for ManagerTables<A> {
    ghost Value = { TablesState };

    ghost view = { λ t. record {
      own = t.own;
      members = t.members.items;
      managers = t.managers.items;
      foreign = t.foreign.items;
    } };

    ghost invariant = { λ t. (length t.managers.items ≤ limit.MAX_PEERS + 1) ×
        (length t.foreign.items ≤ limit.MAX_FOREIGN_DEVICES) };
}

impl<A: Allocator + Copy> ManagerTables<A> {
    /// The tables of a manager at the address `own`, with the members of its subnet and all managers of the network in
    /// their order, itself among them, which serves no foreign device. Their memory is that of `alloc`.
    ///
    /// # Errors
    /// `TableFull` for more than [`MAX_PEERS`] other managers, or for more than those and one in all, `Memory`.
    pub fn new(
        alloc: A,
        own: Address,
        members: &[Address],
        managers: &[Address],
    ) -> Result<Self, Fault>
        requires itself { is_among own managers.now ≡ true }
        ensures made { IfOk result (λ t. t ≡ new_tables own members.now managers.now) }
        ensures fits { OnOk result (has_few_peers own managers.now ≡ true) }
        ensures cause { IfErr result (λ e. (e ≡ Fault.Memory) ⊎
            ((e ≡ Fault.TableFull) × (has_few_peers own managers.now ≡ false))) }
    {
        let mut peers = Vec::new(alloc);
        append_others(&mut peers, own, managers)?;
        if peers.len() > MAX_PEERS || managers.len() > MAX_PEERS + 1 {
            return Err(Fault::TableFull);
        }
        Ok(ManagerTables {
            own,
            members: Vec::from_slice(alloc, members)?,
            managers: Vec::from_slice(alloc, managers)?,
            foreign: Vec::new(alloc),
        })
    }

    /// Equal tables, in the same memory.
    ///
    /// # Errors
    /// Want of memory.
    pub fn copy(&self) -> Result<Self, AllocError>
        ensures { IfOk result (λ copy. copy ≡ self.now) }
    {
        let alloc = self.alloc();
        Ok(ManagerTables {
            own: self.own,
            members: Vec::from_slice(alloc, self.members.as_slice())?,
            managers: Vec::from_slice(alloc, self.managers.as_slice())?,
            foreign: Vec::from_slice(alloc, self.foreign.as_slice())?,
        })
    }

    /// The address of the manager.
    pub fn own(&self) -> Address
        ensures { result ≡ self.now.own }
    {
        self.own
    }

    /// The memory that they lie in.
    pub fn alloc(&self) -> A {
        *self.members.allocator()
    }

    /// Whether this foreign device is served at the moment `now`, in milliseconds.
    ///
    /// # Errors
    /// Want of memory.
    pub fn serves(&self, device: Address, now: u64) -> Result<bool, AllocError>
        ensures { IfOk result (λ b. b ≡ is_among device (served now self.now.foreign)) }
    {
        let served = served(self.alloc(), self.foreign.as_slice(), now)?;
        Ok(is_among(device, served.as_slice()))
    }

    /// Whether there is room for this device at the moment `now`, in milliseconds (J.2.6).
    pub fn has_room(&self, device: Address, now: u64) -> bool
        ensures { result ≡ has_room now device self.now.foreign }
    {
        has_room(self.foreign.as_slice(), device, now)
    }

    /// Keeps the registrations that live at the moment `now`, in milliseconds (J.5.2.3).
    pub fn keep_living(&mut self, now: u64)
        ensures { self.new ≡ record self.old { foreign = living now self.old.foreign } }
    {
        keep_living(&mut self.foreign, now);
    }

    /// Keeps the registrations that live at the moment `now`, in milliseconds, without that of this device (J.2.9).
    pub fn keep_without(&mut self, device: Address, now: u64)
        ensures { self.new ≡ record self.old { foreign = without now device self.old.foreign } }
    {
        keep_others(&mut self.foreign, device, now);
    }

    /// Registers a device anew at the moment `now`, in milliseconds, behind all others (J.2.6).
    ///
    /// # Errors
    /// Want of memory. The tables are then as they were.
    pub fn register(
        &mut self,
        device: Address,
        seconds_to_live: u16,
        now: u64,
    ) -> Result<(), AllocError>
        requires { has_room now device self.old.foreign ≡ true }
        ensures registered { OnOk result (self.new ≡
            record self.old { foreign = registered true now device seconds_to_live self.old.foreign }) }
        ensures unchanged { OnErr result (self.new ≡ self.old) }
    {
        let mut foreign = Vec::from_slice(self.alloc(), self.foreign.as_slice())?;
        keep_others(&mut foreign, device, now);
        foreign.push(Registration {
            device,
            seconds_to_live,
            at: now,
        })?;
        self.foreign = foreign;
        Ok(())
    }
}
