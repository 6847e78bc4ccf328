//! A broadcast manager (J.4.5, J.5).

ghost use Rattle.std.specs.Prelude.{◌≡◌, ◌≤◌, ◌⊎◌, true, false, IfOk, IfErr, IsSome, OnOk, OnErr, map};
ghost use Rattle.bvll.specs.Datagram as bvll;
ghost use Rattle.bvll.specs.Datagram.{datagram_of};
ghost use Rattle.profile.specs.Times.{MAX_MOMENT_MS};
ghost use Rattle.bbmd_tables.specs.Tables.{has_few_peers, is_among, living, served, told, two_hops};
ghost use Rattle.bbmd_manager.specs.State.{ManagerState, new_manager, woken};
ghost use Rattle.bbmd_manager.specs.Manager.{IsCause, IsHeard, IsTaken, IsTooLong, back, carried_to, code_if};
ghost use Rattle.bbmd_manager.specs.Manager.{has_place};
ghost use Rattle.bbmd_manager.specs.Manager.{is_too_long, left, result_back, said, sent};

use crate::saying::{Outgoing, forward, say_to};
use bbmd_tables::{ManagerTables, or_nobody};
use bvll::{Address, Bvll, BvllTable, ResultCode};
use std::alloc::{AllocError, Allocator};
use std::marker::Model;
use tags::{Fault, Items};

/// A broadcast manager: its tables, and the moment that it is at.
#[derive(Drop)]
pub struct Bbmd<A: Allocator> {
    tables: ManagerTables<A>,
    moment: u64,
}

impl<A: Allocator> Model for Bbmd<A> {
    ghost Value = { ManagerState };

    ghost view = { λ b. record { tables = b.tables; moment = b.moment } };
}

impl<A: Allocator + Copy> Bbmd<A> {
    /// A manager at the address `own`, with the members of its subnet and all managers of the network in their
    /// order, itself among them, which serves no foreign device. Its memory is that of `alloc`.
    ///
    /// # Errors
    /// `TableFull` for more other managers than `MAX_PEERS`, or for more than those and one in all, `Memory`.
    pub fn new(
        alloc: A,
        own: Address,
        members: &[Address],
        managers: &[Address],
    ) -> Result<Self, Fault>
        requires itself { is_among own managers.now ≡ true }
        ensures made { IfOk result (λ b. b ≡ new_manager own members.now managers.now) }
        ensures fits { OnOk result (has_few_peers own managers.now ≡ true) }
        ensures cause { IfErr result (λ e. (e ≡ Fault.Memory) ⊎
            ((e ≡ Fault.TableFull) × (has_few_peers own managers.now ≡ false))) }
    {
        Ok(Bbmd {
            tables: ManagerTables::new(alloc, own, members, managers)?,
            moment: 0,
        })
    }

    /// The moment of the last call that was not refused, in milliseconds.
    pub fn moment(&self) -> u64
        ensures { result ≡ self.now.moment }
    {
        self.moment
    }

    /// Its tables (J.4.3, J.5.2).
    pub fn tables(&self) -> &ManagerTables<A>
        ensures { result.now ≡ self.now.tables }
    {
        &self.tables
    }

    /// An equal manager, in the same memory.
    ///
    /// # Errors
    /// Want of memory.
    pub fn copy(&self) -> Result<Self, AllocError>
        ensures { IfOk result (λ copy. copy ≡ self.now) }
    {
        Ok(Bbmd {
            tables: self.tables.copy()?,
            moment: self.moment,
        })
    }

    /// Its BACnet/IP address.
    pub fn own(&self) -> Address
        ensures { result ≡ self.now.tables.own }
    {
        self.tables.own()
    }

    /// The memory that it lies in.
    fn alloc(&self) -> A {
        self.tables.alloc()
    }

    /// Hears a datagram from an address at the moment `now`, in milliseconds. Answers what is said of it, and to
    /// whom, in order (J.2, J.4.5, J.5). Octets that spell no datagram of BACnet/IP are heard in silence. What is heard
    /// in silence takes no memory, and is never refused.
    ///
    /// # Errors
    /// `TooLong` for an NPDU that would be forwarded and is longer than one may be on BACnet/IP, `Memory`. The manager
    /// is then as it was.
    pub fn on_datagram(
        &mut self,
        from: Address,
        octets: &[u8],
        now: u64,
    ) -> Result<Items<Outgoing<A>, A>, Fault>
        requires moment { now ≤ MAX_MOMENT_MS }
        requires order { self.old.moment ≤ now }
        ensures heard { IfOk result (λ out. IsHeard now from octets.now self.old self.new out) }
        ensures cause { IfErr result (λ e. (e ≡ Fault.Memory) ⊎
            ((e ≡ Fault.TooLong) × IsTooLong now from octets.now self.old)) }
        ensures taken { OnErr result (IsTaken now from octets.now self.old) }
        ensures unchanged { OnErr result (self.new ≡ self.old) }
    {
        let Ok(heard) = Bvll::read(octets) else {
            self.moment = now;
            return Ok(Items::new(self.alloc()));
        };
        let said = self.say(from, &heard, now)?;
        self.change(from, &heard, now)?;
        Ok(said)
    }

    /// Wakes at the moment `now`, in milliseconds, and forgets the registrations that have ended. Nothing is said.
    pub fn on_tick(&mut self, now: u64)
        requires moment { now ≤ MAX_MOMENT_MS }
        requires order { self.old.moment ≤ now }
        ensures { self.new ≡ woken now self.old }
    {
        self.tables.keep_living(now);
        self.moment = now;
    }

    /// What is said of a datagram.
    fn say(&self, from: Address, heard: &Bvll<'_>, now: u64) -> Result<Items<Outgoing<A>, A>, Fault>
        ensures says { IfOk result (λ out. out ≡ sent (said now from self.now (datagram_of heard.now))) }
        ensures fits { OnOk result (is_too_long (said now from self.now (datagram_of heard.now)) ≡ false) }
        ensures cause { IfErr result (λ e. IsCause e (said now from self.now (datagram_of heard.now))) }
        ensures taken { OnErr result (IsSome (said now from self.now (datagram_of heard.now))) }
    {
        match *heard {
            Bvll::OriginalBroadcastNpdu(npdu) => self.say_broadcast(from, npdu, now),
            Bvll::ForwardedNpdu { origin, npdu } => self.say_forwarded(from, origin, npdu, now),
            Bvll::DistributeBroadcastToNetwork(npdu) => self.say_distributed(from, npdu, now),
            Bvll::WriteBroadcastDistributionTable(_) => {
                let code = ResultCode::WriteBroadcastDistributionTableNak;
                say_to(self.alloc(), &[from], &Bvll::Result(code))
            }
            Bvll::ReadBroadcastDistributionTable => self.say_managers(from),
            Bvll::ReadForeignDeviceTable => self.say_foreign(from, now),
            Bvll::RegisterForeignDevice { .. } => self.say_registered(from, now),
            Bvll::DeleteForeignDeviceTableEntry(device) => self.say_deleted(from, device, now),
            Bvll::Result(_)
            | Bvll::ReadBroadcastDistributionTableAck(_)
            | Bvll::ReadForeignDeviceTableAck(_)
            | Bvll::OriginalUnicastNpdu(_) => Ok(Items::new(self.alloc())),
        }
    }

    /// To whom the NPDU of a datagram is forwarded at the moment `now`, in milliseconds: to nobody, where it isn't.
    ///
    /// # Errors
    /// Want of memory.
    #[tactic(auto, using(crate::proofs::Carried::carried_rules))]
    pub fn carried_to(
        &self,
        from: Address,
        heard: &Bvll<'_>,
        now: u64,
    ) -> Result<Vec<Address, A>, AllocError>
        ensures { IfOk result (λ to. to.items ≡ carried_to (said now from self.now (datagram_of heard.now))) }
    {
        match heard {
            Bvll::OriginalBroadcastNpdu(_) => {
                Ok(or_nobody(self.alloc(), self.tables.broadcast_to(from, now)?))
            }
            Bvll::ForwardedNpdu { .. } => {
                Ok(or_nobody(self.alloc(), self.tables.forwarded_to(from, now)?))
            }
            Bvll::DistributeBroadcastToNetwork(_) => {
                Ok(or_nobody(self.alloc(), self.tables.distributed_to(from, now)?))
            }
            Bvll::Result(_)
            | Bvll::WriteBroadcastDistributionTable(_)
            | Bvll::ReadBroadcastDistributionTable
            | Bvll::ReadBroadcastDistributionTableAck(_)
            | Bvll::RegisterForeignDevice { .. }
            | Bvll::ReadForeignDeviceTable
            | Bvll::ReadForeignDeviceTableAck(_)
            | Bvll::DeleteForeignDeviceTableEntry(_)
            | Bvll::OriginalUnicastNpdu(_) => Ok(Vec::new(self.alloc())),
        }
    }

    /// Whether this foreign device is served at the moment `now`, in milliseconds.
    ///
    /// # Errors
    /// Want of memory.
    pub fn serves(&self, device: Address, now: u64) -> Result<bool, AllocError>
        ensures { IfOk result (λ b. b ≡ is_among device (served now self.now.tables.foreign)) }
    {
        self.tables.serves(device, now)
    }

    /// What is said of a broadcast of a member.
    fn say_broadcast(
        &self,
        from: Address,
        npdu: &[u8],
        now: u64,
    ) -> Result<Items<Outgoing<A>, A>, Fault>
        ensures says { IfOk result (λ out. out ≡ sent (said now from self.now (bvll.broadcast npdu.now))) }
        ensures fits { OnOk result (is_too_long (said now from self.now (bvll.broadcast npdu.now)) ≡ false) }
        ensures cause { IfErr result (λ e. IsCause e (said now from self.now (bvll.broadcast npdu.now))) }
        ensures taken { OnErr result (IsSome (said now from self.now (bvll.broadcast npdu.now))) }
    {
        match self.tables.broadcast_to(from, now)? {
            None => Ok(Items::new(self.alloc())),
            Some(to) => forward(self.alloc(), to.as_slice(), from, npdu),
        }
    }

    /// What is said of a broadcast that comes through a manager.
    fn say_forwarded(
        &self,
        from: Address,
        origin: Address,
        npdu: &[u8],
        now: u64,
    ) -> Result<Items<Outgoing<A>, A>, Fault>
        ensures says { IfOk result (λ out. out ≡ sent (said now from self.now (bvll.forwarded origin npdu.now))) }
        ensures fits { OnOk result (is_too_long (said now from self.now (bvll.forwarded origin npdu.now)) ≡ false) }
        ensures cause { IfErr result (λ e. IsCause e (said now from self.now (bvll.forwarded origin npdu.now))) }
        ensures taken { OnErr result (IsSome (said now from self.now (bvll.forwarded origin npdu.now))) }
    {
        match self.tables.forwarded_to(from, now)? {
            None => Ok(Items::new(self.alloc())),
            Some(to) => forward(self.alloc(), to.as_slice(), origin, npdu),
        }
    }

    /// What is said of a broadcast that is asked for.
    fn say_distributed(
        &self,
        from: Address,
        npdu: &[u8],
        now: u64,
    ) -> Result<Items<Outgoing<A>, A>, Fault>
        ensures says { IfOk result (λ out. out ≡ sent (said now from self.now (bvll.distribute npdu.now))) }
        ensures fits { OnOk result (is_too_long (said now from self.now (bvll.distribute npdu.now)) ≡ false) }
        ensures cause { IfErr result (λ e. IsCause e (said now from self.now (bvll.distribute npdu.now))) }
        ensures taken { OnErr result (IsSome (said now from self.now (bvll.distribute npdu.now))) }
    {
        match self.tables.distributed_to(from, now)? {
            None => {
                let code = ResultCode::DistributeBroadcastToNetworkNak;
                say_to(self.alloc(), &[from], &Bvll::Result(code))
            }
            Some(to) => forward(self.alloc(), to.as_slice(), from, npdu),
        }
    }

    /// The managers of the network, told to who asks (J.2.4).
    fn say_managers(&self, from: Address) -> Result<Items<Outgoing<A>, A>, Fault>
        ensures says { IfOk result (λ out. out ≡
            sent (back from (bvll.distribution (map two_hops self.now.tables.managers)))) }
        ensures memory { IfErr result (λ e. e ≡ Fault.Memory) }
    {
        let entries = self.tables.distribution_entries()?;
        let table = BvllTable::Entries(entries.as_slice());
        say_to(
            self.alloc(),
            &[from],
            &Bvll::ReadBroadcastDistributionTableAck(table),
        )
    }

    /// The foreign devices that are served, told to who asks (J.2.8).
    fn say_foreign(&self, from: Address, now: u64) -> Result<Items<Outgoing<A>, A>, Fault>
        ensures says { IfOk result (λ out. out ≡
            sent (back from (bvll.foreign (map (told now) (living now self.now.tables.foreign))))) }
        ensures memory { IfErr result (λ e. e ≡ Fault.Memory) }
    {
        let entries = self.tables.foreign_entries(now)?;
        let table = BvllTable::Entries(entries.as_slice());
        say_to(
            self.alloc(),
            &[from],
            &Bvll::ReadForeignDeviceTableAck(table),
        )
    }

    /// What is said to a foreign device that registers (J.2.6).
    fn say_registered(&self, from: Address, now: u64) -> Result<Items<Outgoing<A>, A>, Fault>
        ensures says { IfOk result (λ out. out ≡
            sent (result_back from (code_if (has_place now from self.now) ResultCode.RegisterForeignDeviceNak))) }
        ensures memory { IfErr result (λ e. e ≡ Fault.Memory) }
    {
        let code = if self.tables.has_room(from, now) {
            ResultCode::Success
        } else {
            ResultCode::RegisterForeignDeviceNak
        };
        say_to(self.alloc(), &[from], &Bvll::Result(code))
    }

    /// What is said to who deletes a foreign device (J.2.9).
    fn say_deleted(
        &self,
        from: Address,
        device: Address,
        now: u64,
    ) -> Result<Items<Outgoing<A>, A>, Fault>
        ensures says { IfOk result (λ out. out ≡ sent (said now from self.now (bvll.delete_foreign device))) }
        ensures memory { IfErr result (λ e. e ≡ Fault.Memory) }
    {
        let code = if self.tables.serves(device, now)? {
            ResultCode::Success
        } else {
            ResultCode::DeleteForeignDeviceTableEntryNak
        };
        say_to(self.alloc(), &[from], &Bvll::Result(code))
    }

    /// What is known behind a datagram. Where memory is wanted, it is as it was.
    fn change(&mut self, from: Address, heard: &Bvll<'_>, now: u64) -> Result<(), AllocError>
        ensures left { OnOk result (self.new ≡ left now from self.old (datagram_of heard.now)) }
        ensures taken { OnErr result (IsSome (said now from self.old (datagram_of heard.now))) }
        ensures unchanged { OnErr result (self.new ≡ self.old) }
    {
        match *heard {
            Bvll::RegisterForeignDevice { seconds_to_live } => {
                if self.tables.has_room(from, now) {
                    self.tables.register(from, seconds_to_live, now)?;
                }
            }
            Bvll::DeleteForeignDeviceTableEntry(device) => self.tables.keep_without(device, now),
            Bvll::Result(_)
            | Bvll::WriteBroadcastDistributionTable(_)
            | Bvll::ReadBroadcastDistributionTable
            | Bvll::ReadBroadcastDistributionTableAck(_)
            | Bvll::ForwardedNpdu { .. }
            | Bvll::ReadForeignDeviceTable
            | Bvll::ReadForeignDeviceTableAck(_)
            | Bvll::DistributeBroadcastToNetwork(_)
            | Bvll::OriginalUnicastNpdu(_)
            | Bvll::OriginalBroadcastNpdu(_) => (),
        }
        self.moment = now;
        Ok(())
    }
}
