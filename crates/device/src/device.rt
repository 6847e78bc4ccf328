//! A device on its network: its wake and its restart.

ghost use Rattle.std.specs.Prelude.{◌≡◌};
ghost use Rattle.device.specs.Device.{i_am_of};

use crate::plan::{DevicePlan, DeviceTold};
use crate::saying::said_parcels;
use apdu::{IAm, MaxApdu, Segmentation};
use npdu::{Mac, Station};
use objects::{SiteObjects, Table};
use server_tsm::{ObjectExecutor, ServerTsm, SlabRecords};
use std::alloc::{AllocError, Allocator};
use std::marker::Model;
use tags::Fault;
use unitdata::longest_apdu;

/// A device on its network.
#[derive(Drop)]
pub struct Device<A: Allocator + Copy> {
    pub(crate) alloc: A,
    pub(crate) server: ServerTsm<ObjectExecutor<A>, A>,
    pub(crate) instance: u32,
    pub(crate) vendor: u16,
    pub(crate) max_apdu: MaxApdu,
    pub(crate) net: u16,
    pub(crate) mac: Mac,
}

impl<A: Allocator + Copy> Model for Device<A> {
    ghost use Rattle.std.specs.Prelude.{◌≡◌, ◌<◌, ◌^◌};
    ghost use Rattle.device.specs.Device.{DeviceState};

    ghost Value = { DeviceState A };

    ghost view = { λ d. record {
      server = d.server;
      instance = d.instance;
      vendor = d.vendor;
      net = d.net;
      mac = d.mac;
    } };

    ghost invariant = { λ d. (d.instance < 2 ^ 22) × (d.max_apdu ≡ d.server.max_apdu) };
}

impl<A: Allocator + Copy> Device<A> {
    ghost use Rattle.std.specs.Prelude.{◌≡◌, ◌⊎◌, ◌≤◌, ◌^◌, [], true, IfOk, IfErr, OnOk, OnErr};
    ghost use Rattle.object_model.specs.Site.{IsFaultySite, IsSite};
    ghost use Rattle.server_tsm.specs.Server.{committed};
    ghost use Rattle.server_tsm.specs.Steps.{told_of_plan};
    ghost use Rattle.server_tsm.specs.Waking.{is_quiet, woken};
    ghost use Rattle.device.specs.Device.{i_am_of, new_device, restarts};
    ghost use Rattle.device.specs.Plan.{ChangesSomething, IsPlanned, left_by, told_by};
    ghost use Rattle.device.specs.Saying.{told_of};
    ghost use Rattle.profile.specs.Times.{MAX_MOMENT_MS};
    ghost use Rattle.due_times.specs.Until.{Until};

    /// A device at this address as it opens with the objects of its site, whose memory will be that of `alloc`.
    ///
    /// # Errors
    /// `BadSite` for objects that no device has, as `Table::new` tells; or `Memory`.
    #[tactic(auto, using(crate::proofs::SiteLaws::site_instance))]
    pub fn new(alloc: A, site: SiteObjects<A>, address: Station) -> Result<Self, Fault>
        ensures opened { IfOk result (λ device. device ≡ new_device site address) }
        ensures sound { OnOk result (IsSite site) }
        ensures refused { IfErr result (λ fault. (fault ≡ Fault.Memory) ⊎
            ((fault ≡ Fault.BadSite) × IsFaultySite site)) }
    {
        let instance = site.instance;
        let vendor = site.vendor;
        let max_apdu = longest_apdu(site.data_link);
        let table = Table::new(alloc, site)?;
        Ok(Device {
            alloc,
            server: ServerTsm::new(alloc, ObjectExecutor { table }, max_apdu),
            instance,
            vendor,
            max_apdu,
            net: address.net,
            mac: address.mac,
        })
    }

    /// The moment of the last call that went to its server of transactions and was not refused, in milliseconds.
    pub fn moment(&self) -> u64
        ensures { result ≡ self.now.server.moment }
    {
        self.server.moment()
    }

    /// Its address on its network.
    pub fn mac(&self) -> Mac
        ensures { result ≡ self.now.mac }
    {
        self.mac
    }

    /// Returns where it is (6.1).
    pub fn station(&self) -> Station
        ensures { result ≡ record { net = self.now.net; mac = self.now.mac } }
    {
        Station {
            net: self.net,
            mac: self.mac,
        }
    }

    /// Its objects.
    pub fn table(&self) -> &Table<A>
        ensures { result.now ≡ self.now.server.table }
    {
        &self.server.executor().table
    }

    /// Returns what it remembers of the requests that it executed, in their order (5.4.5).
    pub fn remembered(&self) -> &SlabRecords<A>
        ensures { result.now ≡ self.now.server.records }
    {
        self.server.records()
    }

    /// An equal device, in the same memory.
    ///
    /// # Errors
    /// Want of memory.
    pub fn copy(&self) -> Result<Self, AllocError>
        ensures { IfOk result (λ copy. copy ≡ self.now) }
    {
        Ok(Device {
            alloc: self.alloc,
            server: self.server.copy()?,
            instance: self.instance,
            vendor: self.vendor,
            max_apdu: self.max_apdu,
            net: self.net,
            mac: self.mac,
        })
    }

    /// What it says of itself (16.10.3).
    pub fn i_am(&self) -> IAm
        ensures { result ≡ i_am_of self.now }
    {
        IAm {
            instance: self.instance,
            max_apdu: u32::from(self.max_apdu.octets()),
            segmentation: Segmentation::Both,
            vendor: u32::from(self.vendor),
        }
    }

    /// Wakes at the moment `now`, in milliseconds: says again what is due of its answers, and forgets what is too
    /// old.
    ///
    /// # Errors
    /// `Memory` alone. The device is then as it was.
    pub fn on_tick(&mut self, now: u64) -> Result<DeviceTold<A>, Fault>
        requires greatest { now ≤ MAX_MOMENT_MS }
        requires order { self.old.server.moment ≤ now }
        ensures told { IfOk result (λ told. told ≡
            told_of now self.old.mac (told_of_plan (woken now self.old.server.records))) }
        ensures left { OnOk result (self.new ≡ record self.old {
          server = committed now (woken now self.old.server.records).change self.old.server;
        }) }
        ensures cause { IfErr result (λ fault. fault ≡ Fault.Memory) }
        ensures unchanged { OnErr result (self.new ≡ self.old) }
    {
        let plan = self.plan_tick(now)?;
        self.commit(plan, now)
    }

    /// What it does when it wakes at the moment `now`, in milliseconds: `commit` does it.
    ///
    /// # Errors
    /// `Memory` alone.
    pub fn plan_tick(&self, now: u64) -> Result<DevicePlan<A>, Fault>
        ensures told { IfOk result (λ plan. told_by plan ≡
            told_of now self.now.mac (told_of_plan (woken now self.now.server.records))) }
        ensures left { IfOk result (λ plan. left_by now plan self.now ≡ record self.now {
          server = committed now (woken now self.now.server.records).change self.now.server;
        }) }
        ensures planned { IfOk result (IsPlanned now self.now) }
        ensures cause { IfErr result (λ fault. fault ≡ Fault.Memory) }
    {
        let plan = self.server.plan_tick(now)?;
        let said = said_parcels(self.alloc, self.mac, now, &plan)?;
        Ok(DevicePlan {
            said,
            server: Some(plan),
        })
    }

    /// Whether nothing is due where it wakes at the moment `now`, in milliseconds.
    pub fn is_quiet(&self, now: u64) -> bool
        ensures { result ≡ is_quiet now self.now.server.records }
    {
        self.server.is_quiet(now)
    }

    /// Returns a moment, in milliseconds, before which nothing is due where it wakes.
    pub fn next_due(&self) -> u64
        ensures { Until result (λ now. is_quiet now self.now.server.records ≡ true) }
    {
        self.server.next_due()
    }

    /// Wakes at the moment `now`, in milliseconds, where nothing is due: it says nothing, and forgets what is too old.
    /// It takes no memory.
    #[tactic(auto, using(crate::proofs::ServerLaws::size_rules))]
    pub fn wake_quietly(&mut self, now: u64)
        requires order { self.old.server.moment ≤ now }
        requires quiet { is_quiet now self.old.server.records ≡ true }
        ensures said { (woken now self.old.server.records).said ≡ [] }
        ensures left { self.new ≡ record self.old {
          server = committed now (woken now self.old.server.records).change self.old.server;
        } }
    {
        self.server.wake_quietly(now);
    }

    /// Does what was planned at the moment `now`, in milliseconds, with no other input between, and answers what is
    /// said and executed. It takes what memory it must first, and none once anything has changed.
    ///
    /// # Errors
    /// `Memory` alone, and only where something is to change. The device is then as it was.
    #[tactic(auto, using(crate::proofs::ServerLaws::size_rules))]
    pub fn commit(&mut self, plan: DevicePlan<A>, now: u64) -> Result<DeviceTold<A>, Fault>
        requires greatest { now ≤ MAX_MOMENT_MS }
        requires order { self.old.server.moment ≤ now }
        requires planned { IsPlanned now self.old plan }
        ensures told { IfOk result (λ told. told ≡ told_by plan) }
        ensures left { OnOk result (self.new ≡ left_by now plan self.old) }
        ensures changes { OnErr result (ChangesSomething plan.server) }
        ensures cause { IfErr result (λ fault. fault ≡ Fault.Memory) }
        ensures unchanged { OnErr result (self.new ≡ self.old) }
    {
        let DevicePlan { said, server } = plan;
        let executed = match server {
            Some(plan) => self.server.commit(plan, now)?,
            None => None,
        };
        Ok(DeviceTold { said, executed })
    }

    /// Restarts at the moment `now`, in milliseconds, with these objects: it forgets all that it remembers and
    /// gathers, and takes no request for 13000. It takes no memory, and says nothing.
    pub fn restart(&mut self, opening: Table<A>, now: u64)
        requires greatest { now ≤ MAX_MOMENT_MS }
        requires order { self.old.server.moment ≤ now }
        ensures { self.new ≡ restarts now opening self.old }
    {
        self.server.restart(ObjectExecutor { table: opening }, now);
    }
}
