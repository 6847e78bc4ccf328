//! What a device does with a parcel that it hears.

ghost use Rattle.std.specs.Prelude.{◌≡◌, [], None};
ghost use Rattle.device.specs.Hearing.{origin_of};
ghost use Rattle.unitdata.specs.Heard.{heard_of};

use crate::device::Device;
use crate::plan::{DevicePlan, DeviceTold};
use crate::saying::{i_am_parcel, said_parcels};
use apdu::Apdu;
use npdu::{Mac, Parcel, Target};
use server_tsm::Origin;
use std::alloc::Allocator;
use tags::{Fault, Items};
use unitdata::{Heard, HeardContent, asks_who, hear};

/// Nothing is said, and its server does nothing.
fn silence<A: Allocator + Copy>(alloc: A) -> DevicePlan<A>
    ensures { result ≡ record { said = []; server = None } }
{
    DevicePlan {
        said: Items::new(alloc),
        server: None,
    }
}

/// Where a message comes from.
fn origin_of(heard: &Heard<'_>) -> Origin
    ensures { result ≡ origin_of (heard_of heard.now) }
{
    Origin {
        station: heard.station,
        way: heard.way,
        by_broadcast: !heard.alone,
    }
}

impl<A: Allocator + Copy> Device<A> {
    ghost use Rattle.std.specs.Prelude.{◌≡◌, ◌≤◌, None, IfOk, IfErr, OnErr};
    ghost use Rattle.apdu.specs.Apdu.{HasNamedNumbers, apdu_of};
    ghost use Rattle.device.specs.Hearing.{AnswersWho, DeviceHears, Does, Serves};
    ghost use Rattle.device.specs.Plan.{ChangesSomething, IsPlanned, left_by, told_by};
    ghost use Rattle.unitdata.specs.Hearing.{BringsSomething, says};
    ghost use Rattle.profile.specs.Times.{MAX_MOMENT_MS};

    /// Hears a parcel at the moment `now`, in milliseconds, and answers what is said and executed (5.4.5, 6.5,
    /// 16.10.2). A parcel that brings nothing to the device, for its header or its destination, is never refused.
    ///
    /// # Errors
    /// `Memory` alone. The device is then as it was.
    #[tactic(auto, using(crate::proofs::ServeLaws::carry_rules))]
    pub fn on_parcel(&mut self, parcel: &Parcel<A>, now: u64) -> Result<DeviceTold<A>, Fault>
        requires greatest { now ≤ MAX_MOMENT_MS }
        requires order { self.old.server.moment ≤ now }
        ensures step { IfOk result (λ told.
            DeviceHears now parcel.now.from parcel.now.to parcel.now.npdu self.old told self.new) }
        ensures cause { IfErr result (λ fault. fault ≡ Fault.Memory) }
        ensures heard { OnErr result (BringsSomething self.old.net parcel.now.from parcel.now.to parcel.now.npdu) }
        ensures unchanged { OnErr result (self.new ≡ self.old) }
    {
        let plan = self.plan_npdu(parcel.from, parcel.to, parcel.npdu.as_slice(), now)?;
        let told = self.commit(plan, now)?;
        Ok(told)
    }

    /// What it does where it hears an NPDU from a station of its network, for one or all there, at the moment `now`, in
    /// milliseconds: `commit` does it. One that brings nothing to the device, for its header or its destination, is
    /// never refused.
    ///
    /// # Errors
    /// `Memory` alone.
    #[tactic(auto, using(crate::proofs::ServeLaws::heard_rules))]
    pub fn plan_npdu(
        &self,
        from: Mac,
        to: Target,
        npdu: &[u8],
        now: u64,
    ) -> Result<DevicePlan<A>, Fault>
        ensures step { IfOk result (λ plan. DeviceHears now from to npdu.now self.now
            (told_by plan) (left_by now plan self.now)) }
        ensures planned { IfOk result (IsPlanned now self.now) }
        ensures changes { IfOk result (λ plan. ChangesSomething plan.server →
            BringsSomething self.now.net from to npdu.now) }
        ensures cause { IfErr result (λ fault. fault ≡ Fault.Memory) }
        ensures heard { OnErr result (BringsSomething self.now.net from to npdu.now) }
    {
        let Some(heard) = hear(self.net, from, to, npdu) else {
            return Ok(silence(self.alloc));
        };
        let origin = origin_of(&heard);
        match heard.content {
            HeardContent::Apdu(apdu) => self.plan_apdu(&origin, &apdu, now),
            HeardContent::Rejected(_) => Ok(silence(self.alloc)),
        }
    }

    /// What it does on an APDU from there.
    fn plan_apdu(&self, origin: &Origin, apdu: &Apdu<'_>, now: u64) -> Result<DevicePlan<A>, Fault>
        requires named { HasNamedNumbers apdu.now }
        ensures does { IfOk result (λ plan. Does now origin.now (says (apdu_of apdu.now)) self.now (told_by plan)
            (left_by now plan self.now)) }
        ensures planned { IfOk result (IsPlanned now self.now) }
        ensures cause { IfErr result (λ fault. fault ≡ Fault.Memory) }
    {
        match apdu {
            Apdu::UnconfirmedRequest { service, data } => self.answer_who(*service, data, now),
            Apdu::ConfirmedRequest { .. }
            | Apdu::SimpleAck { .. }
            | Apdu::ComplexAck { .. }
            | Apdu::SegmentAck { .. }
            | Apdu::Error { .. }
            | Apdu::Reject { .. }
            | Apdu::Abort { .. } => self.serve(origin, apdu, now),
        }
    }

    /// What it says to an unconfirmed request. Its server does nothing.
    fn answer_who(&self, service: u8, data: &[u8], now: u64) -> Result<DevicePlan<A>, Fault>
        ensures answers { IfOk result (λ plan. AnswersWho now self.now service data.now (told_by plan)) }
        ensures server { IfOk result (λ plan. plan.server ≡ None) }
        ensures cause { IfErr result (λ fault. fault ≡ Fault.Memory) }
    {
        if !asks_who(self.instance, service, data) {
            return Ok(silence(self.alloc));
        }
        let mut said = Items::new(self.alloc);
        said.push(i_am_parcel(self.alloc, self.mac, now, &self.i_am())?)?;
        Ok(DevicePlan { said, server: None })
    }

    /// What its server does on an APDU.
    #[tactic(auto, using(crate::proofs::ServeLaws::serve_rules))]
    fn serve(&self, origin: &Origin, apdu: &Apdu<'_>, now: u64) -> Result<DevicePlan<A>, Fault>
        requires named { HasNamedNumbers apdu.now }
        ensures serves { IfOk result (λ plan. Serves now origin.now (apdu_of apdu.now) self.now (told_by plan)
            (left_by now plan self.now)) }
        ensures planned { IfOk result (IsPlanned now self.now) }
        ensures cause { IfErr result (λ fault. fault ≡ Fault.Memory) }
    {
        let plan = self.server.plan(origin, apdu, now)?;
        let said = said_parcels(self.alloc, self.mac, now, &plan)?;
        Ok(DevicePlan {
            said,
            server: Some(plan),
        })
    }
}
