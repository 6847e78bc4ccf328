//! What a client does with a parcel that it hears.

ghost use Rattle.std.specs.Prelude.{◌≡◌, [], IfSome, IfNone};
ghost use Rattle.client.specs.Hearing.{IsIAm, IsNoIAm};

use crate::client::Client;
use crate::plan::{ClientChange, ClientPlan, ClientTold};
use apdu::{Apdu, IAm, UnconfirmedService, i_am_from};
use bindings::{has_place, introduced};
use npdu::{Mac, Parcel, Station, Target, Way};
use std::alloc::Allocator;
use tags::{Fault, Items};
use unitdata::{HeardContent, hear};

/// Nothing is said or told, and this changes.
fn quiet<A: Allocator + Copy>(alloc: A, change: ClientChange<A>) -> ClientPlan<A>
    ensures { result ≡ record { said = []; outcomes = []; change = change } }
{
    ClientPlan {
        said: Items::new(alloc),
        outcomes: Items::new(alloc),
        change,
    }
}

/// The I-Am that an unconfirmed request is, if it is one.
#[tactic(auto, using(crate::proofs::HearLaws::i_am_rules))]
fn i_am_in(service: u8, octets: &[u8]) -> Option<IAm>
    ensures is { IfSome result (IsIAm service octets.now) }
    ensures other { IfNone result (IsNoIAm service octets.now) }
{
    if service != u8::from(UnconfirmedService::IAm) {
        return None;
    }
    i_am_from(octets)
}

impl<A: Allocator + Copy> Client<A> {
    ghost use Rattle.std.specs.Prelude.{◌≡◌, ◌≤◌, ◌⊎◌, IfOk, IfErr, OnErr};
    ghost use Rattle.apdu.specs.Apdu.{HasNamedNumbers, apdu_of};
    ghost use Rattle.client.specs.Hearing.{BringsTooMany, ClientHears, Does, IsTooMany, Learnt, Overflows, Transacts};
    ghost use Rattle.client.specs.Plan.{ChangesSomething, IsPlanned, left_by, told_by};
    ghost use Rattle.unitdata.specs.Hearing.{BringsSomething, says};
    ghost use Rattle.profile.specs.Times.{MAX_MOMENT_MS};

    /// Hears a parcel at the moment `now`, in milliseconds, and answers what is said and told. A parcel that brings
    /// nothing to the client is dropped without memory (5.4.4, 6.4.4, 16.10.3).
    ///
    /// # Errors
    /// `TableFull` for an I-Am for whose device there is no place, or `Memory`. The client is then as it was.
    #[tactic(auto, using(crate::proofs::HearLaws::carry_rules))]
    pub fn on_parcel(&mut self, parcel: &Parcel<A>, now: u64) -> Result<ClientTold<A>, Fault>
        requires greatest { now ≤ MAX_MOMENT_MS }
        requires order { self.old.machine.moment ≤ now }
        ensures step { IfOk result (λ told.
            ClientHears now parcel.now.from parcel.now.to parcel.now.npdu self.old told self.new) }
        ensures cause { IfErr result (λ fault. (fault ≡ Fault.Memory) ⊎ ((fault ≡ Fault.TableFull) ×
            BringsTooMany self.old.net parcel.now.from parcel.now.to parcel.now.npdu self.old.bindings)) }
        ensures heard { OnErr result (BringsSomething self.old.net parcel.now.from parcel.now.to parcel.now.npdu) }
        ensures unchanged { OnErr result (self.new ≡ self.old) }
    {
        let plan = self.plan_npdu(parcel.from, parcel.to, parcel.npdu.as_slice(), now)?;
        let told = self.commit(plan, now)?;
        Ok(told)
    }

    /// What it does where it hears an NPDU from a station of its network, for one or all there, at the moment `now`, in
    /// milliseconds: `commit` does it. One that brings nothing to the client is dropped without memory.
    ///
    /// # Errors
    /// `TableFull` for an I-Am for whose device there is no place, or `Memory`.
    #[tactic(auto, using(crate::proofs::HearLaws::heard_rules))]
    pub fn plan_npdu(
        &self,
        from: Mac,
        to: Target,
        npdu: &[u8],
        now: u64,
    ) -> Result<ClientPlan<A>, Fault>
        ensures step { IfOk result (λ plan. ClientHears now from to npdu.now self.now
            (told_by plan) (left_by now plan self.now)) }
        ensures planned { IfOk result (IsPlanned now self.now) }
        ensures changes { IfOk result (λ plan. ChangesSomething plan.change →
            BringsSomething self.now.net from to npdu.now) }
        ensures cause { IfErr result (λ fault. (fault ≡ Fault.Memory) ⊎ ((fault ≡ Fault.TableFull) ×
            BringsTooMany self.now.net from to npdu.now self.now.bindings)) }
        ensures heard { OnErr result (BringsSomething self.now.net from to npdu.now) }
    {
        let Some(heard) = hear(self.net, from, to, npdu) else {
            return Ok(quiet(self.alloc, ClientChange::Stays));
        };
        match heard.content {
            HeardContent::Apdu(apdu) => self.plan_apdu(heard.station, heard.way, &apdu, now),
            HeardContent::Rejected(rejected) => {
                Ok(quiet(self.alloc, ClientChange::Refuses(rejected)))
            }
        }
    }

    /// What it does on an APDU from this station.
    fn plan_apdu(
        &self,
        station: Station,
        way: Way,
        apdu: &Apdu<'_>,
        now: u64,
    ) -> Result<ClientPlan<A>, Fault>
        requires named { HasNamedNumbers apdu.now }
        ensures does { IfOk result (λ plan. Does now station way (says (apdu_of apdu.now)) self.now (told_by plan)
            (left_by now plan self.now)) }
        ensures planned { IfOk result (IsPlanned now self.now) }
        ensures cause { IfErr result (λ fault. (fault ≡ Fault.Memory) ⊎ ((fault ≡ Fault.TableFull) ×
            IsTooMany (says (apdu_of apdu.now)) self.now.bindings)) }
    {
        match apdu {
            Apdu::UnconfirmedRequest { service, data } => {
                self.learn(station, way, *service, data, now)
            }
            Apdu::ConfirmedRequest { .. }
            | Apdu::SimpleAck { .. }
            | Apdu::ComplexAck { .. }
            | Apdu::SegmentAck { .. }
            | Apdu::Error { .. }
            | Apdu::Reject { .. }
            | Apdu::Abort { .. } => self.transact(station, apdu, now),
        }
    }

    /// What it does on an unconfirmed request.
    #[tactic(auto, using(crate::proofs::HearLaws::learn_rules))]
    fn learn(
        &self,
        station: Station,
        way: Way,
        service: u8,
        octets: &[u8],
        now: u64,
    ) -> Result<ClientPlan<A>, Fault>
        ensures learnt { IfOk result (λ plan. Learnt station way service octets.now self.now (told_by plan)
            (left_by now plan self.now)) }
        ensures planned { IfOk result (IsPlanned now self.now) }
        ensures cause { IfErr result (λ fault. (fault ≡ Fault.TableFull) ×
            Overflows service octets.now self.now.bindings) }
    {
        let Some(i_am) = i_am_in(service, octets) else {
            return Ok(quiet(self.alloc, ClientChange::Stays));
        };
        if !has_place(self.bindings.as_slice(), i_am.instance) {
            return Err(Fault::TableFull);
        }
        let binding = introduced(station, way, &i_am);
        Ok(quiet(self.alloc, ClientChange::Binds(binding)))
    }

    /// What its client of transactions does on an APDU.
    #[tactic(auto, using(crate::proofs::HearLaws::transact_rules))]
    fn transact(&self, station: Station, apdu: &Apdu<'_>, now: u64) -> Result<ClientPlan<A>, Fault>
        requires named { HasNamedNumbers apdu.now }
        ensures transacts { IfOk result (λ plan. Transacts now station (apdu_of apdu.now) self.now (told_by plan)
            (left_by now plan self.now)) }
        ensures planned { IfOk result (IsPlanned now self.now) }
        ensures cause { IfErr result (λ fault. fault ≡ Fault.Memory) }
    {
        let plan = self.machine.plan(station, apdu, now)?;
        let plan = self.said_by(plan, now)?;
        Ok(plan)
    }
}
