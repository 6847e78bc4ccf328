//! Links, and the law that all of them keep.

ghost use Rattle.std.specs.Prelude.{◌≡◌, ◌≢◌, ◌<◌, ◌≤◌, ◌⊎◌, ℕ, Bool, true, false, List, None, IfOk, IfErr, OnOk};
ghost use Rattle.std.specs.Prelude.{OnErr};
ghost use Rattle.std.specs.Prelude.{length};
ghost use Rattle.npdu.specs.declared.mac.Mac.{Mac};
ghost use Rattle.npdu.specs.declared.mac.Station.{Station};
ghost use Rattle.npdu.specs.declared.parcel.Parcel.{Parcel};
ghost use Rattle.profile.specs.Times.{MAX_MOMENT_MS};
ghost use Rattle.tags.specs.declared.fault.Fault.{Fault};
ghost use Rattle.link.specs.Up.{parcel_if};
ghost use Rattle.link.specs.Step.{LinkStep, PutsOver, step_of};
ghost use Rattle.link.specs.declared.step.Change.{Change};
ghost use Rattle.link.specs.Carrying.{CarriesDown, CarriesOn, CarriesUp, Restarts, nothing};
ghost use Rattle.link.specs.Limits.{max_npdu_at};

use crate::step::{Change, PortSent};
use crate::up::Up;
use npdu::{Mac, Parcel, Station};
use std::alloc::{AllocError, Allocator};
use tags::{Fault, Items};

/// One end of a network: where a station's parcels go down to it and come up from it.
///
/// A call of an event changes no link: what it changes stands in a `Change`, which further calls of that event go on
/// from, and is made by `settle` once the event can't be refused any more. What is put out is appended to a list that
/// is lent. After want of memory the change and what was appended may be anything that the list began with, and the
/// event is given up; after any other refusal both are as they were.
pub trait Link<A: Allocator> {
    /// The network, and this station's address on it.
    ghost station: { Self → Station };

    /// The moment of the last call that was not refused.
    ghost moment: { Self → ℕ };

    /// The parcels that were handed down, and wait to be put out.
    ghost waiting: { Self → List (Parcel A) };

    /// What goes over the network: octets from an address to an address, said at a moment, carry this parcel.
    ghost carries: { Mac → Mac → List ℕ → ℕ → Parcel A → Type 0 };

    /// For what octets from an address are refused where they are heard.
    ghost refuses: { Fault → Mac → List ℕ → Type 0 };

    /// What a link does on a parcel that is handed down at a moment: what comes of it, and what the link is then.
    ghost downs: { ℕ → Parcel A → Self → LinkStep A → Self → Type 0 };

    /// .. on octets from an address, said at a moment, that are heard at a moment.
    ghost hears: { ℕ → Mac → List ℕ → ℕ → Self → LinkStep A → Self → Type 0 };

    /// .. where it wakes at a moment.
    ghost wakes: { ℕ → Self → LinkStep A → Self → Type 0 };

    /// .. where so many octets are heard on its network at a moment, in a frame or not.
    ghost counts: { ℕ → ℕ → Self → LinkStep A → Self → Type 0 };

    /// .. where it registers as a foreign device at a moment.
    ghost registers: { ℕ → Self → LinkStep A → Self → Type 0 };

    /// .. where it restarts at a moment.
    ghost restarts: { ℕ → Self → Self };

    /// Whether anything is due at a moment, where it wakes.
    ghost is_due: { ℕ → Self → Bool };

    /// The same at a later moment.
    ghost at: { ℕ → Self → Self };

    /// It as what an event at a moment changes of it leaves it.
    ghost changed: { ℕ → Self → Change Self → Self };

    /// The network, and this station's address on it (6.1).
    fn station(&self) -> Station
        ensures { result ≡ station self.now };

    /// The moment of the last call that was not refused, in milliseconds.
    fn moment(&self) -> u64
        ensures { result ≡ moment self.now };

    /// An equal link, in the same memory.
    ///
    /// # Errors
    /// Want of memory.
    fn copy(&self) -> Result<Self, AllocError>
    where
        Self: Sized,
        ensures { IfOk result (λ copy. copy ≡ self.now) };

    /// Hands a parcel down at the moment `now`, in milliseconds, and appends what is put out over the port of this
    /// number. A parcel from another address than the link's, or for an address of another kind, is dropped.
    ///
    /// # Errors
    /// `TooLong` for an NPDU that the network doesn't carry: nothing is appended then; or `Memory`.
    fn down(
        &self,
        change: &mut Change<Self>,
        parcel: &Parcel<A>,
        port: usize,
        now: u64,
        out: &mut Items<PortSent<A>, A>,
    ) -> Result<(), Fault>
    where
        Self: Sized,
        requires greatest { now ≤ MAX_MOMENT_MS }
        requires order { moment (changed now self.now change.old) ≤ now }
        ensures step { OnOk result (downs now parcel.now (changed now self.now change.old)
            (step_of None out.old out.new) (changed now self.now change.new)) }
        ensures over { PutsOver port out.old out.new }
        ensures cause { IfErr result (λ fault. (fault ≡ Fault.Memory) ⊎ ((fault ≡ Fault.TooLong) ×
            (max_npdu_at (station (changed now self.now change.old)).mac < length parcel.now.npdu))) }
        ensures unchanged { IfErr result (λ fault. fault ≢ Fault.Memory →
            (changed now self.now change.new ≡ changed now self.now change.old) × (out.new ≡ out.old)) };

    /// Hears a whole datagram or frame from an address on the network, said at the moment `stamp`, at the moment
    /// `now`, in milliseconds: hands up what is in it for this station, and appends what is put out over the port of
    /// this number. What comes from an address of another kind is dropped.
    ///
    /// # Errors
    /// What a reader of such octets refuses: nothing is appended then; or `Memory`.
    fn heard<'o>(
        &self,
        change: &mut Change<Self>,
        from: Mac,
        octets: &'o [u8],
        stamp: u64,
        port: usize,
        now: u64,
        out: &mut Items<PortSent<A>, A>,
    ) -> Result<Option<Up<'o>>, Fault>
    where
        Self: Sized,
        requires greatest { now ≤ MAX_MOMENT_MS }
        requires order { moment (changed now self.now change.old) ≤ now }
        ensures step { IfOk result (λ up. hears now from octets.entry.now stamp (changed now self.now change.old)
            (step_of (parcel_if up) out.old out.new) (changed now self.now change.new)) }
        ensures over { PutsOver port out.old out.new }
        ensures cause { IfErr result (λ fault. (fault ≡ Fault.Memory) ⊎ refuses fault from octets.entry.now) }
        ensures unchanged { IfErr result (λ fault. fault ≢ Fault.Memory →
            (changed now self.now change.new ≡ changed now self.now change.old) × (out.new ≡ out.old)) };

    /// Wakes at the moment `now`, in milliseconds, and appends what is put out over the port of this number.
    ///
    /// # Errors
    /// `Memory` alone, and only where something is due.
    fn on_tick(
        &self,
        change: &mut Change<Self>,
        port: usize,
        now: u64,
        out: &mut Items<PortSent<A>, A>,
    ) -> Result<(), Fault>
    where
        Self: Sized,
        requires greatest { now ≤ MAX_MOMENT_MS }
        requires order { moment (changed now self.now change.old) ≤ now }
        ensures step { OnOk result (wakes now (changed now self.now change.old)
            (step_of None out.old out.new) (changed now self.now change.new)) }
        ensures over { PutsOver port out.old out.new }
        ensures cause { IfErr result (λ fault. fault ≡ Fault.Memory) }
        ensures due { OnErr result (is_due now (changed now self.now change.old) ≡ true) };

    /// Whether anything is due where it wakes at the moment `now`, in milliseconds. It takes no memory.
    fn is_due(&self, now: u64) -> bool
        ensures { result ≡ is_due now self.now };

    /// So many octets, at least one, are heard on its network at the moment `now`, in milliseconds, in a frame or not
    /// (9.5.2). A link without octets of its own comes to that moment. Nothing is put out.
    ///
    /// # Errors
    /// `Memory` alone.
    fn on_octets(&self, change: &mut Change<Self>, count: usize, now: u64) -> Result<(), Fault>
    where
        Self: Sized,
        requires greatest { now ≤ MAX_MOMENT_MS }
        requires order { moment (changed now self.now change.old) ≤ now }
        ensures step { OnOk result (counts count now (changed now self.now change.old) nothing
            (changed now self.now change.new)) }
        ensures cause { IfErr result (λ fault. fault ≡ Fault.Memory) };

    /// Registers at the moment `now`, in milliseconds, at the broadcast manager that it is a foreign device of, and
    /// appends what is put out over the port of this number (J.5.2). Another link says nothing.
    ///
    /// # Errors
    /// `Memory` alone.
    fn register(
        &self,
        change: &mut Change<Self>,
        port: usize,
        now: u64,
        out: &mut Items<PortSent<A>, A>,
    ) -> Result<(), Fault>
    where
        Self: Sized,
        requires greatest { now ≤ MAX_MOMENT_MS }
        requires order { moment (changed now self.now change.old) ≤ now }
        ensures step { OnOk result (registers now (changed now self.now change.old)
            (step_of None out.old out.new) (changed now self.now change.new)) }
        ensures over { PutsOver port out.old out.new }
        ensures cause { IfErr result (λ fault. fault ≡ Fault.Memory) };

    /// Settles: what an event at the moment `now`, in milliseconds, changes of it is made. It takes no memory.
    fn settle(&mut self, change: Change<Self>, now: u64)
    where
        Self: Sized,
        ensures { self.new ≡ changed now self.old change };

    /// Restarts at the moment `now`, in milliseconds: what waited is gone. It takes no memory, and says nothing.
    fn restart(&mut self, now: u64)
        requires greatest { now ≤ MAX_MOMENT_MS }
        requires order { moment self.old ≤ now }
        ensures { self.new ≡ restarts now self.old };

    /// What octets carry is one parcel.
    ghost one_parcel: { (from to : Mac) (octets : List ℕ) (stamp : ℕ) (p q : Parcel A) →
        carries from to octets stamp p → carries from to octets stamp q → p ≡ q };

    /// .. with their stamp.
    ghost keeps_stamp: { (from to : Mac) (octets : List ℕ) (stamp : ℕ) (p : Parcel A) →
        carries from to octets stamp p → p.stamp ≡ stamp };

    /// The carry law: of a parcel that is handed down.
    ghost carries_down: { (now : ℕ) (p : Parcel A) (old : Self) (step : LinkStep A) (new : Self) →
        downs now p old step new → CarriesDown carries station moment waiting now p old step new };

    /// .. of octets that are heard.
    ghost carries_up: { (now : ℕ) (from : Mac) (octets : List ℕ) (stamp : ℕ) (old : Self) (step : LinkStep A)
        (new : Self) → hears now from octets stamp old step new →
        CarriesUp carries station moment waiting now from octets stamp old step new };

    /// .. where it wakes.
    ghost carries_on: { (now : ℕ) (old : Self) (step : LinkStep A) (new : Self) →
        wakes now old step new → CarriesOn carries station moment waiting now old step new };

    /// .. where octets are heard.
    ghost carries_counting: { (count now : ℕ) (old : Self) (step : LinkStep A) (new : Self) →
        counts count now old step new → CarriesOn carries station moment waiting now old step new };

    /// .. where it registers.
    ghost carries_registering: { (now : ℕ) (old : Self) (step : LinkStep A) (new : Self) →
        registers now old step new → CarriesOn carries station moment waiting now old step new };

    /// .. where it restarts: nothing waits.
    ghost forgets: { (now : ℕ) (old : Self) → Restarts station moment waiting now old (restarts now old) };

    /// Where nothing is due, a wake says nothing, and changes the moment alone.
    ghost idles: { (now : ℕ) (old : Self) (step : LinkStep A) (new : Self) → is_due now old ≡ false →
        wakes now old step new → (step ≡ nothing) × (new ≡ at now old) };

    /// Where an event changes nothing of it, it is as it was.
    ghost stands: { (now : ℕ) (old : Self) → changed now old Change.Nothing ≡ old };

    /// The same at a later moment is at the same place, and the same waits there.
    ghost stays: { (now : ℕ) (old : Self) → (station (at now old) ≡ station old) × (moment (at now old) ≡ now) ×
        (waiting (at now old) ≡ waiting old) };
}
