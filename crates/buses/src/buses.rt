//! The buses of a world.

ghost use Rattle.std.specs.Prelude.{◌≡◌, ◌+◌, ℕ, IfOk, OnOk, length, map};
ghost use Rattle.std.specs.List.{AllByRecursion};
ghost use Rattle.bus_traffic.specs.Bus.{HasRoom, bus_of};
ghost use Rattle.bus_traffic.specs.Forgetting.{ForgetsOn, KeepsEach};
ghost use Rattle.buses.specs.Hearing as hearing;
ghost use Rattle.buses.specs.Puts as spec;

use crate::net_put::NetPut;
use crate::puts::Puts;
use bus_traffic::{Bus, CutFrame, Hearing, NextTold, Put, Telling, ear_at, next_hear};
use std::alloc::{AllocError, Allocator};
use tags::Fault;
use traffic::FramePut;

/// The buses of a world, and how many frames were put out on them.
#[derive(Drop)]
pub struct Buses<A: Allocator> {
    /// The buses, in the order of the site.
    pub buses: Vec<Bus<A>, A>,
    /// How many frames were put out on all of them; it stays at 2^64 - 1.
    pub frames: u64,
}

/// What the ear of a station makes of octets, and where that ear is.
#[derive(Drop)]
pub struct EarHearing<A: Allocator> {
    /// The place of the bus.
    pub bus: usize,
    /// The place of the ear among those of the bus.
    pub ear: usize,
    /// The frames that the octets end.
    pub hearing: Hearing<A>,
}

/// Takes room for so many frames on each bus. What is known stays as it is.
///
/// # Errors
/// Want of memory.
fn reserve_each<A: Allocator + Copy>(buses: &mut [Bus<A>], count: usize) -> Result<(), AllocError>
    ensures same { map (λ o. bus_of o) buses.new ≡ map (λ o. bus_of o) buses.old }
    ensures room { OnOk result (AllByRecursion (λ o. HasRoom count o) buses.new) }
{
    for place in 0..buses.len() {
        buses[place].reserve(count)?;
    }
    Ok(())
}

/// A frame is put out on the first bus of a number at the moment `now`, in milliseconds, where there is room for one.
/// It takes no memory.
fn put_at<A: Allocator + Copy>(buses: &mut [Bus<A>], net: u16, put: Put<A>, now: u64)
    requires { AllByRecursion (λ o. HasRoom 1 o) buses.old }
    ensures put { map (λ o. bus_of o) buses.new ≡ spec.put_at now net put (map (λ o. bus_of o) buses.old) }
    ensures room { (n : ℕ) → AllByRecursion (λ o. HasRoom (n + 1) o) buses.old →
        AllByRecursion (λ o. HasRoom n o) buses.new }
{
    for place in 0..buses.len() {
        if buses[place].net == net {
            buses[place].put_out(put, now);
            return;
        }
    }
}

/// Each ear of the station at an address on a bus is made anew at the moment `now`, in milliseconds.
fn restart_on<A: Allocator + Copy>(bus: &mut Bus<A>, address: u8, now: u64)
    ensures anew { bus_of bus.new ≡ hearing.anew_on now address (bus_of bus.old) }
    ensures room { (n : ℕ) → HasRoom n bus.old → HasRoom n bus.new }
{
    for place in 0..bus.ears.len() {
        if bus.ears[place].address == address {
            bus.restart(place, now);
        }
    }
}

/// Each ear of the station at an address of a network is made anew at the moment `now`, in milliseconds.
fn restart_each<A: Allocator + Copy>(buses: &mut [Bus<A>], net: u16, address: u8, now: u64)
    ensures anew { map (λ o. bus_of o) buses.new
        ≡ map (hearing.anew_at now net address) (map (λ o. bus_of o) buses.old) }
    ensures room { (n : ℕ) → AllByRecursion (λ o. HasRoom n o) buses.old → AllByRecursion (λ o. HasRoom n o) buses.new }
{
    for place in 0..buses.len() {
        if buses[place].net == net {
            restart_on(&mut buses[place], address, now);
        }
    }
}

/// Each bus forgets what is too old to be heard at the moment `now`, in milliseconds.
#[tactic(auto, using(crate::proofs::ForgetLaws::forget_rules))]
fn forget_each<A: Allocator + Copy>(buses: &mut [Bus<A>], now: u64)
    ensures left { KeepsEach (ForgetsOn now) (map (λ o. bus_of o) buses.old) (map (λ o. bus_of o) buses.new) }
    ensures len { length buses.new ≡ length buses.old }
{
    for place in 0..buses.len() {
        buses[place].forget(now);
    }
}

/// Equal buses.
fn copies_of<A: Allocator + Copy>(alloc: A, buses: &[Bus<A>]) -> Result<Vec<Bus<A>, A>, AllocError>
    ensures { IfOk result (λ copies. map (λ o. bus_of o) copies.items ≡ map (λ o. bus_of o) buses.now) }
{
    let mut copies = Vec::new(alloc);
    for bus in buses {
        copies.push(bus.copy(alloc)?)?;
    }
    Ok(copies)
}

impl<A: Allocator + Copy> Buses<A> {
    ghost use Rattle.std.specs.Prelude.{◌≡◌, ◌+◌, ◌⊎◌, ℕ, Some, IfOk, IfErr, IfSome, IfNone, OnOk};
    ghost use Rattle.std.specs.Prelude.{length, map, slice_get};
    ghost use Rattle.bus_traffic.specs.Bus.{BusState, bus_of};
    ghost use Rattle.bus_traffic.specs.Telling.{IsNext, NoneWaits};
    ghost use Rattle.bus_traffic.specs.declared.ear.Ear.{Ear};
    ghost use Rattle.buses.specs.Buses.{HaveRoom, buses_of};
    ghost use Rattle.buses.specs.Finding.{HasEarAt, HasEarOf, HasNoEarOf};
    ghost use Rattle.buses.specs.Forgetting.{ForgetOnEach};
    ghost use Rattle.buses.specs.Hearing.{HearsAt, ears_anew, heard_at};
    ghost use Rattle.buses.specs.Puts.{put_on, put_one};

    /// The buses of a world on which nothing was put out, in the order of the site.
    pub fn new(buses: Vec<Bus<A>, A>) -> Self
        ensures { buses_of result ≡ record { buses = map (λ o. bus_of o) buses.items; frames = 0 } }
    {
        Buses { buses, frames: 0 }
    }

    /// Takes all memory that it wants to put these frames out, one after another, behind so many datagrams. What is
    /// known stays as it is.
    ///
    /// # Errors
    /// Want of memory.
    pub fn prepare(
        &mut self,
        alloc: A,
        frames: Vec<FramePut<A>, A>,
        items: u64,
    ) -> Result<Puts<A>, AllocError>
        ensures same { buses_of self.new ≡ buses_of self.old }
        ensures room { IfOk result (λ puts. HaveRoom (length puts.frames) self.new) }
        ensures frames { IfOk result (λ puts. puts.frames ≡ frames.items) }
        ensures items { IfOk result (λ puts. puts.items ≡ items) }
    {
        let puts = Puts::new(alloc, frames, items)?;
        reserve_each(&mut self.buses, puts.len())?;
        Ok(puts)
    }

    /// A frame is put out at the moment `now`, in milliseconds, behind so many datagrams of earlier steps, where there
    /// is room for one. It takes no memory.
    fn put_one(&mut self, put: NetPut<A>, items: u64, now: u64)
        requires { HaveRoom 1 self.old }
        ensures put { buses_of self.new ≡ put_one now items put (buses_of self.old) }
        ensures room { (n : ℕ) → HaveRoom (n + 1) self.old → HaveRoom n self.new }
    {
        let net = put.net;
        let put = put.behind(items, self.frames);
        put_at(&mut self.buses, net, put, now);
        self.frames = self.frames.saturating_add(1);
    }

    /// Frames are put out at the moment `now`, in milliseconds, one after another, each on the first bus of its number,
    /// where there is room for all of them. It takes no memory.
    pub fn put(&mut self, puts: Puts<A>, now: u64)
        requires room { HaveRoom (length puts.frames) self.old }
        ensures { buses_of self.new ≡ put_on now puts.items puts.frames (buses_of self.old) }
    {
        let Puts { items, frames } = puts;
        for put in frames {
            self.put_one(put, items, now);
        }
    }

    /// What the ear of the station at an address of a network makes of octets that come to it at the moment `now`, in
    /// milliseconds. The buses stay as they are.
    ///
    /// # Errors
    /// `NoSuch` where there is no such ear, or want of memory.
    #[tactic(auto, using(crate::proofs::FindingLaws::finding_rules))]
    pub fn hearing(
        &self,
        alloc: A,
        net: u16,
        address: u8,
        octets: &[u8],
        now: u64,
    ) -> Result<EarHearing<A>, Fault>
        ensures heard { IfOk result (λ h. HearsAt now net address octets.now (buses_of self.now).buses h) }
        ensures cause { IfErr result (λ fault.
            ((fault ≡ Fault.NoSuch) × HasNoEarOf net address (buses_of self.now).buses)
            ⊎ ((fault ≡ Fault.Memory) × HasEarOf net address (buses_of self.now).buses)) }
    {
        let found = ear_at(&self.buses, net, address)?;
        let hearing = found.bus.hearing(alloc, found.ear, octets, now)?;
        Ok(EarHearing {
            bus: found.bus_place,
            ear: found.ear_place,
            hearing,
        })
    }

    /// The ear at these places has heard octets at the moment `now`, in milliseconds, and keeps what is left of a
    /// frame. Where the octets are just those of a frame of another station that may still be heard and wasn't yet
    /// delivered there, the first such is delivered. It takes no memory.
    pub fn hear(&mut self, bus: usize, ear: usize, octets: &[u8], cut: CutFrame<A>, now: u64)
        requires there { HasEarAt bus ear (buses_of self.old).buses }
        ensures heard { (b : BusState A) (e : Ear) → slice_get (buses_of self.old).buses bus ≡ Some b →
            slice_get b.ears ear ≡ Some e →
            buses_of self.new ≡ heard_at now bus ear octets.now cut e b (buses_of self.old) }
        ensures room { (n : ℕ) → HaveRoom n self.old → HaveRoom n self.new }
    {
        self.buses[bus].hear(ear, octets, cut, now);
    }

    /// The station at an address of a network restarts at the moment `now`, in milliseconds: what its ear heard of a
    /// frame is gone. It takes no memory.
    pub fn restart(&mut self, net: u16, address: u8, now: u64)
        ensures anew { buses_of self.new ≡ ears_anew now net address (buses_of self.old) }
        ensures room { (n : ℕ) → HaveRoom n self.old → HaveRoom n self.new }
    {
        restart_each(&mut self.buses, net, address, now);
    }

    /// Each bus forgets what is too old to be heard at the moment `now`, in milliseconds: that such frames were put
    /// out, and what is known of them. Whatever buses these are kept of, what is left is kept of them. It takes no
    /// memory.
    pub fn forget(&mut self, now: u64)
        ensures { ForgetOnEach now (buses_of self.old) (buses_of self.new) }
    {
        forget_each(&mut self.buses, now);
    }

    /// The frame that an ear is told next at the moment `now`, in milliseconds: the first, from whose turn it is on and
    /// before the frame of a number, that may still be heard and wasn't delivered yet at an ear of its bus, beside its
    /// sender's, and the first such ear.
    pub fn next_hear(&self, from: Telling, before: u64, now: u64) -> Option<NextTold<'_, A>>
        ensures next { IfSome result (λ next. IsNext now from before self.now.buses.items next.bus.now next.recent.now
            next.ear_place next.ear.now) }
        ensures none { IfNone result (NoneWaits now from before self.now.buses.items) }
    {
        next_hear(&self.buses, from, before, now)
    }

    /// Equal buses, in memory of `alloc`.
    ///
    /// # Errors
    /// Want of memory.
    pub fn copy(&self, alloc: A) -> Result<Self, AllocError>
        ensures { IfOk result (λ copy. buses_of copy ≡ buses_of self.now) }
    {
        Ok(Buses {
            buses: copies_of(alloc, self.buses.as_slice())?,
            frames: self.frames,
        })
    }
}
