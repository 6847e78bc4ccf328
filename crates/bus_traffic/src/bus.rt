//! A bus, and what is known of it.

ghost use Rattle.std.specs.Prelude.{◌≡◌, ◌≤◌, ◌<◌, ◌+◌, ◌++◌, ◌∷◌, [], Some, length, slice_get, true};
ghost use Rattle.std.specs.Vec.{vec_capacity, vec_len};
ghost use Rattle.bus_traffic.specs.Sendings as spec;
ghost use Rattle.bus_traffic.specs.Sendings.{AreInTurn, AreKnownOnce, IsBehindLast, delivered, learned};
ghost use Rattle.bus_traffic.specs.Settling.{ArePassed, AreSettled};

use crate::cut_frame::CutFrame;
use crate::ear::Ear;
use crate::hearing::{Hearing, hear};
use crate::judging::is_frame;
use crate::sending::{Known, Put, Recent, RecentBox};
use crate::settling::{count_done, still_settled};
use profile::is_heard_in_time;
use std::alloc::{AllocError, Allocator};

/// A bus of MS/TP: its ears, what is known of all frames that were put out there, and those that may still be heard.
#[derive(Drop)]
pub struct Bus<A: Allocator> {
    /// The number of the network.
    pub net: u16,
    /// An ear for each station on it.
    pub ears: Vec<Ear, A>,
    /// What was ever put out: each frame once, until it is too old to be heard and forgotten.
    pub known: Vec<Known<A>, A>,
    /// What may still be heard, in the order in which it was put out.
    pub recent: Vec<RecentBox<A>, A>,
    /// Whether the places of these say the same order: one is then found by halves.
    pub(crate) is_in_turn: bool,
    /// So many of these in front were delivered at each ear, or put out by its station: none is looked at again.
    pub(crate) settled: usize,
    ghost turns: { is_in_turn ≡ true → AreInTurn recent.items },
    ghost once: { AreKnownOnce known.items },
    ghost done: { AreSettled ears.items recent.items settled },
}

/// So many frames more than twice those that it keeps of what was put out must be known before any is forgotten.
const MORE_KNOWN: usize = 16;

/// Puts a value behind others, where there is room.
fn push_reserved<T: Drop, A: Allocator>(list: &mut Vec<T, A>, value: T)
    requires { vec_len list.old < vec_capacity list.old }
    ensures items { list.new.items ≡ list.old.items ++ value ∷ [] }
    ensures len { vec_len list.new ≡ vec_len list.old + 1 }
    ensures room { vec_capacity list.old ≤ vec_capacity list.new }
{
    list.push(value).unwrap();
}

/// Knows of a stamp that may be younger.
fn age<A: Allocator>(known: &mut Known<A>, stamp: u64)
    ensures { known.new ≡ spec.aged stamp known.old }
{
    if known.stamp < stamp {
        known.stamp = stamp;
    }
}

/// Knows of a frame that is put out, where there is room.
#[tactic(auto, using(crate::proofs::Places::place_rules))]
fn learn<A: Allocator>(known: &mut Vec<Known<A>, A>, new: Known<A>)
    requires { vec_len known.old < vec_capacity known.old }
    ensures known { known.new.items ≡ learned new known.old.items }
    ensures len { vec_len known.new ≤ vec_len known.old + 1 }
    ensures room { vec_capacity known.old ≤ vec_capacity known.new }
{
    for place in 0..known.len() {
        if is_frame(&known[place].octets, new.octets.as_slice()) {
            age(&mut known[place], new.stamp);
            return;
        }
    }
    push_reserved(known, new);
}

/// Forgets what is too old to be heard at the moment `now`, in milliseconds.
fn keep_young<A: Allocator>(recent: &mut Vec<RecentBox<A>, A>, now: u64)
    ensures young { recent.new.items ≡ spec.young now recent.old.items }
    ensures len { vec_len recent.new ≤ vec_len recent.old }
    ensures room { vec_capacity recent.old ≤ vec_capacity recent.new }
{
    recent.retain(|held| is_heard_in_time(held.recent().sending.stamp, now));
}

/// Forgets what is known of frames that are too old to be heard at the moment `now`, in milliseconds.
fn keep_young_known<A: Allocator>(known: &mut Vec<Known<A>, A>, now: u64)
    ensures { known.new.items ≡ spec.young_known now known.old.items }
{
    known.retain(|one| is_heard_in_time(one.stamp, now));
}

/// Whether the last of these, if there is any, wasn't put out behind another, as their places say.
fn is_behind<A: Allocator>(recent: &[RecentBox<A>], new: &Recent<A>) -> bool
    ensures { result ≡ true → IsBehindLast new.now recent.now }
{
    match recent {
        [.., last] => last.recent().sending.place.frames <= new.sending.place.frames,
        [] => true,
    }
}

/// Puts a frame behind those that may still be heard, where there is room, and says whether their places say the order
/// in which they stand, where they did before.
#[tactic(auto, using(crate::proofs::TurnLaws::turn_laws))]
fn follow<A: Allocator>(
    recent: &mut Vec<RecentBox<A>, A>,
    new: RecentBox<A>,
    is_in_turn: bool,
    now: u64,
) -> bool
    requires room { vec_len recent.old < vec_capacity recent.old }
    requires turns { is_in_turn ≡ true → AreInTurn recent.old.items }
    ensures recent { recent.new.items ≡ spec.young now recent.old.items ++ new ∷ [] }
    ensures len { vec_len recent.new ≤ vec_len recent.old + 1 }
    ensures room { vec_capacity recent.old ≤ vec_capacity recent.new }
    ensures turns { result ≡ true → AreInTurn recent.new.items }
{
    keep_young(recent, now);
    let is_in_turn = is_in_turn && is_behind(recent, new.recent());
    push_reserved(recent, new);
    is_in_turn
}

/// The ear at a place.
fn ear_of(ears: &[Ear], place: usize) -> &Ear
    requires { place < length ears.now }
    ensures { slice_get ears.now place ≡ Some result.now }
{
    &ears[place]
}

/// Whether a frame may still be heard at the moment `now`, in milliseconds, and wasn't delivered yet at an address,
/// which isn't its sender's. Most frames were delivered there, so this is asked first.
#[tactic(auto, using(crate::proofs::Waits::waits_rules))]
pub(crate) fn waits_at<A: Allocator>(recent: &Recent<A>, address: u8, now: u64) -> bool
    ensures { result ≡ spec.waits_at now address recent.now }
{
    if recent.heard[address as usize] {
        return false;
    }
    is_heard_in_time(recent.sending.stamp, now) && address != recent.sending.sender
}

/// Whether a frame has just these octets and waits to be delivered at an address, which isn't its sender's, at the
/// moment `now`, in milliseconds. Octets are compared of those alone that wait there.
#[tactic(auto, using(crate::proofs::Waits::due_rules))]
fn is_due_at<A: Allocator>(recent: &Recent<A>, address: u8, octets: &[u8], now: u64) -> bool
    ensures { result ≡ spec.is_due_at now address octets.now recent.now }
{
    if !waits_at(recent, address, now) {
        return false;
    }
    is_frame(&recent.sending.octets, octets)
}

/// Just these octets are delivered at an address at the moment `now`, in milliseconds: they are none of so many frames
/// in front, which aren't looked at.
#[tactic(auto, using(crate::proofs::Places::place_rules))]
fn deliver<A: Allocator>(
    recent: &mut Vec<RecentBox<A>, A>,
    settled: usize,
    address: u8,
    octets: &[u8],
    now: u64,
)
    requires within { settled ≤ length recent.old.items }
    requires passed { ArePassed now address octets.now recent.old.items settled }
    ensures recent { recent.new.items ≡ delivered now address octets.now recent.old.items }
    ensures len { vec_len recent.new ≡ vec_len recent.old }
    ensures room { vec_capacity recent.old ≤ vec_capacity recent.new }
{
    for place in settled..recent.len() {
        if is_due_at(recent[place].recent(), address, octets, now) {
            recent[place].mark(address);
            return;
        }
    }
}

impl<A: Allocator + Copy> Bus<A> {
    ghost use Rattle.std.specs.Prelude.{◌≡◌, ◌<◌, ◌+◌, ℕ, Some, IfOk, OnOk, OnErr, length, slice_get};
    ghost use Rattle.bus_traffic.specs.declared.ear.Ear.{Ear};
    ghost use Rattle.bus_traffic.specs.Bus.{HasRoom, IsHearing, bus_anew, bus_of, heard_on, joined, put_out, restarted};
    ghost use Rattle.bus_traffic.specs.Forgetting.{ForgetsKnown, ForgetsOn};

    /// A bus without ears, on which nothing was put out.
    pub fn new(alloc: A, net: u16) -> Self
        ensures { bus_of result ≡ bus_anew net }
    {
        Bus {
            net,
            ears: Vec::new(alloc),
            known: Vec::new(alloc),
            recent: Vec::new(alloc),
            is_in_turn: true,
            settled: 0,
        }
    }

    /// A station comes to the bus at the moment `now`, in milliseconds: there is an ear for it behind the others.
    ///
    /// # Errors
    /// Want of memory. The bus is then as it was.
    pub fn join(&mut self, address: u8, now: u64) -> Result<(), AllocError>
        ensures joined { OnOk result (bus_of self.new ≡ joined now address (bus_of self.old)) }
        ensures unchanged { OnErr result (bus_of self.new ≡ bus_of self.old) }
    {
        self.ears.push(Ear::new(address, now))?;
        self.settled = 0;
        Ok(())
    }

    /// Takes room for so many frames. What is known stays as it is.
    ///
    /// # Errors
    /// Want of memory.
    pub fn reserve(&mut self, count: usize) -> Result<(), AllocError>
        ensures same { bus_of self.new ≡ bus_of self.old }
        ensures room { OnOk result (HasRoom count self.new) }
    {
        self.known.reserve(count)?;
        self.recent.reserve(count)
    }

    /// A frame is put out at the moment `now`, in milliseconds, where there is room for one. What is too old to be
    /// heard is forgotten, but for the youngest stamp of equal frames. It takes no memory.
    pub fn put_out(&mut self, put: Put<A>, now: u64)
        requires { HasRoom 1 self.old }
        ensures put { bus_of self.new ≡ put_out now put (bus_of self.old) }
        ensures room { (n : ℕ) → HasRoom (n + 1) self.old → HasRoom n self.new }
    {
        let Put { recent, known } = put;
        learn(&mut self.known, known);
        let before = self.recent.as_slice().len();
        self.is_in_turn = follow(&mut self.recent, recent, self.is_in_turn, now);
        let kept = self.recent.as_slice().len().saturating_sub(1);
        self.settled = still_settled(self.settled, before, kept);
    }

    /// Forgets what is known of frames that are too old to be heard at the moment `now`, in milliseconds, once twice as
    /// many are known as it keeps of those that were put out, and 16 more.
    fn forget_known(&mut self, now: u64)
        ensures { ForgetsKnown now (bus_of self.old) (bus_of self.new) }
    {
        let few = self
            .recent
            .len()
            .saturating_mul(2)
            .saturating_add(MORE_KNOWN);
        if self.known.len() < few {
            return;
        }
        keep_young_known(&mut self.known, now);
    }

    /// Forgets what is known of frames that are too old to be heard at the moment `now`, in milliseconds, once there is
    /// much of it, so that each frame is looked at a few times for each that was put out. It takes no memory. Whatever
    /// bus this is kept of, what is left is kept of it. That frames were put out it forgets by itself, where the next
    /// one is.
    pub fn forget(&mut self, now: u64)
        ensures { ForgetsOn now (bus_of self.old) (bus_of self.new) }
    {
        self.forget_known(now);
    }

    /// Returns what an ear of the bus makes of octets that come to it at the moment `now`, in milliseconds: the frames
    /// that they end, each judged in its turn, up to the first that is refused. The bus stays as it is.
    ///
    /// # Errors
    /// Want of memory.
    pub fn hearing(
        &self,
        alloc: A,
        ear: &Ear,
        octets: &[u8],
        now: u64,
    ) -> Result<Hearing<A>, AllocError>
        ensures { IfOk result (λ hearing. IsHearing now octets.now ear.now (bus_of self.now) hearing) }
    {
        let mut deframer = ear.listening(octets, now);
        hear(alloc, self.known.as_slice(), &mut deframer, octets, now)
    }

    /// The ear at a place has heard octets at the moment `now`, in milliseconds, and keeps what is left of a
    /// frame. Where the octets are just those of a frame of another station that may still be heard and wasn't yet
    /// delivered there, the first such is delivered. It takes no memory.
    pub fn hear(&mut self, place: usize, octets: &[u8], cut: CutFrame<A>, now: u64)
        requires { place < length self.old.ears.items }
        ensures heard { (ear : Ear) → slice_get self.old.ears.items place ≡ Some ear →
            bus_of self.new ≡ heard_on now place octets.now cut ear (bus_of self.old) }
        ensures room { (n : ℕ) → HasRoom n self.old → HasRoom n self.new }
    {
        let address = ear_of(&self.ears, place).address;
        deliver(&mut self.recent, self.settled, address, octets, now);
        self.ears[place].hear(octets, &cut, now);
        self.settled = count_done(self.ears.as_slice(), self.recent.as_slice(), self.settled);
    }

    /// The station whose ear is at a place restarts at the moment `now`, in milliseconds: what it heard of a frame is
    /// gone. It takes no memory.
    pub fn restart(&mut self, place: usize, now: u64)
        requires { place < length self.old.ears.items }
        ensures restarted { (ear : Ear) → slice_get self.old.ears.items place ≡ Some ear →
            bus_of self.new ≡ restarted now place ear (bus_of self.old) }
        ensures room { (n : ℕ) → HasRoom n self.old → HasRoom n self.new }
    {
        self.ears[place] = Ear::new(ear_of(&self.ears, place).address, now);
    }
}
