//! The moments and their calls.

ghost use Rattle.std.specs.Prelude.{◌≡◌, ◌<◌, ◌+◌, ◌^◌, length, Some, slice_get};
ghost use Rattle.due_times.specs.Times.{IsFloor};

use std::alloc::{AllocError, Allocator};
use std::marker::Model;

/// How many moments a block has.
const BLOCK: usize = 16;

/// Moments by place, in milliseconds. A contract sees their list.
#[derive(Drop)]
pub struct DueTimes<A: Allocator> {
    moments: Vec<u64, A>,
    /// For each block, a moment that none of it is earlier than.
    floors: Vec<u64, A>,
}

impl<A: Allocator> Model for DueTimes<A> {
    ghost use Rattle.std.specs.Prelude.{ℕ, List};
    ghost use Rattle.due_times.specs.Times.{AreFloors};

    ghost Value = { List ℕ };

    ghost view = { λ d. d.moments.items };

    ghost invariant = { λ d. AreFloors d.floors.items d.moments.items };
}

/// Returns the least of so many moments, from a first one on, or `u64::MAX` where there are none.
#[tactic(auto, using(crate::proofs::Floors::floor_rules))]
fn floor_of(moments: &[u64], first: usize, count: usize) -> u64
    requires { first + count < 2 ^ 64 }
    ensures { IsFloor result first count moments.now }
{
    let mut floor = u64::MAX;
    for rest in 0..count {
        if let Some(moment) = moments.get(first + rest) {
            floor = floor.min(*moment);
        }
    }
    floor
}

/// Returns the moment at a place.
fn moment_at(moments: &[u64], place: usize) -> u64
    requires { place < length moments.now }
    ensures { slice_get moments.now place ≡ Some result }
{
    moments[place]
}

impl<A: Allocator + Copy> DueTimes<A> {
    ghost use Rattle.std.specs.Prelude.{◌≡◌, ◌<◌, ◌+◌, ◌^◌, IfNone, IfOk, IfSome, OnOk, length, replicate, slice_set};
    ghost use Rattle.due_times.specs.Times.{IsFirstDue, IsFloor, NoneIsDue};

    /// Returns the moment 0 at so many places.
    ///
    /// # Errors
    /// Want of memory.
    pub fn new(alloc: A, count: usize) -> Result<Self, AllocError>
        ensures { IfOk result (λ times. times ≡ replicate count 0) }
    {
        let moments = vec![in alloc; 0; count]?;
        let floors = vec![in alloc; 0; count.div_ceil(BLOCK)]?;
        Ok(DueTimes { moments, floors })
    }

    /// Returns how many places there are.
    pub fn len(&self) -> usize
        ensures { result ≡ length self.now }
    {
        self.moments.len()
    }

    /// Puts a moment, in milliseconds, at a place.
    #[tactic(auto, using(crate::proofs::Floors::set_rules))]
    pub fn set(&mut self, place: usize, moment: u64)
        requires there { place < length self.old }
        ensures { self.new ≡ slice_set self.old place moment }
    {
        self.moments[place] = moment;
        let block = place / BLOCK;
        self.floors[block] = floor_of(self.moments.as_slice(), BLOCK * block, BLOCK);
    }

    /// Returns the first place, from this one on, at which the moment has come at `now`, in milliseconds.
    #[tactic(auto, using(crate::proofs::Floors::find_rules))]
    pub fn first_due(&self, from: usize, now: u64) -> Option<usize>
        ensures first { IfSome result (λ place. IsFirstDue from now self.now place) }
        ensures there { IfSome result (λ place. place < length self.now) }
        ensures fits { IfSome result (λ place. place + 1 < 2 ^ 64) }
        ensures none { IfNone result (NoneIsDue from (length self.now) now self.now) }
    {
        let mut place = from;
        while place < self.moments.len() {
            if moment_at(self.floors.as_slice(), place / BLOCK) > now {
                place = BLOCK * (place / BLOCK) + BLOCK;
            } else if moment_at(self.moments.as_slice(), place) <= now {
                return Some(place);
            } else {
                place += 1;
            }
        }
        None
    }

    /// Returns a moment, in milliseconds, that none of them is earlier than.
    #[tactic(auto, using(crate::proofs::Floors::next_rules))]
    pub fn next(&self) -> u64
        ensures { IsFloor result 0 (length self.now) self.now }
    {
        floor_of(self.floors.as_slice(), 0, self.floors.len())
    }
}
