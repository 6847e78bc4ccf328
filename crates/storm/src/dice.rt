//! What is drawn from the generator.

ghost use Rattle.std.specs.Prelude.{◌<◌, ◌≤◌};

use crate::percent::{Percent, part_of};
use rand_core::{Rng, SeedableRng};
use rand_xoshiro::{SplitMix64, Xoshiro256PlusPlus};

/// A generator, and the number that seeded it.
#[derive(Drop)]
pub(crate) struct Dice {
    seed: u64,
    generator: Xoshiro256PlusPlus,
}

impl Dice {
    /// The generator that a number seeds.
    pub(crate) fn new(seed: u64) -> Self {
        Dice {
            seed,
            generator: Xoshiro256PlusPlus::seed_from_u64(seed),
        }
    }

    /// The next word.
    pub(crate) fn word(&mut self) -> u64 {
        self.generator.next_u64()
    }

    /// A number below another, 0 where there is none.
    pub(crate) fn below(&mut self, count: usize) -> usize
        ensures below { 0 < count → result < count }
        ensures most { result ≤ count }
    {
        if count == 0 {
            return 0;
        }
        (self.word() % count as u64) as usize
    }

    /// A number of 32 bits below another, 0 where there is none.
    pub(crate) fn small(&mut self, count: u32) -> u32
        ensures below { 0 < count → result < count }
        ensures most { result ≤ count }
    {
        if count == 0 {
            return 0;
        }
        (self.word() % u64::from(count)) as u32
    }

    /// Whether what comes to pass so often does.
    pub(crate) fn happens(&mut self, percent: Percent) -> bool {
        part_of(self.word()) < u64::from(percent.tenths)
    }

    /// Whether what comes to pass once in so many times does.
    pub(crate) fn is_one_of(&mut self, count: usize) -> bool {
        self.below(count) == 0
    }

    /// One of a list, if it has any.
    pub(crate) fn one<'a, T>(&mut self, list: &'a [T]) -> Option<&'a T> {
        let place = self.below(list.len());
        list.get(place)
    }

    /// A number below 1000 that is always the same for this seed, thing and place.
    pub(crate) fn fate(&self, thing: u64, place: u64) -> u64
        ensures { result < 1000 }
    {
        let mixed = SplitMix64::seed_from_u64(thing ^ place.rotate_left(48)).next_u64();
        part_of(SplitMix64::seed_from_u64(self.seed ^ mixed).next_u64())
    }
}
