//! What holds of lists of records. A function without a body is a law: its contract, for the proofs of the
//! layers above.

ghost use Rattle.remembered.specs.Laws.{ForgottenAreDead, FullIsLiving, NewestLives};

use std::alloc::Allocator;

/// What is left once the dead ones at the front are forgotten are just the living ones.
#[tactic(auto, using(crate::proofs::Living::forgotten_are_dead))]
pub fn forgotten_are_dead<A: Allocator>()
    ensures { ForgottenAreDead A }
{}

/// There is no place for another record exactly where 64 live.
#[tactic(auto, using(crate::proofs::Living::full_is_living))]
pub fn full_is_64_living<A: Allocator>()
    ensures { FullIsLiving A }
{}

/// What is remembered for an asker is its newest record among the living ones.
#[tactic(auto, using(crate::proofs::Living::newest_lives))]
pub fn newest_lives<A: Allocator>()
    ensures { NewestLives A }
{}
