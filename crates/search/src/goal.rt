//! What is searched for.

use simulator::World;
use std::alloc::{AllocError, Allocator};

/// What is searched for in worlds.
pub trait Goal<A: Allocator + Copy> {
    /// Whether it came about in a world.
    ///
    /// # Errors
    /// Want of memory.
    fn is_met(&self, world: &World<A>) -> Result<bool, AllocError>;
}
