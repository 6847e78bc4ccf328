//! Frames that are to be put out.

use crate::net_put::NetPut;
use std::alloc::{AllocError, Allocator};
use std::marker::Model;
use traffic::FramePut;

/// Frames that are to be put out, one after another, with all memory that this takes of their own.
#[derive(Drop)]
pub struct Puts<A: Allocator> {
    pub(crate) items: u64,
    pub(crate) frames: Vec<NetPut<A>, A>,
}

impl<A: Allocator> Model for Puts<A> {
    ghost use Rattle.buses.specs.Puts.{PutsState};

    ghost Value = { PutsState A };

    ghost view = { λ p. record { items = p.items; frames = p.frames.items } };
}

impl<A: Allocator + Copy> Puts<A> {
    ghost use Rattle.std.specs.Prelude.{◌≡◌, ◌++◌, IfOk, length};

    /// Frames that are to be put out behind so many datagrams.
    ///
    /// # Errors
    /// Want of memory.
    pub(crate) fn new(alloc: A, frames: Vec<FramePut<A>, A>, items: u64) -> Result<Self, AllocError>
        ensures frames { IfOk result (λ puts. puts.frames ≡ frames.items) }
        ensures items { IfOk result (λ puts. puts.items ≡ items) }
    {
        let mut puts = Vec::new(alloc);
        for frame in frames {
            puts.push(NetPut::new(alloc, frame)?)?;
        }
        Ok(Puts {
            items,
            frames: puts,
        })
    }

    /// How many they are.
    pub(crate) fn len(&self) -> usize
        ensures { result ≡ length self.now.frames }
    {
        self.frames.len()
    }
}
