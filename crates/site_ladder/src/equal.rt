//! Which messages have the octets of one before: what these say is written once.

use std::alloc::{AllocError, Allocator};

/// How many heaps there are: messages in different ones aren't equal.
const HEAPS: u64 = 1024;

/// A message with octets that none before it had.
#[derive(Clone, Copy)]
struct Told<'w> {
    number: u64,
    octets: &'w [u8],
}

/// The messages with octets that none before them had.
#[derive(Drop)]
pub(crate) struct Equal<'w, A: Allocator> {
    heaps: Vec<Vec<Told<'w>, A>, A>,
}

impl<'w, A: Allocator + Copy> Equal<'w, A> {
    /// None.
    ///
    /// # Errors
    /// Want of memory.
    pub(crate) fn new(alloc: A) -> Result<Self, AllocError> {
        let mut heaps = Vec::new(alloc);
        for _ in 0..HEAPS {
            heaps.push(Vec::new(alloc))?;
        }
        Ok(Equal { heaps })
    }

    /// Returns the number of the first message with the same octets, or adds this one.
    ///
    /// # Errors
    /// Want of memory.
    pub(crate) fn first_of(
        &mut self,
        number: u64,
        octets: &'w [u8],
    ) -> Result<Option<u64>, AllocError> {
        let heap = heap_of(octets) as usize;
        if self.heaps.len() <= heap {
            return Ok(None);
        }
        for told in &self.heaps[heap] {
            if told.octets == octets {
                return Ok(Some(told.number));
            }
        }
        self.heaps[heap].push(Told { number, octets })?;
        Ok(None)
    }
}

/// The heap of a message.
fn heap_of(octets: &[u8]) -> u64 {
    let mut sum = 0u64;
    for octet in octets {
        sum = sum.wrapping_mul(31).wrapping_add(u64::from(*octet));
    }
    sum % HEAPS
}
