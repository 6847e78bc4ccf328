//! How many packets of a kind came, over a capture.

use crate::plot::{Bar, PLACES};
use std::alloc::{AllocError, Allocator};

/// A second, in microseconds.
const SECOND: u64 = 1_000_000;

/// For how many microseconds each bar stands: as many as all bars need for the capture, and a second at least.
pub(crate) fn width_of(duration: u64) -> u64 {
    (duration / PLACES as u64).saturating_add(1).max(SECOND)
}

/// How many packets of a kind came, for each bar.
#[derive(Drop)]
pub(crate) struct Rates<A: Allocator> {
    /// For how many microseconds a bar stands.
    width: u64,
    counts: Vec<u64, A>,
}

impl<A: Allocator> Rates<A> {
    /// None yet, over a capture of so many microseconds.
    pub(crate) fn new(alloc: A, duration: u64) -> Result<Rates<A>, AllocError> {
        Ok(Rates {
            width: width_of(duration),
            counts: Vec::from_slice(alloc, &[0; PLACES])?,
        })
    }

    /// Counts a packet so many microseconds after the first.
    pub(crate) fn count(&mut self, since: u64) {
        let place = since / self.width.max(1);
        if let Some(count) = self.counts.get_mut(place as usize) {
            *count = count.saturating_add(1);
        }
    }

    /// How many came a second, in thousandths.
    pub(crate) fn bars(&self, alloc: A) -> Result<Vec<Bar, A>, AllocError> {
        let mut bars = Vec::new(alloc);
        let mut place = 0u64;
        for count in &self.counts {
            let value = count.saturating_mul(1000).saturating_mul(SECOND) / self.width.max(1);
            bars.push(Bar { place, value })?;
            place = place.saturating_add(1);
        }
        Ok(bars)
    }
}
