//! How long answers take, in buckets whose middle is within two percent of each time in them.

use std::alloc::{AllocError, Allocator};

/// The parts of each power of two, which has as many buckets.
const PARTS: u64 = 32;

/// The bits of a part's number.
const PART_BITS: u32 = 5;

/// By so many bits the greatest time is shifted to its part: but for the first one and those of a part's number.
const MOST_SHIFT: u32 = 58;

/// The buckets of all times below two to the 40th power of microseconds, which is twelve days.
const BUCKETS: usize = 1152;

/// How many answers took how long, in microseconds.
#[derive(Drop)]
pub struct Times<A: Allocator> {
    buckets: Vec<u64, A>,
    count: u64,
}

impl<A: Allocator> Times<A> {
    /// No answer yet.
    pub fn new(alloc: A) -> Result<Times<A>, AllocError> {
        let buckets = Vec::from_slice(alloc, &[0; BUCKETS])?;
        Ok(Times { buckets, count: 0 })
    }

    /// Counts an answer after so many microseconds.
    pub fn add(&mut self, time: u64) {
        if let Some(bucket) = self.buckets.get_mut(bucket_of(time)) {
            *bucket = bucket.saturating_add(1);
            self.count = self.count.saturating_add(1);
        }
    }

    /// The time, in microseconds, within which so many of a hundred answers came; `None` where there is none.
    pub fn percentile(&self, percent: u64) -> Option<u64> {
        if self.count == 0 {
            return None;
        }
        let wanted = self.count.saturating_mul(percent).div_ceil(100);
        let mut seen = 0u64;
        for (at, bucket) in self.buckets.iter().enumerate() {
            seen = seen.saturating_add(*bucket);
            if wanted <= seen {
                return Some(middle_of(at as u64));
            }
        }
        None
    }
}

/// The place of the bucket of a time: the time itself below 32, and else by its power of two and its part of that.
fn bucket_of(time: u64) -> usize {
    if time < PARTS {
        return time as usize;
    }
    let shift = time.ilog2().saturating_sub(PART_BITS).min(MOST_SHIFT);
    let part = (time >> shift) % PARTS;
    let place = (u64::from(shift) + 1) * PARTS + part;
    (place as usize).min(BUCKETS - 1)
}

/// The time in the middle of a bucket.
fn middle_of(place: u64) -> u64 {
    if place < PARTS {
        return place;
    }
    let shift = (place / PARTS - 1).min(40);
    let low = (PARTS + place % PARTS) << shift;
    low.saturating_add((1 << shift) >> 1)
}
