//! Packets that are captured twice, as by a mirror port: the same octets with the same ends, one soon after the other.

use captures::Datagram;
use diagnosis_parts::{LinkAddress, digest_of};
use lru::LruCache;
use std::alloc::{AllocError, Allocator};
use std::num::NonZeroUsize;

/// Within so many microseconds the same datagram is one that is captured twice.
const TWICE_WITHIN: u64 = 50_000;

/// What distinguishes a datagram from others.
#[derive(Clone, Copy, PartialEq, Eq, Hash)]
struct Sighting {
    from: LinkAddress,
    to: LinkAddress,
    count: usize,
    /// What stands for the octets.
    digest: u64,
}

/// The datagrams that were captured last, and when.
#[derive(Drop)]
pub(crate) struct Sightings<A: Allocator> {
    recent: LruCache<Sighting, u64, lru::DefaultHasher, A>,
}

impl<A: Allocator + Copy> Sightings<A> {
    /// No datagram yet; so many are known at most.
    pub(crate) fn new(alloc: A, most: NonZeroUsize) -> Result<Sightings<A>, AllocError> {
        Ok(Sightings {
            recent: LruCache::new(alloc, most)?,
        })
    }

    /// Whether a datagram is one that was captured before; if not, it is known from now on.
    pub(crate) fn is_again(
        &mut self,
        datagram: &Datagram<'_>,
        moment: u64,
    ) -> Result<bool, AllocError> {
        let sighting = Sighting {
            from: LinkAddress::from(datagram.from),
            to: LinkAddress::from(datagram.to),
            count: datagram.octets.len(),
            digest: digest_of(datagram.octets),
        };
        if let Some(before) = self.recent.peek(&sighting).copied() {
            if moment.abs_diff(before) <= TWICE_WITHIN {
                return Ok(true);
            }
        }
        self.recent.put(sighting, moment)?;
        Ok(false)
    }
}
