//! Messages that come from one sender again and again, each time with a lower hop count (6.2.3).

use diagnosis_parts::{At, LinkAddress, Party, digest_of};
use findings::{Finding, Findings, Kind, Packets};
use lru::{DefaultHasher, LruCache};
use npdu::{Destination, View};
use std::alloc::{AllocError, Allocator};
use std::num::NonZeroUsize;

/// For so many microseconds a message may be under way.
const MICROSECONDS: u64 = 60_000_000;

/// A message as one sends it, but for its hop count.
#[derive(Clone, Copy, PartialEq, Eq, Hash)]
struct Passing {
    sender: Party,
    net: u16,
    /// What stands for DADR and for what follows the header.
    mac: u64,
    body: u64,
    count: usize,
}

/// The last hop count of a message, and the packets with those before it.
#[derive(Clone, Copy)]
struct Hops {
    hops: u8,
    moment: u64,
    packet: u64,
    before: u64,
    is_told: bool,
}

/// The messages that pass.
#[derive(Drop)]
pub(crate) struct Circles<A: Allocator> {
    last: LruCache<Passing, Hops, DefaultHasher, A>,
}

impl<A: Allocator + Copy> Circles<A> {
    /// None yet, of so many at most.
    pub(crate) fn new(alloc: A, most: NonZeroUsize) -> Result<Circles<A>, AllocError> {
        Ok(Circles {
            last: LruCache::sparse(alloc, most)?,
        })
    }

    /// A message to another network passes, from an address on the link.
    pub(crate) fn pass(
        &mut self,
        from: LinkAddress,
        sender: Party,
        destination: Destination<'_>,
        view: &View<'_>,
        at: At,
        findings: &mut Findings<A>,
    ) -> Result<(), AllocError> {
        let passing = Passing {
            sender,
            net: u16::from(destination.net),
            mac: digest_of(destination.mac),
            body: digest_of(view.body),
            count: view.body.len(),
        };
        let hops = destination.hops;
        let next = match self.last.peek(&passing).copied() {
            Some(known) if known.is_followed(hops, at.moment) => {
                if known.before != 0 && !known.is_told {
                    findings.tell(Finding {
                        kind: Kind::MessageCircles { sender: from, hops },
                        packets: Packets::three(known.before, known.packet, at.packet),
                    })?;
                }
                known.with_next(hops, at)
            }
            Some(_) | None => Hops {
                hops,
                moment: at.moment,
                packet: at.packet,
                before: 0,
                is_told: false,
            },
        };
        self.last.put(passing, next)?;
        Ok(())
    }
}

impl Hops {
    /// Whether a hop count is lower, soon after.
    fn is_followed(&self, hops: u8, moment: u64) -> bool {
        hops < self.hops && moment.saturating_sub(self.moment) <= MICROSECONDS
    }

    /// With a lower hop count.
    fn with_next(self, hops: u8, at: At) -> Hops {
        Hops {
            hops,
            moment: at.moment,
            packet: at.packet,
            before: self.packet,
            is_told: self.is_told || self.before != 0,
        }
    }
}
