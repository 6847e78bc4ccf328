//! Broadcasts that two managers forward to one place (J.4.5), and registrations that a manager refuses (J.5.2).

use diagnosis_parts::{At, LinkAddress, digest_of};
use findings::{Finding, Findings, Kind, Packets};
use lru::{DefaultHasher, LruCache};
use std::alloc::{AllocError, Allocator};
use std::num::NonZeroUsize;

/// Within so many microseconds the same message is one broadcast.
const MICROSECONDS: u64 = 1_000_000;

/// A broadcast of an origin, forwarded to an address.
#[derive(Clone, Copy, PartialEq, Eq, Hash)]
struct Forwarded {
    origin: LinkAddress,
    to: LinkAddress,
    /// What stands for the NPDU.
    npdu: u64,
    count: usize,
}

/// A registration that is asked for.
#[derive(Clone, Copy, PartialEq, Eq, Hash)]
struct Registration {
    device: LinkAddress,
    manager: LinkAddress,
}

/// Who forwarded a broadcast last.
#[derive(Clone, Copy)]
struct Forwarder {
    by: LinkAddress,
    at: At,
}

/// The broadcasts that managers forward, and the registrations that they are asked for.
#[derive(Drop)]
pub(crate) struct Forwarding<A: Allocator> {
    last: LruCache<Forwarded, Forwarder, DefaultHasher, A>,
    asked: LruCache<Registration, u64, DefaultHasher, A>,
}

impl<A: Allocator + Copy> Forwarding<A> {
    /// None yet, of so many at most.
    pub(crate) fn new(alloc: A, most: NonZeroUsize) -> Result<Forwarding<A>, AllocError> {
        Ok(Forwarding {
            last: LruCache::sparse(alloc, most)?,
            asked: LruCache::sparse(alloc, most)?,
        })
    }

    /// A manager forwards the broadcast of an origin to an address.
    pub(crate) fn forward(
        &mut self,
        by: LinkAddress,
        to: LinkAddress,
        origin: LinkAddress,
        npdu: &[u8],
        at: At,
        findings: &mut Findings<A>,
    ) -> Result<(), AllocError> {
        let forwarded = Forwarded {
            origin,
            to,
            npdu: digest_of(npdu),
            count: npdu.len(),
        };
        if let Some(known) = self.last.peek(&forwarded).copied() {
            let is_soon = at.moment.saturating_sub(known.at.moment) <= MICROSECONDS;
            if known.by != by && is_soon {
                findings.tell(Finding {
                    kind: Kind::BroadcastTwice {
                        origin,
                        one: known.by,
                        other: by,
                    },
                    packets: Packets::two(known.at.packet, at.packet),
                })?;
            }
        }
        self.last.put(forwarded, Forwarder { by, at })?;
        Ok(())
    }

    /// A foreign device asks a manager to register it.
    pub(crate) fn register(
        &mut self,
        device: LinkAddress,
        manager: LinkAddress,
        at: At,
    ) -> Result<(), AllocError> {
        self.asked.put(Registration { device, manager }, at.packet)?;
        Ok(())
    }

    /// A manager refuses to register a foreign device.
    pub(crate) fn refusal(&self, device: LinkAddress, manager: LinkAddress, at: At) -> Finding {
        let packets = match self.asked.peek(&Registration { device, manager }) {
            Some(asked) => Packets::two(*asked, at.packet),
            None => Packets::one(at.packet),
        };
        Finding {
            kind: Kind::RegistrationRefused { device, manager },
            packets,
        }
    }
}
