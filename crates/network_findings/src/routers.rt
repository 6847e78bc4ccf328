//! Networks that two routers announce on one link (6.1, 6.4.2).

use diagnosis_parts::{At, LinkAddress};
use findings::{Finding, Findings, Kind, Packets};
use lru::{DefaultHasher, LruCache};
use std::alloc::{AllocError, Allocator};
use std::num::NonZeroUsize;

/// Within so many microseconds a network has one router.
const MICROSECONDS: u64 = 60_000_000;

/// The limited broadcast, which doesn't tell which link it is on.
const LIMITED: [u8; 4] = [255, 255, 255, 255];

/// A network, as it is announced to an address of a link.
#[derive(Clone, Copy, PartialEq, Eq, Hash)]
struct Announced {
    net: u16,
    to: LinkAddress,
}

/// Who announced a network last.
#[derive(Clone, Copy)]
struct Announcement {
    router: LinkAddress,
    at: At,
    is_told: bool,
}

/// The networks that are announced.
#[derive(Drop)]
pub(crate) struct Routers<A: Allocator> {
    last: LruCache<Announced, Announcement, DefaultHasher, A>,
}

impl<A: Allocator + Copy> Routers<A> {
    /// None yet, of so many at most.
    pub(crate) fn new(alloc: A, most: NonZeroUsize) -> Result<Routers<A>, AllocError> {
        Ok(Routers {
            last: LruCache::sparse(alloc, most)?,
        })
    }

    /// A router announces the networks whose numbers these octets are, to an address of its link.
    pub(crate) fn announce(
        &mut self,
        router: LinkAddress,
        to: LinkAddress,
        nets: &[u8],
        at: At,
        findings: &mut Findings<A>,
    ) -> Result<(), AllocError> {
        if matches!(to, LinkAddress::Ip(ip, _) if ip == LIMITED) {
            return Ok(());
        }
        let mut left = nets;
        while let [high, low, rest @ ..] = left {
            let net = u16::from_be_bytes([*high, *low]);
            self.announce_one(Announced { net, to }, router, at, findings)?;
            left = rest;
        }
        Ok(())
    }

    /// A router announces a network. That two do is told once.
    fn announce_one(
        &mut self,
        announced: Announced,
        router: LinkAddress,
        at: At,
        findings: &mut Findings<A>,
    ) -> Result<(), AllocError> {
        let mut next = Announcement {
            router,
            at,
            is_told: false,
        };
        if let Some(known) = self.last.peek(&announced).copied() {
            next.is_told = known.is_told;
            let is_soon = at.moment.saturating_sub(known.at.moment) <= MICROSECONDS;
            if known.router != router && is_soon && !known.is_told {
                next.is_told = true;
                findings.tell(Finding {
                    kind: Kind::TwoRoutersOneNetwork {
                        net: announced.net,
                        one: known.router,
                        other: router,
                    },
                    packets: Packets::two(known.at.packet, at.packet),
                })?;
            }
        }
        self.last.put(announced, next)?;
        Ok(())
    }
}
