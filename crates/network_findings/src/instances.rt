//! Devices with one instance at two addresses (12.11.1).

use diagnosis_parts::{At, LinkAddress, Party, Remote};
use findings::{Finding, Findings, Kind, Packets};
use lru::{DefaultHasher, LruCache};
use std::alloc::{AllocError, Allocator};
use std::num::NonZeroUsize;

/// The instance that stands for any (12).
const ANY_INSTANCE: u32 = 4_194_303;

/// The form in which a link shows a station: as its own, by its interface, or as one of a network behind a router.
#[derive(Clone, Copy, PartialEq, Eq, Hash)]
enum Form {
    Ip,
    Bus(u32),
    Behind(u16),
}

/// An instance, in one form.
#[derive(Clone, Copy, PartialEq, Eq, Hash)]
struct Claim {
    instance: u32,
    form: Form,
}

/// A station that says that it has the instance, and the number of the packet.
#[derive(Clone, Copy)]
struct Claimed {
    by: Party,
    packet: u64,
}

/// Who said last that it has the instance, and who before that.
#[derive(Clone, Copy)]
struct Claims {
    one: Claimed,
    other: Option<Claimed>,
    is_told: bool,
}

/// The instances that stations say they have.
#[derive(Drop)]
pub(crate) struct Instances<A: Allocator> {
    claims: LruCache<Claim, Claims, DefaultHasher, A>,
}

impl<A: Allocator + Copy> Instances<A> {
    /// None yet, of so many at most.
    pub(crate) fn new(alloc: A, most: NonZeroUsize) -> Result<Instances<A>, AllocError> {
        Ok(Instances {
            claims: LruCache::sparse(alloc, most)?,
        })
    }

    /// A station says that it has an instance.
    pub(crate) fn claim(
        &mut self,
        by: Party,
        instance: u32,
        at: At,
        findings: &mut Findings<A>,
    ) -> Result<(), AllocError> {
        if instance == ANY_INSTANCE {
            return Ok(());
        }
        let claim = Claim {
            instance,
            form: form_of(by),
        };
        let claimed = Claimed {
            by,
            packet: at.packet,
        };
        let next = match self.claims.peek(&claim).copied() {
            Some(claims) => claims.after(claimed, instance, findings)?,
            None => Claims {
                one: claimed,
                other: None,
                is_told: false,
            },
        };
        self.claims.put(claim, next)?;
        Ok(())
    }
}

impl Claims {
    /// After another I-Am. That two stations say it by turns is told once.
    fn after<A: Allocator>(
        self,
        claimed: Claimed,
        instance: u32,
        findings: &mut Findings<A>,
    ) -> Result<Claims, AllocError> {
        if is_one_place(self.one.by, claimed.by) {
            return Ok(Claims {
                one: claimed,
                ..self
            });
        }
        let is_back = match self.other {
            Some(other) => is_one_place(other.by, claimed.by),
            None => false,
        };
        let mut is_told = self.is_told;
        if let Some(other) = self.other {
            if is_back && !is_told {
                is_told = true;
                findings.tell(two_addresses(instance, other, self.one, claimed))?;
            }
        }
        Ok(Claims {
            one: claimed,
            other: Some(self.one),
            is_told,
        })
    }
}

/// That one station, another and the first again have an instance.
fn two_addresses(instance: u32, one: Claimed, other: Claimed, again: Claimed) -> Finding {
    Finding {
        kind: Kind::TwoAddressesOneInstance {
            instance,
            one: one.by,
            other: other.by,
        },
        packets: Packets::three(one.packet, other.packet, again.packet),
    }
}

/// The form in which a link shows a station.
fn form_of(party: Party) -> Form {
    match (party.remote, party.link) {
        (Some(remote), _) => Form::Behind(remote.net()),
        (None, LinkAddress::Ip(_, _)) => Form::Ip,
        (None, LinkAddress::Node(bus, _)) => Form::Bus(bus),
    }
}

/// Whether two stations are one: by network and address behind whichever router, or by their address on the link.
fn is_one_place(one: Party, other: Party) -> bool {
    let remotes: (Option<Remote>, Option<Remote>) = (one.remote, other.remote);
    match remotes {
        (Some(one), Some(other)) => one == other,
        (None, None) => one.link == other.link,
        (Some(_), None) | (None, Some(_)) => false,
    }
}
