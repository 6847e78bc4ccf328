//! Answers to no request that is known.

use diagnosis_parts::{Key, Party, RequestCounts};
use findings::{Finding, Kind, Packets};

/// A capture sees one side where more than one of so many answers has no request.
const ONE_OF: u64 = 10;

/// .. and so many have none: fewer may answer requests from before it.
const FEW: u64 = 10;

/// An answer to no request that is known.
#[derive(Clone, Copy)]
pub(crate) struct Stray {
    /// The number of its packet.
    pub(crate) packet: u64,
    /// Who answered.
    pub(crate) from: Party,
}

impl Stray {
    /// That it came, to a client and with an invoke ID.
    pub(crate) fn finding(self, key: Key) -> Finding {
        Finding {
            kind: Kind::AnswerWithoutRequest(Key {
                server: self.from,
                ..key
            }),
            packets: Packets::one(self.packet),
        }
    }
}

/// The first answers to no request, and whether it is told that there are many.
#[derive(Clone, Copy)]
pub(crate) struct Strays {
    first: Packets,
    is_told: bool,
}

impl Strays {
    /// None yet.
    pub(crate) fn none() -> Strays {
        Strays {
            first: Packets::one(0),
            is_told: false,
        }
    }

    /// Another one came in the packet of this number.
    pub(crate) fn note(&mut self, packet: u64) {
        self.first = self.first.and(packet);
    }

    /// Whether more than one of ten answers has no request.
    pub(crate) fn are_many(&self, counts: &RequestCounts) -> bool {
        let answers = counts.answered.saturating_add(counts.strays);
        answers < counts.strays.saturating_mul(ONE_OF)
    }

    /// Whether the capture sees one side of what is said.
    pub(crate) fn is_one_sided(&self, counts: &RequestCounts) -> bool {
        FEW <= counts.strays && self.are_many(counts)
    }

    /// That the capture sees one side, the first time that this is asked for.
    pub(crate) fn told(&mut self, counts: &RequestCounts) -> Option<Finding> {
        if self.is_told {
            return None;
        }
        self.is_told = true;
        Some(Finding {
            kind: Kind::OneSidedCapture {
                strays: counts.strays,
                answers: counts.answered.saturating_add(counts.strays),
            },
            packets: self.first,
        })
    }
}
