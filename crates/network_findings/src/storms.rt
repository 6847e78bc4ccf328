//! Too many broadcasts within a second.

use diagnosis_parts::At;
use findings::{Finding, Kind, Packets};

/// The microseconds of a second.
const SECOND: u64 = 1_000_000;

/// The broadcasts of a second that begins with one.
#[derive(Clone, Copy)]
pub(crate) struct Storms {
    /// More are a storm.
    most: u64,
    began: u64,
    /// The number of the first packet.
    first: u64,
    count: u64,
    /// Whether the second before was part of a storm, which goes on then.
    goes_on: bool,
}

impl Storms {
    /// No broadcast yet; more than so many within a second are a storm.
    pub(crate) fn new(most: u64) -> Storms {
        Storms {
            most,
            began: 0,
            first: 0,
            count: 0,
            goes_on: false,
        }
    }

    /// A broadcast came. Returns the storm, if that makes it one.
    pub(crate) fn hear(&mut self, at: At) -> Option<Finding> {
        let passed = at.moment.saturating_sub(self.began);
        if self.count == 0 || SECOND <= passed {
            self.goes_on = self.most < self.count && passed < SECOND.saturating_mul(2);
            self.began = at.moment;
            self.first = at.packet;
            self.count = 0;
        }
        self.count = self.count.saturating_add(1);
        let is_storm = self.count.saturating_sub(1) == self.most && !self.goes_on;
        if !is_storm {
            return None;
        }
        Some(Finding {
            kind: Kind::BroadcastStorm(self.most),
            packets: Packets::two(self.first, at.packet),
        })
    }
}
