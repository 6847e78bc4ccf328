//! Who asks, from where, and what he takes of an answer.

use apdu::{MaxApdu, MaxSegments};
use npdu::{Station, Way};
use remembered::Asker;

/// Where an APDU comes from.
#[derive(Clone, Copy, Debug, PartialEq, Eq)]
pub struct Origin {
    /// The station that says it.
    pub station: Station,
    /// How an answer goes there.
    pub way: Way,
    /// Whether it came to this station by a broadcast (5.4).
    pub by_broadcast: bool,
}

/// What a client takes of an answer, as its request says it (20.1.2.3 to 20.1.2.5).
#[derive(Clone, Copy, Debug, PartialEq, Eq)]
pub struct AnswerLimits {
    /// Whether the answer may come in segments.
    pub segmented: bool,
    /// How many segments it may have.
    pub max_segments: MaxSegments,
    /// How many octets an APDU may have.
    pub max_apdu: MaxApdu,
}

/// Who asks, and what of.
#[derive(Clone, Copy, Debug, PartialEq, Eq)]
pub struct Asked {
    /// Who asks.
    pub asker: Asker,
    /// Where the answer goes: the way of what was heard last of this request.
    pub way: Way,
    /// What he takes of the answer; of a request in segments, as the first of them says it.
    pub limits: AnswerLimits,
    /// The number of the service.
    pub service: u8,
}
