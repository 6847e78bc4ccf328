//! A transaction: a request, followed to its end (5.4).

use crate::at::At;
use crate::heading::Outcome;
use crate::subject::Subject;

/// When a request is answered first.
#[derive(Clone, Copy)]
pub struct FirstAnswer {
    /// The number of the packet.
    pub packet: u64,
    /// How long that took from the first packet of the request, in microseconds.
    pub microseconds: u64,
    /// What stands for its octets; `None` for a segment.
    pub contents: Option<u64>,
}

/// The same request before, which was answered.
#[derive(Clone, Copy)]
pub struct Before {
    /// The number of its first packet.
    pub first: u64,
    /// Its answer.
    pub answer: FirstAnswer,
}

/// A request, followed to its end.
#[derive(Clone, Copy)]
pub struct Transaction {
    /// The number of its first packet.
    pub first: u64,
    /// When that was captured, in microseconds.
    pub began: u64,
    /// When its last packet was captured, in microseconds.
    pub last: u64,
    /// The number of its service (21, BACnetConfirmedServiceChoice).
    pub service: u8,
    /// Its first object and property.
    pub subject: Subject,
    /// What stands for the contents of the request.
    pub contents: u64,
    /// How often the request came again.
    pub repeats: u32,
    /// The number of the packet with which it came last.
    pub said: u64,
    /// The same request with the same invoke ID, which was answered shortly before.
    pub before: Option<Before>,
    /// How many segments came, of the request and of the answer.
    pub segments: u32,
    /// Its first answer.
    pub answer: Option<FirstAnswer>,
    /// How it ended, if it did.
    pub outcome: Option<Outcome>,
}

impl Transaction {
    /// Whether nothing of it came for so many microseconds.
    pub fn is_silent(&self, microseconds: u64, moment: u64) -> bool {
        microseconds <= moment.saturating_sub(self.last)
    }

    /// Whether it has ended, or nothing of it came for the microseconds that it waits.
    pub fn is_over(&self, timeout: u64, moment: u64) -> bool {
        self.outcome.is_some() || self.is_silent(timeout, moment)
    }

    /// Whether it asks for this service with contents that these stand for.
    pub fn is_same(&self, service: u8, contents: u64) -> bool {
        self.service == service && self.contents == contents
    }

    /// Whether nobody knows how it will end: it has no answer yet, and waits.
    pub fn is_open(&self, timeout: u64, moment: u64) -> bool {
        self.answer.is_none() && !self.is_over(timeout, moment)
    }

    /// After the request came again.
    pub fn repeated(self, at: At) -> Transaction {
        Transaction {
            repeats: self.repeats.saturating_add(1),
            said: at.packet,
            last: at.moment,
            ..self
        }
    }

    /// After a segment came.
    pub fn with_segment(self, moment: u64) -> Transaction {
        Transaction {
            segments: self.segments.saturating_add(1),
            last: moment,
            ..self
        }
    }

    /// After a message that may end it.
    pub fn with_outcome(self, outcome: Option<Outcome>, moment: u64) -> Transaction {
        Transaction {
            outcome: self.outcome.or(outcome),
            last: moment,
            ..self
        }
    }

    /// After an answer whose octets these stand for, if it is no segment.
    pub fn answered(self, contents: Option<u64>, at: At) -> Transaction {
        let first = FirstAnswer {
            packet: at.packet,
            microseconds: at.moment.saturating_sub(self.began),
            contents,
        };
        Transaction {
            answer: Some(self.answer.unwrap_or(first)),
            last: at.moment,
            ..self
        }
    }
}
