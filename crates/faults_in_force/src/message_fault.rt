//! A fault of a message: it takes the next sendings of it, and with each the segments that follow in order.

use history::Entry;
use last_hop::{HeardPart, IssueKey, RequestOrAnswer, issue_key};
use npdu::Station;

/// What happens to a sending.
#[derive(Clone, Copy, Debug, PartialEq, Eq)]
pub(crate) enum Deed {
    Lose,
    Repeat,
    /// By so many milliseconds.
    Delay(u64),
    Damage,
}

/// A fault of a message.
#[derive(Clone, Copy)]
pub(crate) struct MessageFault {
    pub(crate) deed: Deed,
    /// How many sendings it still takes.
    pub(crate) left: u64,
    pub(crate) which: RequestOrAnswer,
    /// The number of the request, if there is one.
    pub(crate) number: Option<u64>,
    /// Who issued it, to whom, under which invoke ID; none before that.
    pub(crate) key: Option<IssueKey>,
    /// The last segment of the sending that it takes, where more of it follow.
    pub(crate) taken: Option<u8>,
}

impl MessageFault {
    /// Looks for its request in a history.
    pub(crate) fn find<Q, R>(&mut self, history: &[Entry<Station, Q, R>]) {
        self.key = match self.number {
            Some(number) => issue_key(number, history),
            None => None,
        };
    }

    /// Whether a message between a client and the device of this instance is the one that it is of.
    fn is_of(&self, part: &HeardPart, instance: u32) -> bool {
        let Some(key) = self.key else {
            return false;
        };
        self.which == part.which
            && key.client == part.invocation.client
            && key.invoke_id == part.invocation.invoke_id
            && key.instance == instance
    }

    /// What happens to a message between a client and the device of this instance, if it takes it.
    pub(crate) fn take(&mut self, part: &HeardPart, instance: u32) -> Option<Deed> {
        if !self.is_of(part, instance) {
            return None;
        }
        if !self.goes_on(part) {
            self.taken = None;
            if self.left == 0 {
                return None;
            }
            self.left = self.left.saturating_sub(1);
        }
        self.taken = match part.segment {
            Some(segment) if segment.more_follows => Some(segment.sequence_number),
            Some(_) | None => None,
        };
        Some(self.deed)
    }

    /// Whether a segment is the next one of the sending that it takes (5.2).
    fn goes_on(&self, part: &HeardPart) -> bool {
        match (self.taken, part.segment) {
            (Some(last), Some(segment)) => segment.sequence_number == last.wrapping_add(1),
            (Some(_), None) | (None, _) => false,
        }
    }
}
