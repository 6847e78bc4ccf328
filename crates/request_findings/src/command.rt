//! The last writes of one property, and what a read shows of them (5.4.5, 19.2).

use crate::priorities::Priorities;
use crate::value::Value;
use diagnosis_parts::{Key, Transaction};
use findings::Packets;

/// With fewer requests in between no client has gone through all its invoke IDs.
const INVOKE_IDS: u64 = 255;

/// After so many microseconds no request is under way any longer.
const UNDER_WAY: u64 = 60_000_000;

/// A write of a property.
#[derive(Clone, Copy)]
pub(crate) struct Write {
    pub(crate) key: Key,
    /// What stands for the contents of the request.
    pub(crate) contents: u64,
    pub(crate) value: Value,
    pub(crate) priority: u8,
    /// The number of its first packet.
    pub(crate) packet: u64,
    /// When that was captured, in microseconds.
    pub(crate) began: u64,
    /// How many requests had come with it.
    pub(crate) requests: u64,
}

/// A write that was said again.
#[derive(Clone, Copy)]
struct Again {
    packet: u64,
    /// The number of the packet that acknowledges it.
    answer: Option<u64>,
}

/// The last writes of a property: one, acknowledged; another one after it, acknowledged; the first said again.
#[derive(Clone, Copy)]
pub(crate) struct Command {
    first: Option<Write>,
    /// The other write, and the number of the packet that acknowledges it.
    other: Option<(Write, u64)>,
    again: Option<Again>,
    /// One that waits for its answer.
    open: Option<Write>,
    /// The priorities that may hold a value.
    commanded: Priorities,
    /// When the last write came that may be executed at any time after it, in microseconds.
    unsettled: Option<u64>,
}

/// What a read shows of the writes before it.
#[derive(Clone, Copy)]
pub(crate) enum Shown {
    /// Nothing; they are still known.
    Nothing,
    /// What they say isn't what is read, or may be read for another reason.
    Otherwise,
    /// The first one, with this key, was executed twice.
    Twice(Key, Packets),
}

impl Command {
    /// No write is known.
    pub(crate) fn none() -> Command {
        Command {
            first: None,
            other: None,
            again: None,
            open: None,
            commanded: Priorities::none(),
            unsettled: None,
        }
    }

    /// None of the last writes is known any longer.
    pub(crate) fn forgotten(self) -> Command {
        Command {
            commanded: self.commanded,
            unsettled: self.unsettled,
            ..Command::none()
        }
    }

    /// A write may be executed at any time after this moment, in microseconds.
    fn unsettled(self, moment: u64) -> Command {
        Command {
            unsettled: Some(moment),
            ..self.forgotten()
        }
    }

    /// Whether all writes before this one were executed before it, or never will be.
    fn is_settled(&self, write: Write) -> bool {
        match self.unsettled {
            None => true,
            Some(moment) => UNDER_WAY < write.began.saturating_sub(moment),
        }
    }

    /// A request to write came that wasn't under way: what it writes, if that is understood. Before the packet
    /// `disturbed` came the last write of several properties.
    pub(crate) fn asked(
        self,
        known: &Transaction,
        write: Option<Write>,
        disturbed: u64,
    ) -> Command {
        let commanded = match write {
            Some(write) if !write.value.is_null() => self.commanded.with(write.priority),
            Some(_) | None => self.commanded,
        };
        let now = Command { commanded, ..self };
        match write {
            Some(write) if known.before.is_some() => {
                if now.is_said_again(write, disturbed) {
                    now.said_again(write.packet)
                } else {
                    now.repeated(write)
                }
            }
            Some(_) | None => now.written(write, known.began),
        }
    }

    /// Whether a write is the first one, said again soon after it was acknowledged and after another one was.
    fn is_said_again(&self, write: Write, disturbed: u64) -> bool {
        let Some(first) = self.first else {
            return false;
        };
        let is_in_order = self.other.is_some() && self.again.is_none() && self.open.is_none();
        let is_near = write.requests.saturating_sub(first.requests) < INVOKE_IDS;
        write.is_same(first) && is_in_order && is_near && disturbed < first.packet
    }

    /// The first write is said again.
    fn said_again(self, packet: u64) -> Command {
        let answer = None;
        Command {
            again: Some(Again { packet, answer }),
            ..self
        }
    }

    /// A write is said again that was answered. Of the first one, or of the other, that changes nothing; an older one
    /// is answered from memory, or executed once more.
    fn repeated(self, write: Write) -> Command {
        let is_first = self.first.is_some_and(|first| write.is_same(first));
        let is_other = self.other.is_some_and(|(other, _)| write.is_same(other));
        if is_first || is_other {
            self
        } else {
            self.unsettled(write.began)
        }
    }

    /// A write is said again that wasn't answered, with this first packet: one that nobody waits for any longer may be
    /// executed from this moment on, in microseconds.
    pub(crate) fn asked_again(self, first: u64, moment: u64) -> Command {
        let is_open = self.open.is_some_and(|open| open.packet == first);
        let is_again = self.again.is_some_and(|again| again.packet == first);
        if is_open || is_again {
            self
        } else {
            self.unsettled(moment)
        }
    }

    /// Another write comes: one of a simple value, or none that is understood.
    fn written(self, write: Option<Write>, moment: u64) -> Command {
        if self.open.is_some() || write.is_none() {
            return Command {
                open: write,
                ..self.unsettled(moment)
            };
        }
        match self.other {
            Some((other, _)) => Command {
                first: Some(other),
                open: write,
                ..self.forgotten()
            },
            None => Command {
                open: write,
                ..self
            },
        }
    }

    /// The write whose first packet has this number is answered by another packet.
    pub(crate) fn answered(self, first: u64, is_done: bool, answer: u64) -> Command {
        if let Some(again) = self.again {
            if again.packet == first {
                return self.answered_again(again, is_done, answer);
            }
        }
        let Some(open) = self.open else {
            return self;
        };
        if open.packet != first {
            return self;
        }
        let closed = Command { open: None, ..self };
        if is_done {
            closed.acknowledged(open, answer)
        } else {
            closed
        }
    }

    /// The first write, said again, is answered.
    fn answered_again(self, again: Again, is_done: bool, answer: u64) -> Command {
        if !is_done {
            return self.forgotten();
        }
        let answer = Some(answer);
        Command {
            again: Some(Again { answer, ..again }),
            ..self
        }
    }

    /// A write is acknowledged.
    fn acknowledged(self, write: Write, answer: u64) -> Command {
        if !self.is_settled(write) {
            return self.forgotten();
        }
        let commanded = if write.value.is_null() {
            self.commanded.without(write.priority)
        } else {
            self.commanded
        };
        match (self.first, self.other) {
            (Some(first), None) if write.is_other(first) => Command {
                other: Some((write, answer)),
                ..self
            },
            (Some(_), _) | (None, _) => Command {
                first: Some(write),
                commanded,
                ..self.forgotten()
            },
        }
    }

    /// What a read shows whose first packet has this number. Before the packet `disturbed` came the last write of
    /// several properties.
    pub(crate) fn judged(&self, read: u64, value: Value, disturbed: u64) -> Shown {
        let (Some(first), Some((other, done))) = (self.first, self.other) else {
            return Shown::Nothing;
        };
        match self.again {
            None if done < read && value != other.value => Shown::Otherwise,
            None => Shown::Nothing,
            Some(again) => match again.answer {
                Some(answer) if answer < read => {
                    let is_alone = self.open.is_none()
                        && disturbed < first.packet
                        && !self.commanded.is_any_above(first.priority);
                    if is_alone && value == first.value {
                        let packets = Packets::three(first.packet, other.packet, again.packet);
                        Shown::Twice(first.key, packets)
                    } else {
                        Shown::Otherwise
                    }
                }
                Some(_) | None => Shown::Nothing,
            },
        }
    }
}

impl Write {
    /// Whether it commands something else with the same priority.
    fn is_other(&self, first: Write) -> bool {
        self.key != first.key
            && self.priority == first.priority
            && self.value != first.value
            && !self.value.is_null()
    }

    /// Whether this is another saying of the same request.
    fn is_same(&self, other: Write) -> bool {
        self.key == other.key && self.contents == other.contents
    }
}
