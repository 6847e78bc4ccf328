//! Messages in segments: those that are lost, and those that are sent beyond the receiver's window (5.2.2).

use apdu::Segment;
use diagnosis_parts::{At, Key, SegmentsTaken};
use findings::{Finding, Findings, Kind, Packets};
use lru::{DefaultHasher, LruCache};
use std::alloc::{AllocError, Allocator};
use std::num::NonZeroUsize;

/// From this distance on a sequence number is one from before, as they begin again after 255 (20.1.2.7).
const BEFORE: u8 = 128;

/// Who sends the segments of a transaction.
#[derive(Clone, Copy, PartialEq, Eq, Hash)]
pub enum Sender {
    Client,
    Server,
}

/// A message in segments: the request or the answer of a transaction.
#[derive(Clone, Copy, PartialEq, Eq, Hash)]
struct Message {
    key: Key,
    sender: Sender,
}

/// How far a message has come.
#[derive(Clone, Copy)]
struct Progress {
    /// The number of the packet with its first segment.
    first: u64,
    /// The sequence number of the last segment.
    sent: u8,
    /// The last one that was acknowledged; before that, the one before the first.
    acknowledged: u8,
    /// How many segments may follow that.
    window: u8,
    /// The packet with the first segment beyond the window.
    beyond: Option<u64>,
    /// Whether segments are lacking, to the receiver or to the capture: then a window isn't judged.
    is_lacking: bool,
    /// Whether something is told of the message.
    is_told: bool,
}

/// The messages in segments of a capture.
#[derive(Drop)]
pub struct Segments<A: Allocator> {
    known: LruCache<Message, Progress, DefaultHasher, A>,
}

impl<A: Allocator + Copy> Segments<A> {
    /// None yet, of so many messages at most.
    ///
    /// # Errors
    /// Want of memory.
    pub fn new(alloc: A, most: NonZeroUsize) -> Result<Segments<A>, AllocError> {
        Ok(Segments {
            known: LruCache::sparse(alloc, most)?,
        })
    }

    /// A transaction begins.
    pub fn begin(&mut self, key: Key) {
        if self.known.is_empty() {
            return;
        }
        for sender in [Sender::Client, Sender::Server] {
            self.known.pop(&Message { key, sender });
        }
    }

    /// A segment is sent.
    ///
    /// # Errors
    /// Want of memory.
    pub fn sent(
        &mut self,
        key: Key,
        sender: Sender,
        segment: Segment,
        at: At,
        findings: &mut Findings<A>,
    ) -> Result<(), AllocError> {
        let message = Message { key, sender };
        let number = segment.sequence_number;
        let next = match self.known.peek(&message).copied() {
            Some(known) => {
                let is_lost = known.is_again(number) && !known.is_told;
                if is_lost {
                    findings.tell(known.lost(key, at))?;
                }
                Progress {
                    is_told: known.is_told || is_lost,
                    ..known.with_segment(number, at.packet)
                }
            }
            None if number == 0 => Progress::new(at.packet),
            None => return Ok(()),
        };
        self.known.put(message, next)?;
        Ok(())
    }

    /// A SegmentACK comes for what the other side sends.
    ///
    /// # Errors
    /// Want of memory.
    pub fn taken(
        &mut self,
        key: Key,
        sender: Sender,
        taken: SegmentsTaken,
        at: At,
        findings: &mut Findings<A>,
    ) -> Result<(), AllocError> {
        let message = Message { key, sender };
        let Some(known) = self.known.peek(&message).copied() else {
            return Ok(());
        };
        let is_told = match known.shown_by(key, taken, at) {
            Some(finding) => {
                findings.tell(finding)?;
                true
            }
            None => known.is_told,
        };
        let next = Progress {
            acknowledged: taken.sequence_number,
            window: taken.window.max(1),
            beyond: None,
            is_lacking: known.is_lacking || taken.is_negative,
            is_told,
            ..known
        };
        self.known.put(message, next)?;
        Ok(())
    }
}

impl Progress {
    /// With the first segment, after which its SegmentACK is awaited.
    fn new(packet: u64) -> Progress {
        Progress {
            first: packet,
            sent: 0,
            acknowledged: u8::MAX,
            window: 1,
            beyond: None,
            is_lacking: false,
            is_told: false,
        }
    }

    /// That segments were lost, as a packet shows.
    fn lost(&self, key: Key, at: At) -> Finding {
        Finding {
            kind: Kind::SegmentsLost(key),
            packets: Packets::two(self.first, at.packet),
        }
    }

    /// Whether a segment of this number was sent before.
    fn is_again(&self, number: u8) -> bool {
        let distance = number.wrapping_sub(self.sent);
        distance == 0 || BEFORE <= distance
    }

    /// After a segment of this number; one that isn't the next shows that some are lacking, also to the capture alone.
    fn with_segment(self, number: u8, packet: u64) -> Progress {
        if number.wrapping_sub(self.sent) != 1 {
            return Progress {
                sent: number,
                is_lacking: true,
                ..self
            };
        }
        let is_beyond = self.window < number.wrapping_sub(self.acknowledged);
        let beyond = match self.beyond {
            None if is_beyond => Some(packet),
            beyond => beyond,
        };
        Progress {
            sent: number,
            beyond,
            ..self
        }
    }

    /// What a SegmentACK shows: a segment is lacking; or one was sent beyond the window, as this comes for a segment
    /// within it.
    fn shown_by(&self, key: Key, taken: SegmentsTaken, at: At) -> Option<Finding> {
        if self.is_told {
            return None;
        }
        if taken.is_negative {
            return Some(self.lost(key, at));
        }
        let reach = taken.sequence_number.wrapping_sub(self.acknowledged);
        let beyond = self.beyond?;
        if self.is_lacking || reach == 0 || self.window < reach {
            return None;
        }
        Some(Finding {
            kind: Kind::WindowExceeded {
                key,
                window: self.window,
            },
            packets: Packets::three(self.first, beyond, at.packet),
        })
    }
}
