//! What a receiver does on a segment, and a sender on a SegmentACK or a wake (5.4).

/// What a receiver does on a segment.
#[derive(Clone, Copy, Debug, PartialEq, Eq)]
pub enum Step {
    /// It is the next one, and is appended. Where a SegmentACK is due, this is its sequence number.
    Taken(Option<u8>),
    /// It is another one: a SegmentACK with NAK is due, and this is its sequence number, that of the last
    /// segment that was appended.
    Nak(u8),
    /// It is another one, and nothing is said: none was begun, all have come, or a NAK was said already.
    Dropped,
    /// It is the next one, and would pass the greatest number of segments or of octets.
    Full,
}

/// What a sender does.
#[derive(Clone, Copy, Debug, PartialEq, Eq)]
pub enum Turn {
    /// Nothing: the SegmentACK is dropped, or its wait goes on.
    Waits,
    /// It says its window.
    Sends,
    /// It has ended: each segment is acknowledged, or its last repeat was not.
    Ends,
}

impl Turn {
    ghost use Rattle.std.specs.Prelude.{◌≡◌};
    ghost use Rattle.segments.specs.Sender.{waits};

    /// Whether nothing is done.
    pub fn waits(self) -> bool
        ensures { result ≡ waits self }
    {
        matches!(self, Turn::Waits)
    }
}
