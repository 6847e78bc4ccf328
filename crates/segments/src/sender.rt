//! What cuts a message into segments (5.4.4, 5.4.5).

ghost use Rattle.std.specs.Prelude.{◌≡◌, ◌≤◌, false, length, true};
ghost use Rattle.due_times.specs.Until.{Until};
ghost use Rattle.segments.specs.Pieces.{piece_count, window_rest};
ghost use Rattle.segments.specs.Sender.{SenderState, nothing_sent, window_of, is_timed_out, has_ended, is_heard, hears};
ghost use Rattle.segments.specs.Sender.{waits, wakes};

use crate::pieces::Window;
use crate::step::Turn;
use profile::{APDU_SEGMENT_TIMEOUT_MS, NUMBER_OF_APDU_RETRIES};
use std::cmp::{max, min};
use std::marker::Model;

/// How many pieces of `chunk` octets, one at least, a body of `length` octets has. An empty body has one too.
pub fn piece_count(chunk: usize, length: usize) -> usize
    requires { 1 ≤ chunk }
    ensures { result ≡ piece_count chunk length }
{
    length.saturating_sub(1) / chunk + 1
}

/// Sends a body in pieces, a window of them at a time. It keeps the length of the body and not the body.
#[derive(Clone, Copy)]
pub struct Sender {
    length: usize,
    chunk: usize,
    acknowledged: usize,
    sent: usize,
    window: u8,
    repeats: u8,
    at: u64,
}

impl Model for Sender {
    ghost Value = { SenderState };

    ghost view = { λ s. record {
      length = s.length;
      chunk = s.chunk;
      acknowledged = s.acknowledged;
      sent = s.sent;
      window = s.window;
      repeats = s.repeats;
      at = s.at;
    } };

    ghost inverse = { λ c. record {
      length = c.length;
      chunk = c.chunk;
      acknowledged = c.acknowledged;
      sent = c.sent;
      window = c.window;
      repeats = c.repeats;
      at = c.at;
    } };

    ghost invariant = { λ s. 1 ≤ s.chunk };
}

impl Sender {
    /// A sender of a body in pieces of `chunk` octets, one at least. It says its first piece, alone, at its
    /// first `on_tick`.
    pub fn new(body: &[u8], chunk: usize) -> Sender
        requires { 1 ≤ chunk }
        ensures { result ≡ nothing_sent (length body.now) chunk }
    {
        Sender {
            length: body.len(),
            chunk,
            acknowledged: 0,
            sent: 0,
            window: 1,
            repeats: 0,
            at: 0,
        }
    }

    /// The pieces that go together, of the body that it was made for. It takes no memory.
    pub fn window<'a>(&self, body: &'a [u8]) -> Window<'a>
        ensures { window_rest result ≡ window_of body.entry.now self.now }
    {
        let count = piece_count(self.chunk, body.len());
        let left = count.saturating_sub(self.acknowledged);
        Window {
            body,
            chunk: self.chunk,
            count,
            next: self.acknowledged,
            end: self.acknowledged + min(self.window as usize, left),
        }
    }

    /// How many pieces the body has.
    fn count(&self) -> usize
        ensures { result ≡ piece_count self.now.chunk self.now.length }
    {
        piece_count(self.chunk, self.length)
    }

    /// Whether it has ended at the moment `now`, in milliseconds: each piece is acknowledged, or the last
    /// repeat of its window was not in time.
    #[tactic(auto, unfolding(crate::specs::Sender::has_ended))]
    pub fn has_ended(&self, now: u64) -> bool
        ensures { result ≡ has_ended now self.now }
    {
        self.acknowledged >= self.count()
            || self.repeats >= NUMBER_OF_APDU_RETRIES && self.is_timed_out(now)
    }

    /// Whether the segment timeout has passed since the window was said.
    fn is_timed_out(&self, now: u64) -> bool
        ensures { result ≡ is_timed_out now self.now }
    {
        now.saturating_sub(self.at) >= APDU_SEGMENT_TIMEOUT_MS
    }

    /// Returns a moment, in milliseconds, before which it waits where it wakes, and hasn't ended.
    #[tactic(auto, unfolding(crate::specs::Sender::wakes, crate::specs::Sender::has_ended))]
    pub fn next_due(&self) -> u64
        ensures waits { Until result (λ now. waits (wakes now self.now).turn ≡ true) }
        ensures on { Until result (λ now. has_ended now self.now ≡ false) }
    {
        if self.sent == 0 || self.acknowledged >= self.count() {
            0
        } else {
            self.at.saturating_add(APDU_SEGMENT_TIMEOUT_MS)
        }
    }

    /// Whether a SegmentACK counts.
    fn is_heard(&self, number: u8, nak: bool) -> bool
        ensures { result ≡ is_heard number nak self.now }
    {
        let acknowledged = number as usize + 1;
        self.acknowledged <= acknowledged
            && acknowledged <= self.sent
            && (nak || self.acknowledged < acknowledged)
    }

    /// Takes a SegmentACK at the moment `now`, in milliseconds: its sequence number, its actual window, and
    /// whether it is a NAK (20.1.6).
    #[tactic(auto, unfolding(crate::specs::Sender::hears))]
    pub fn on_ack(&mut self, number: u8, window: u8, nak: bool, now: u64) -> Turn
        ensures turn { result ≡ (hears now number window nak self.old).turn }
        ensures state { self.new ≡ (hears now number window nak self.old).state }
    {
        if self.has_ended(now) || !self.is_heard(number, nak) {
            return Turn::Waits;
        }
        let count = self.count();
        self.acknowledged = number as usize + 1;
        self.sent = max(self.sent, min(count, self.acknowledged + window as usize));
        self.window = window;
        self.repeats = 0;
        self.at = now;
        if self.acknowledged >= count {
            Turn::Ends
        } else {
            Turn::Sends
        }
    }

    /// Wakes at the moment `now`, in milliseconds: it begins, or says its window again.
    #[tactic(auto, unfolding(crate::specs::Sender::wakes, crate::specs::Sender::has_ended))]
    pub fn on_tick(&mut self, now: u64) -> Turn
        ensures turn { result ≡ (wakes now self.old).turn }
        ensures state { self.new ≡ (wakes now self.old).state }
    {
        if self.sent == 0 {
            self.sent = 1;
        } else if self.has_ended(now) {
            return Turn::Ends;
        } else if !self.is_timed_out(now) {
            return Turn::Waits;
        } else {
            self.repeats += 1;
        }
        self.at = now;
        Turn::Sends
    }
}
