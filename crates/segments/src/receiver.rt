//! What joins the segments of a message (5.4.4, 5.4.5).

ghost use Rattle.std.specs.Prelude.{◌≡◌, ◌≤◌, length, nat_lt, option_map, IfOk, OnOk, OnErr};
ghost use Rattle.profile.specs.Limits as limit;
ghost use Rattle.segments.specs.Receiver.{ReceiverState, granted_window, nothing_joined, may_nak, step_out_of_order};
ghost use Rattle.segments.specs.Receiver.{step_of, joins, whole_of};

use crate::step::Step;
use profile::{
    APDU_SEGMENT_TIMEOUT_MS, MAX_SEGMENTS_ACCEPTED, MAX_SERVICE_DATA_OCTETS, WINDOW_SIZE,
};
use std::alloc::{AllocError, Allocator};
use std::cmp::min;
use std::marker::Model;

/// The window that is granted where this one is proposed: the same, and 4 at most (20.1.2.8).
pub fn granted_window(proposed: u8) -> u8
    ensures { result ≡ granted_window proposed }
{
    min(proposed, WINDOW_SIZE)
}

/// Joins the segments of a message, of at most 64 segments and 16384 octets.
#[derive(Drop)]
pub struct Receiver<A: Allocator> {
    window: u8,
    due: u8,
    octets: Vec<u8, A>,
    next: u8,
    nak_at: Option<u64>,
    is_whole: bool,
}

impl<A: Allocator> Model for Receiver<A> {
    ghost Value = { ReceiverState };

    ghost view = { λ r. record {
      window = r.window;
      due = r.due;
      octets = r.octets.items;
      next = r.next;
      nak_at = r.nak_at;
      is_whole = r.is_whole;
    } };

    ghost invariant = { λ r. (r.due ≤ r.next) × (r.next ≤ limit.MAX_SEGMENTS_ACCEPTED) ×
        (length r.octets.items ≤ limit.MAX_SERVICE_DATA_OCTETS) };
}

impl<A: Allocator> Receiver<A> {
    /// A receiver that grants this window, to which no segment has come. It takes no memory.
    pub fn new(alloc: A, window: u8) -> Self
        ensures { result ≡ nothing_joined window }
    {
        Receiver {
            window,
            due: 0,
            octets: Vec::new(alloc),
            next: 0,
            nak_at: None,
            is_whole: false,
        }
    }

    /// The window that is granted: the actual window of each SegmentACK (20.1.6.5).
    pub fn window(&self) -> u8
        ensures { result ≡ self.now.window }
    {
        self.window
    }

    /// The octets so far: those of the segments that were taken, in order.
    pub fn octets(&self) -> &[u8]
        ensures { result.now ≡ self.now.octets }
    {
        self.octets.as_slice()
    }

    /// The octets of the message, once its last segment was taken.
    pub fn whole(&self) -> Option<&[u8]>
        ensures { option_map (λ octets. octets.now) result ≡ whole_of self.now }
    {
        if self.is_whole {
            Some(self.octets.as_slice())
        } else {
            None
        }
    }

    /// What `on_segment` does at the moment `now`, in milliseconds, on the segment of this sequence number,
    /// which more segments follow or none, with these octets.
    #[tactic(auto, unfolding(crate::specs::Receiver::step_of))]
    pub fn step(&self, number: u8, more: bool, octets: &[u8], now: u64) -> Step
        ensures { result ≡ step_of now number more octets.now self.now }
    {
        if self.is_whole {
            return Step::Dropped;
        }
        if number != self.next {
            return self.step_out_of_order(now);
        }
        if self.next >= MAX_SEGMENTS_ACCEPTED
            || MAX_SERVICE_DATA_OCTETS - self.octets.len() < octets.len()
        {
            return Step::Full;
        }
        if self.next == 0 || !more || self.due + 1 == self.window {
            return Step::Taken(Some(number));
        }
        Step::Taken(None)
    }

    /// What it does on a segment that is not the next one.
    fn step_out_of_order(&self, now: u64) -> Step
        ensures { result ≡ step_out_of_order (nat_lt 0 self.now.next) (may_nak now self.now.nak_at) self.now }
    {
        if self.next == 0 {
            return Step::Dropped;
        }
        match self.nak_at {
            Some(at) if now.saturating_sub(at) < APDU_SEGMENT_TIMEOUT_MS => Step::Dropped,
            _ => Step::Nak(self.next - 1),
        }
    }

    /// Takes a segment at the moment `now`, in milliseconds: its sequence number, whether more segments
    /// follow, its octets. Answers what is to be said of it.
    ///
    /// # Errors
    /// Want of memory. The receiver is then as it was.
    #[tactic(auto, unfolding(crate::specs::Receiver::joins, crate::specs::Receiver::step_of))]
    pub fn on_segment(
        &mut self,
        number: u8,
        more: bool,
        octets: &[u8],
        now: u64,
    ) -> Result<Step, AllocError>
        ensures step { IfOk result (λ step. step ≡ (joins now number more octets.now self.old).step) }
        ensures joined { OnOk result (self.new ≡ (joins now number more octets.now self.old).state) }
        ensures unchanged { OnErr result (self.new ≡ self.old) }
    {
        let step = self.step(number, more, octets, now);
        match step {
            Step::Taken(ack) => {
                self.octets.extend_from_slice(octets)?;
                self.due = if ack.is_some() { 0 } else { self.due + 1 };
                self.next += 1;
                self.nak_at = None;
                self.is_whole = !more;
            }
            Step::Nak(_) => {
                self.due = 0;
                self.nak_at = Some(now);
            }
            Step::Dropped | Step::Full => {}
        }
        Ok(step)
    }
}

impl<A: Allocator + Copy> Receiver<A> {
    /// An equal receiver, in the same memory.
    ///
    /// # Errors
    /// Want of memory.
    pub fn copy(&self) -> Result<Self, AllocError>
        ensures { IfOk result (λ copy. copy ≡ self.now) }
    {
        Ok(Receiver {
            window: self.window,
            due: self.due,
            octets: Vec::from_slice(*self.octets.allocator(), self.octets.as_slice())?,
            next: self.next,
            nak_at: self.nak_at,
            is_whole: self.is_whole,
        })
    }
}
