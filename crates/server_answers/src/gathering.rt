//! The segments of a request, so far (5.4.5.2, SEGMENTED_REQUEST).

ghost use Rattle.std.specs.Prelude.{◌≡◌, IfOk, OnOk, OnErr};
ghost use Rattle.server_answers.specs.Gathering.{gathered_with};

use crate::asked::Asked;
use apdu::Segment;
use profile::gathers_still;
use remembered::Asker;
use segments::Receiver;
use std::alloc::{AllocError, Allocator};

/// The segments of a request, so far.
#[derive(Drop)]
pub struct RequestGathering<A: Allocator> {
    /// Who asks, and what of.
    pub asked: Asked,
    /// What joins the segments.
    pub receiver: Receiver<A>,
    /// The moment at which one of them was heard last, in milliseconds.
    pub at: u64,
}

impl<A: Allocator + Copy> RequestGathering<A> {
    /// Equal segments, in the same memory.
    ///
    /// # Errors
    /// Want of memory.
    pub fn copy(&self) -> Result<Self, AllocError>
        ensures { IfOk result (λ copy. copy ≡ self.now) }
    {
        Ok(RequestGathering {
            asked: self.asked,
            receiver: self.receiver.copy()?,
            at: self.at,
        })
    }

    /// One of who asks so, once this segment with these octets joined what came so far, at the moment `now`, in
    /// milliseconds.
    ///
    /// # Errors
    /// Want of memory. It is then as it was.
    pub fn join(
        &mut self,
        asked: Asked,
        segment: &Segment,
        octets: &[u8],
        now: u64,
    ) -> Result<(), AllocError>
        ensures joined { OnOk result (self.new ≡
            gathered_with now asked segment.now octets.now self.old.receiver) }
        ensures unchanged { OnErr result (self.new ≡ self.old) }
    {
        let more = segment.more_follows;
        self.receiver
            .on_segment(segment.sequence_number, more, octets, now)?;
        self.asked = asked;
        self.at = now;
        Ok(())
    }
}

impl<A: Allocator> RequestGathering<A> {
    ghost use Rattle.std.specs.Prelude.{◌≡◌};
    ghost use Rattle.server_answers.specs.Gathering.{gathers_still, is_for, is_kept};

    /// Whether a segment of the request came not too long ago.
    pub fn gathers_still(&self, now: u64) -> bool
        ensures { result ≡ gathers_still now self.now }
    {
        gathers_still(self.at, now)
    }

    /// Whether the request is this asker's.
    #[tactic(auto, using(crate::proofs::Askers::asker_rules))]
    pub fn is_for(&self, asker: Asker) -> bool
        ensures { result ≡ is_for asker self.now }
    {
        self.asked.asker.cmp(&asker).is_eq()
    }

    /// Whether the request is still gathered, and another asker's where one is excepted.
    pub fn is_kept(&self, now: u64, except: Option<Asker>) -> bool
        ensures { result ≡ is_kept now except self.now }
    {
        match except {
            None => self.gathers_still(now),
            Some(asker) => self.gathers_still(now) && !self.is_for(asker),
        }
    }
}
