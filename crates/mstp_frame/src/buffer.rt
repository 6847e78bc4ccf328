//! The octets that a deframer keeps, and the frame that it lends.

ghost use Rattle.std.specs.Prelude.{◌≡◌, ◌<◌, ◌≤◌, ◌+◌, ◌++◌, ◌∷◌, [], None, Some, true, false, ℕ, List, length, drop};
ghost use Rattle.std.specs.Prelude.{slice_index, option_map};
ghost use Rattle.mstp_frame.specs.Frame.{frame_of};
ghost use Rattle.mstp_frame.specs.Feeding.{HasNamedType, LeadsTo};
ghost use Rattle.mstp_frame.specs.Front.{frame_in, kept_in, octets_in, whole_in, IsJudged, IsReady, Takes};

use crate::frame::{Frame, PREAMBLE};
use crate::front::{Front, frame_from, goal, judge};
use std::cmp::min;

/// The most octets of a frame: eight of preamble and header, the longest data, and two check octets (9.3).
pub(crate) const MAX_OCTETS: usize = 511;

/// Octets from 55 FF on, or a whole frame.
#[derive(Clone, Copy)]
pub(crate) struct Buffer {
    octets: [u8; MAX_OCTETS],
    len: usize,
    is_whole: bool,
}

impl Buffer {
    /// Nothing.
    pub(crate) fn new() -> Buffer
        ensures ready { IsReady result }
        ensures kept { kept_in result ≡ [] }
        ensures frame { frame_in result ≡ None }
    {
        Buffer {
            octets: [0; MAX_OCTETS],
            len: 0,
            is_whole: false,
        }
    }

    /// Forgets all octets.
    pub(crate) fn clear(&mut self)
        ensures ready { IsReady self.new }
        ensures kept { kept_in self.new ≡ [] }
        ensures frame { frame_in self.new ≡ None }
    {
        self.len = 0;
        self.is_whole = false;
    }

    /// The octets that are kept.
    pub(crate) fn kept(&self) -> &[u8]
        requires { IsReady self.now }
        ensures { result.now ≡ kept_in self.now }
    {
        if self.is_whole {
            &[]
        } else {
            &self.octets[..self.len]
        }
    }

    /// The frame that is lent.
    pub(crate) fn frame(&self) -> Option<Frame<'_>>
        requires { IsReady self.now }
        ensures frame { option_map frame_of result ≡ frame_in self.now }
        ensures named { HasNamedType result }
    {
        if self.is_whole {
            Some(frame_from(&self.octets[..self.len]))
        } else {
            None
        }
    }

    /// The octets of that frame.
    pub(crate) fn whole(&self) -> &[u8]
        requires { IsReady self.now }
        ensures { result.now ≡ whole_in self.now }
    {
        if self.is_whole {
            &self.octets[..self.len]
        } else {
            &[]
        }
    }

    /// Puts octets behind the others.
    fn append(&mut self, octets: &[u8])
        requires { self.old.len + length octets.now ≤ 511 }
        ensures octets { octets_in self.new ≡ octets_in self.old ++ octets.now }
        ensures len { self.new.len ≡ self.old.len + length octets.now }
        ensures is_whole { self.new.is_whole ≡ self.old.is_whole }
    {
        let end = self.len + octets.len();
        self.octets[self.len..end].copy_from_slice(octets);
        self.len = end;
    }

    /// Takes octets before 55 FF, up to a 55. Tells how many it went by.
    #[tactic(auto, using(crate::proofs::Taking::seeks))]
    fn seek(&mut self, piece: &[u8]) -> usize
        requires ready { IsReady self.old }
        requires kept { self.old.is_whole ≡ false }
        requires none { self.old.len ≡ 0 }
        requires some { 0 < length piece.now }
        ensures { Takes self.old piece.now self.new result }
    {
        let noise = noise(piece);
        if noise == piece.len() {
            return noise;
        }
        self.append(&[PREAMBLE[0]]);
        noise + 1
    }

    /// Takes the octet behind a 55.
    #[tactic(auto, using(crate::proofs::Taking::seconds))]
    fn take_second(&mut self, octet: u8)
        requires ready { IsReady self.old }
        requires kept { self.old.is_whole ≡ false }
        requires one { self.old.len ≡ 1 }
        ensures { (rest : List ℕ) → Takes self.old (octet ∷ rest) self.new 1 }
    {
        if octet == PREAMBLE[1] {
            self.append(&[octet]);
        } else if octet != PREAMBLE[0] {
            self.clear();
        }
    }

    /// Lends octets that are a frame, and forgets octets that can't be one.
    #[tactic(auto, using(crate::proofs::Taking::settles))]
    fn settle(&mut self, front: Front)
        requires fits { self.old.len ≤ 511 }
        requires len { length (octets_in self.old) ≡ self.old.len }
        requires kept { self.old.is_whole ≡ false }
        requires judged { IsJudged (octets_in self.old) front }
        ensures ready { IsReady self.new }
        ensures leads { (rest : List ℕ) →
            LeadsTo (octets_in self.old ++ rest) (frame_in self.new) (kept_in self.new ++ rest) }
    {
        match front {
            Front::Unfinished => {}
            Front::Lost => self.clear(),
            Front::Whole => self.is_whole = true,
        }
    }

    /// Takes octets behind 55 FF, up to their goal. Tells how many.
    #[tactic(auto, using(crate::proofs::Taking::fills))]
    fn fill(&mut self, piece: &[u8]) -> usize
        requires ready { IsReady self.old }
        requires kept { self.old.is_whole ≡ false }
        requires begun { 2 ≤ self.old.len }
        requires some { 0 < length piece.now }
        ensures { Takes self.old piece.now self.new result }
    {
        let goal = goal(&self.octets[..self.len]);
        let count = min(goal - self.len, piece.len());
        let (taken, _) = piece.split_at(count);
        self.append(taken);
        if self.len == goal {
            let front = judge(&self.octets[..self.len]);
            self.settle(front);
        }
        count
    }

    /// Takes octets up to the next decision. Tells how many.
    fn take(&mut self, piece: &[u8]) -> usize
        requires ready { IsReady self.old }
        requires kept { self.old.is_whole ≡ false }
        requires some { 0 < length piece.now }
        ensures { Takes self.old piece.now self.new result }
    {
        if self.len == 0 {
            self.seek(piece)
        } else if self.len == 1 {
            self.take_second(piece[0]);
            1
        } else {
            self.fill(piece)
        }
    }

    /// Takes octets up to the end of a frame. Tells how many.
    #[tactic(auto, using(crate::proofs::Taking::takes))]
    pub(crate) fn take_all(&mut self, piece: &[u8]) -> usize
        requires { IsReady self.old }
        ensures some { 0 < length piece.now → 0 < result }
        ensures used { result ≤ length piece.now }
        ensures all { self.new.is_whole ≡ false → result ≡ length piece.now }
        ensures ended { self.new.is_whole ≡ true → 0 < result }
        ensures ready { IsReady self.new }
        ensures leads { LeadsTo (kept_in self.old ++ piece.now) (frame_in self.new)
            (kept_in self.new ++ drop result piece.now) }
    {
        if self.is_whole {
            self.clear();
        }
        let mut used = 0;
        while used < piece.len() && !self.is_whole {
            used += self.take(&piece[used..]);
        }
        used
    }
}

/// How many octets stand before the first 55.
#[tactic(auto, using(crate::proofs::Taking::noises))]
fn noise(piece: &[u8]) -> usize
    ensures within { result ≤ length piece.now }
    ensures stops { result < length piece.now → slice_index piece.now result ≡ 0x55 }
    ensures leads { LeadsTo piece.now None (drop result piece.now) }
{
    let mut count = 0;
    while count < piece.len() && piece[count] != PREAMBLE[0] {
        count += 1;
    }
    count
}
