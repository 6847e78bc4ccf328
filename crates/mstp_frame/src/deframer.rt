//! Frames out of a stream of octets, in whatever pieces it comes.

use crate::buffer::Buffer;
use crate::frame::Frame;
use std::marker::Model;

/// Hears frames in octets that come piece by piece (9.5.4, Receive Frame). It keeps the octets of a frame that has
/// begun, in a fixed buffer of 511, and takes no memory.
#[derive(Drop)]
pub struct Deframer {
    buffer: Buffer,
}

/// What was used of a piece, and the frame that ended with it, if any.
#[derive(Clone, Copy, Debug)]
pub struct Fed<'a> {
    /// How many octets of the piece were used: all, where there is no frame, and one at least, where it has some.
    pub used: usize,
    /// A frame, until the next call.
    pub frame: Option<Frame<'a>>,
    /// The octets of that frame, all of them, until the next call; none where there is no frame.
    pub octets: &'a [u8],
}

impl Model for Deframer {
    ghost use Rattle.std.specs.Prelude.{ℕ, List};
    ghost use Rattle.mstp_frame.specs.Front.{kept_in, IsReady};

    ghost Value = { List ℕ };

    ghost view = { λ d. kept_in d.buffer };

    ghost invariant = { λ d. IsReady d.buffer };
}

impl Deframer {
    ghost use Rattle.std.specs.Prelude.{◌≡◌, ◌<◌, ◌≤◌, ◌++◌, [], IfNone, IfSome, length, drop, option_map};
    ghost use Rattle.std.specs.Borrow.{sem};
    ghost use Rattle.std.specs.Io.BufRead.{Rests};
    ghost use Rattle.mstp_frame.specs.Frame.{frame_of};
    ghost use Rattle.mstp_frame.specs.Heard.{Hears};
    ghost use Rattle.mstp_frame.specs.Feeding.{HasNamedType, IsWhole, LeadsTo};
    ghost use Rattle.mstp_frame.specs.contracts.deframer.Deframer.{the_row};

    /// A deframer that keeps nothing.
    pub fn new() -> Deframer
        ensures { result ≡ [] }
    {
        Deframer {
            buffer: Buffer::new(),
        }
    }

    /// The octets that are kept, in which alone no frame is heard.
    pub fn kept(&self) -> &[u8]
        ensures kept { result.now ≡ self.now }
        ensures silent { Hears self.now [] }
    {
        self.buffer.kept()
    }

    /// Takes octets of a piece up to the end of a frame. Whatever follows, what is heard of the kept octets and the
    /// piece is the frame, if any, and then what is heard of the octets kept now and the unused part of the piece.
    /// So it doesn't matter how a stream is cut ([`cuts_are_one`](crate::cuts_are_one)).
    pub fn feed(&mut self, piece: &[u8]) -> Fed<'_>
        ensures* after { sem 𝓛 (Rests the_row self.entry (λ kept.
            LeadsTo (self.old ++ piece.now) (option_map frame_of result.frame) (kept ++ drop result.used piece.now)
            × Hears kept [])) }
        ensures some { 0 < length piece.now → 0 < result.used }
        ensures used { result.used ≤ length piece.now }
        ensures all { IfNone result.frame (result.used ≡ length piece.now) }
        ensures ended { IfSome result.frame (λ frame. 0 < result.used) }
        ensures named { HasNamedType result.frame }
        ensures whole { IsWhole result.frame result.octets.now }
    {
        let used = self.buffer.take_all(piece);
        let buffer = &self.buffer;
        Fed {
            used,
            frame: buffer.frame(),
            octets: buffer.whole(),
        }
    }

    /// Forgets what is kept: a silence ends a frame that is cut short (9.5.4).
    pub fn silence(&mut self)
        ensures { self.new ≡ [] }
    {
        self.buffer.clear();
    }

    /// An equal deframer. It takes no memory.
    pub fn copy(&self) -> Deframer
        ensures { result ≡ self.now }
    {
        Deframer {
            buffer: self.buffer,
        }
    }
}
