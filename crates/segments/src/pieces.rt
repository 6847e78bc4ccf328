//! The pieces of a body that is too long to go whole (5.2.1.1).

use std::cmp::min;

/// A piece of a body, as a segment says it.
#[derive(Clone, Copy, Debug, PartialEq, Eq)]
pub struct Piece<'a> {
    /// Its sequence number (20.1.2.7): its number among the pieces, counted from 0, modulo 256.
    pub number: u8,
    /// Whether more pieces follow it (20.1.2.4).
    pub has_more: bool,
    /// Its octets, which are a slice of the body.
    pub octets: &'a [u8],
}

/// Goes through pieces of a body, in order. Takes no memory.
#[derive(Clone, Copy, Debug)]
pub struct Window<'a> {
    pub(crate) body: &'a [u8],
    pub(crate) chunk: usize,
    pub(crate) count: usize,
    pub(crate) next: usize,
    pub(crate) end: usize,
}

impl<'a> Window<'a> {
    ghost use Rattle.std.specs.Prelude.{◌≡◌};
    ghost use Rattle.segments.specs.Pieces.{piece, piece_of};

    /// Piece `n`, counted from 0.
    fn piece(&self, n: usize) -> Piece<'a>
        ensures { piece_of result ≡ piece self.now.chunk self.now.count self.now.body.now n }
    {
        let start = min(n.saturating_mul(self.chunk), self.body.len());
        let (_, rest) = self.body.split_at(start);
        let (octets, _) = rest.split_at(min(self.chunk, rest.len()));
        Piece {
            number: (n % 256) as u8,
            has_more: n.saturating_add(1) < self.count,
            octets,
        }
    }
}

impl<'a> Iterator for Window<'a> {
    type Item = Piece<'a>;

    ghost use Rattle.std.specs.Iterator.{YieldsFirstBy, item_count};
    ghost use Rattle.segments.specs.Pieces.{piece_of, window_rest};

    ghost next_gives = { YieldsFirstBy piece_of window_rest };

    ghost remaining = { item_count window_rest };

    fn next(&mut self) -> Option<Piece<'a>> {
        let number = self.next;
        if number >= self.end {
            return None;
        }
        self.next = number + 1;
        Some(self.piece(number))
    }
}
