//! What holds of any segments, for the proofs of the layers above. A function without a body is a law: its
//! contract.

ghost use Rattle.segments.specs.Laws.{PiecesJoin, PiecesAreFewest, PiecesInOrder, PiecesAreFull, WholeIsTaken};
ghost use Rattle.segments.specs.Laws.{NothingIsFront, JoinsKeepFront, WholeIsCut, WindowIsPieces};

/// A body is the concatenation of its pieces in order: the fewest that hold it, and one at least, each but
/// the last of them full.
pub fn pieces_join()
    ensures joined { PiecesJoin }
    ensures fewest { PiecesAreFewest }
    ensures in_order { PiecesInOrder }
    ensures full { PiecesAreFull }
{}

/// What a sender says at a time are pieces of the body.
pub fn window_is_pieces()
    ensures { WindowIsPieces }
{}

/// What a receiver has joined is the concatenation, in order, of the segments that it took: those numbered
/// 0, 1 and so on. It is whole where no more follow the last of them.
pub fn whole_is_taken()
    ensures { WholeIsTaken }
{}

/// What is joined of pieces of one body, in whatever order they come and however often, is a front of that
/// body, and the body where it is whole. The body has at most 256 pieces: then each has its own number.
pub fn whole_is_cut()
    ensures nothing { NothingIsFront }
    ensures one { JoinsKeepFront }
    ensures all { WholeIsCut }
{}
