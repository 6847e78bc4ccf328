//! What holds of all that was ever put out, beside what the calls promise. A function without a body is a law: its
//! contract.

ghost use Rattle.bus_traffic.specs.Laws.{EachIsJudged, EqualIsKnown, HeardIsGiven, JudgesByAll, OldIsForgotten};
ghost use Rattle.bus_traffic.specs.Laws.{OrderIsKept, RemembersMore, RemembersNothing, RemembersStill};

use std::alloc::Allocator;

/// A frame is heard where it was put out and may still be heard, and has the stamp of the youngest such; it is forged
/// where nobody put it out, and too old where each time it was put out with an old stamp.
pub fn each_is_judged<A: Allocator>()
    ensures { EachIsJudged A }
{}

/// A bus judges as all that was ever put out there says, however little of it is kept, and whatever happens.
pub fn all_is_remembered<A: Allocator>()
    ensures nothing { RemembersNothing A }
    ensures more { RemembersMore A }
    ensures still { RemembersStill A }
    ensures judges { JudgesByAll A }
{}

/// The frames that an ear hears where none is refused are those that a deframer gives of the octets.
pub fn heard_is_given<A: Allocator>()
    ensures { HeardIsGiven A }
{}

/// A bus keeps the order in which frames were put out, knows equal frames once, and forgets what is too old for
/// anybody: an idle ring stops growing.
pub fn little_is_kept<A: Allocator>()
    ensures order { OrderIsKept A }
    ensures equal { EqualIsKnown A }
    ensures old { OldIsForgotten A }
{}
