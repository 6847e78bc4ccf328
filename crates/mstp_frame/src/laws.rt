//! What holds of every frame and of every stream, beside what the calls promise. A function without a body is a
//! law: its contract.

ghost use Rattle.mstp_frame.specs.Laws.{CanonicalSpells, CutsAreOne, EachIsHeard, FrameIsHeard, GivenIsHeard};
ghost use Rattle.mstp_frame.specs.Laws.{HeardOnce, SpelledOnce, SpellOne};

/// What is written is read again to the same fields: its octets spell the frame, and no other. No other octets
/// spell it.
pub fn spelling()
    ensures one { SpellOne }
    ensures once { SpelledOnce }
    ensures canonical { CanonicalSpells }
{}

/// Each stream of octets and silences is heard in one way. A frame at its beginning is heard first.
pub fn hearing()
    ensures each { EachIsHeard }
    ensures once { HeardOnce }
    ensures first { FrameIsHeard }
{}

/// What a deframer gives of a stream doesn't depend on how the stream was cut into pieces.
pub fn cuts_are_one()
    ensures heard { GivenIsHeard }
    ensures one { CutsAreOne }
{}
