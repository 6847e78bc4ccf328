//! What holds of every datagram, beside what the calls promise.

ghost use Rattle.bvll.specs.Laws.{CanonicalSpells, RefusedOnce, SpellOne};

/// What is written is read again to the same fields: its octets spell the datagram, and no other.
/// What is refused is refused for one cause.
pub fn spelling()
    ensures one { SpellOne }
    ensures canonical { CanonicalSpells }
    ensures refused { RefusedOnce }
{}
