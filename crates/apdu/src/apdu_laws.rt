//! What holds of the spelling of every APDU, Who-Is and I-Am, and of the standard's numbers, for the proofs of the
//! layers above.

ghost use Rattle.apdu.specs.ApduLaws.{CanonicalIsShortest, CanonicalSpells, IAmIsShortest, IAmSpellOne, IAmSpells};
ghost use Rattle.apdu.specs.ApduLaws.{RefusedOnce, ShortIsBegun, SpellOne, WhoIsIsShortest, WhoIsSpellOne, WhoIsSpells};
ghost use Rattle.apdu.specs.Numbers.{OneAbort, OneReject, OneService};
ghost use Rattle.apdu.specs.Sizes.{OneCount, OneSize};

/// What is written is read again as the same APDU: its octets spell it, no other, and none that
/// are fewer. What is refused is refused for one cause, and what is short could be completed.
pub fn apdu_spelling()
    ensures one { SpellOne }
    ensures canonical { CanonicalSpells }
    ensures shortest { CanonicalIsShortest }
    ensures refused { RefusedOnce }
    ensures short { ShortIsBegun }
{}

/// What is written of a Who-Is is read again as the same: its octets spell it, no other, and none
/// that are fewer.
pub fn who_is_spelling()
    ensures one { WhoIsSpellOne }
    ensures canonical { WhoIsSpells }
    ensures shortest { WhoIsIsShortest }
{}

/// What is written of an I-Am is read again as the same: its octets spell it, no other, and none
/// that are fewer.
pub fn i_am_spelling()
    ensures one { IAmSpellOne }
    ensures canonical { IAmSpells }
    ensures shortest { IAmIsShortest }
{}

/// A confirmed service, the reason of a Reject and that of an Abort have one name each (18.9, 18.10, 21).
#[tactic(auto, using(crate::proofs::OneName::number_names))]
pub fn one_number()
    ensures service { OneService }
    ensures reject { OneReject }
    ensures abort { OneAbort }
{}

/// What a requester can take has one name (20.1.2.4, 20.1.2.5).
#[tactic(auto, using(crate::proofs::OneName::one_count, crate::proofs::OneName::one_size))]
pub fn one_size()
    ensures segments { OneCount }
    ensures apdu { OneSize }
{}
