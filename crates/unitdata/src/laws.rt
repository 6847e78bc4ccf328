//! What holds of all that is heard, for the proofs of the layers above. A function without a body is a law: its
//! contract.

ghost use Rattle.unitdata.specs.Laws.{AnnouncedIsBrought, BroughtOnce, LearntIsSpelled, SpokenIsBrought};
ghost use Rattle.unitdata.specs.Laws.{AnnouncedIsInside, BroughtIsInside, SpokenIsInside};
ghost use Rattle.unitdata.specs.Sizes.{LongestIsOfLink};

/// An NPDU brings one thing to a station (6.2).
pub fn brought_once()
    ensures { BroughtOnce }
{}

/// The way that is learnt of what is heard names a station that DNET and DADR can name (6.2.2, 6.5.2).
#[tactic(auto, using(crate::proofs::OnceLaws::learnt_is_spelled))]
pub fn learnt_is_spelled()
    ensures { LearntIsSpelled }
{}

/// The longest APDU that a station says it takes is the longest of its kind of link (9, J.1).
#[tactic(auto, using(crate::proofs::OnceLaws::longest_is_of_link))]
pub fn longest_is_of_link()
    ensures { LongestIsOfLink }
{}

/// What is said in a parcel brings a station of its own network just that APDU, said by who says it; what is for a
/// station of another network brings nothing here (6.2.2).
pub fn spoken_is_brought()
    ensures spoken { SpokenIsBrought }
    ensures announced { AnnouncedIsBrought }
{}

/// An APDU that a station hears is what is inside the message, for each station that its target reaches; what is said
/// is what is inside its NPDU (6.2, 6.3).
pub fn heard_and_said_is_inside()
    ensures heard { BroughtIsInside }
    ensures spoken { SpokenIsInside }
    ensures announced { AnnouncedIsInside }
{}
