//! What a client takes of an answer (20.1.2.3 to 20.1.2.5).

ghost use Rattle.std.specs.Prelude.{◌≡◌, ◌<◌};
ghost use Rattle.apdu.specs.Sizes.{apdu_code};
ghost use Rattle.bindings.specs.Accepts.{accepts_of};

use apdu::{MaxApdu, MaxSegments};
use std::marker::Model;

/// What a client takes of an answer, as its requests say it (20.1.2.3 to 20.1.2.5).
#[derive(Clone, Copy, Debug, PartialEq, Eq)]
pub struct Accepts {
    /// Whether the answer may come in segments.
    pub segmented: bool,
    /// How many segments it may have.
    pub max_segments: MaxSegments,
    /// How many octets an APDU may have.
    pub max_apdu: MaxApdu,
}

impl Model for Accepts {
    ghost use Rattle.std.specs.Prelude.{◌<◌};
    ghost use Rattle.apdu.specs.Sizes.{apdu_code};
    ghost use Rattle.bindings.specs.Accepts.{PlainAccepts};

    ghost Value = { PlainAccepts };

    ghost view = { λ a. record {
      segmented = a.segmented;
      max_segments = a.max_segments;
      max_apdu = a.max_apdu;
    } };

    ghost inverse = { λ p. record {
      segmented = p.segmented;
      max_segments = p.max_segments;
      max_apdu = p.max_apdu;
    } };

    ghost invariant = { λ a. apdu_code a.max_apdu < 16 };
}

/// What a client takes of an answer: 64 segments, or none at all, of APDUs of at most this size.
pub fn accepts_of(segmented: bool, max_apdu: MaxApdu) -> Accepts
    requires { apdu_code max_apdu < 16 }
    ensures { result ≡ accepts_of segmented max_apdu }
{
    let max_segments = if segmented {
        MaxSegments::SixtyFour
    } else {
        MaxSegments::Unspecified
    };
    Accepts {
        segmented,
        max_segments,
        max_apdu,
    }
}
