//! From whom a client takes an answer (5.4.1).

ghost use Rattle.std.specs.Prelude.{◌≡◌};
ghost use Rattle.npdu.specs.Mac.{same_station};

use npdu::Station;

/// Whether the station that was asked is the one that says something (5.4.1).
pub fn is_same_station(asked: Station, from: Station) -> bool
    ensures { result ≡ same_station asked from }
{
    asked == from
}
