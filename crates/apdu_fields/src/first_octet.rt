//! The first octet of an APDU (20.1).

ghost use Rattle.std.specs.Prelude.{◌≡◌, ◌==◌, ◌/◌, ◌%◌};

/// Whether it says a segment: SEG, in bit 3 (20.1.2.1, 20.1.5.1).
pub fn says_segment(first: u8) -> bool
    ensures { result ≡ (first / 8 % 2 == 1) }
{
    (first >> 3) & 1 == 1
}
