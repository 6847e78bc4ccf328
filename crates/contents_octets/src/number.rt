//! Unsigned and signed numbers as contents octets (20.2.4, 20.2.5, 20.2.11).

ghost use Rattle.std.specs.Prelude.{◌≡◌, ◌<◌, ◌≤◌, IfSome, IfNone, length};
ghost use Rattle.contents_octets.specs.Number.{SpellsUnsigned, SpellsSigned, width, signed_width};

use byteorder::{BigEndian, ByteOrder};

/// The number of one to four contents octets, most significant first (20.2.4, 20.2.11). Needless octets in front are
/// read. `None` for no octet, or more than four.
pub fn unsigned_of(octets: &[u8]) -> Option<u32>
    ensures read { IfSome result (λ n. SpellsUnsigned octets.now n) }
    ensures other { IfNone result ((0 < length octets.now) → 4 < length octets.now) }
{
    if octets.is_empty() || octets.len() > 4 {
        return None;
    }
    Some(BigEndian::read_uint(octets, octets.len()) as u32)
}

/// The number of one to four contents octets in two's complement (20.2.5). `None` for no octet, or more than four.
pub fn signed_of(octets: &[u8]) -> Option<i32>
    ensures read { IfSome result (λ z. SpellsSigned octets.now z) }
    ensures other { IfNone result ((0 < length octets.now) → 4 < length octets.now) }
{
    if octets.is_empty() || octets.len() > 4 {
        return None;
    }
    Some(BigEndian::read_int(octets, octets.len()) as i32)
}

/// How many octets a number takes at least, 1 to 4.
#[tactic(auto, unfolding(crate::specs::Number::width))]
pub fn width_of(n: u32) -> usize
    ensures value { result ≡ width n }
    ensures some { 0 < result }
    ensures few { result ≤ 4 }
{
    match n {
        0..=0xFF => 1,
        0x100..=0xFFFF => 2,
        0x1_0000..=0xFF_FFFF => 3,
        0x100_0000.. => 4,
    }
}

/// How many octets a number takes at least, one bit being its sign: 1 to 4.
#[tactic(auto, unfolding(crate::specs::Number::signed_width))]
pub fn signed_width_of(z: i32) -> usize
    ensures value { result ≡ signed_width z }
    ensures some { 0 < result }
    ensures few { result ≤ 4 }
{
    match z {
        -0x80..0x80 => 1,
        -0x8000..0x8000 => 2,
        -0x80_0000..0x80_0000 => 3,
        _ => 4,
    }
}
