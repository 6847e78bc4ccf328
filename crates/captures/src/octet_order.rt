//! Numbers in both orders of octets.

ghost use Rattle.std.specs.Prelude.{◌≡◌, ◌+◌, IfSome, length};

use byteorder::{BigEndian, ByteOrder, LittleEndian};

/// Which octet of a number stands first in a file.
#[derive(Clone, Copy, Debug, PartialEq, Eq)]
pub(crate) enum OctetOrder {
    /// The highest.
    Big,
    /// The lowest.
    Little,
}

impl OctetOrder {
    /// The number of the two octets at the front, and what stands behind them.
    pub(crate) fn take_u16(self, octets: &[u8]) -> Option<(u16, &[u8])>
        ensures { IfSome result (λ x. length x.1.now + 2 ≡ length octets.now) }
    {
        let [a, b, rest @ ..] = octets else {
            return None;
        };
        let number = match self {
            OctetOrder::Big => BigEndian::read_u16(&[*a, *b]),
            OctetOrder::Little => LittleEndian::read_u16(&[*a, *b]),
        };
        Some((number, rest))
    }

    /// The number of the four octets at the front, and what stands behind them.
    pub(crate) fn take_u32(self, octets: &[u8]) -> Option<(u32, &[u8])>
        ensures { IfSome result (λ x. length x.1.now + 4 ≡ length octets.now) }
    {
        let [a, b, c, d, rest @ ..] = octets else {
            return None;
        };
        let number = match self {
            OctetOrder::Big => BigEndian::read_u32(&[*a, *b, *c, *d]),
            OctetOrder::Little => LittleEndian::read_u32(&[*a, *b, *c, *d]),
        };
        Some((number, rest))
    }
}

/// So many octets at the front, and what stands behind them.
pub(crate) fn take_octets(count: usize, octets: &[u8]) -> Option<(&[u8], &[u8])>
    ensures { IfSome result (λ x. (length x.0.now ≡ count) × (length x.0.now + length x.1.now ≡ length octets.now)) }
{
    if octets.len() < count {
        return None;
    }
    Some(octets.split_at(count))
}
