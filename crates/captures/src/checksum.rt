//! The checksum of IP and UDP: the ones' complement of the ones' complement sum of words of 16 bits (RFC 791, 3.1).

ghost use Rattle.std.specs.Prelude.{◌≤◌, length};

/// The sum of a number and the words that octets spell, a last octet alone being the high one of its word.
pub(crate) fn sum_of(start: u16, octets: &[u8]) -> u16 {
    let mut sum = start;
    let mut left = octets;
    while let [high, behind @ ..] = left {
        let (low, rest) = low_of(behind);
        sum = add(sum, u16::from_be_bytes([*high, low]));
        left = rest;
    }
    sum
}

/// The octet at the front, 0 where there is none, and what stands behind it.
fn low_of(octets: &[u8]) -> (u8, &[u8])
    ensures { length result.1.now ≤ length octets.now }
{
    match octets {
        [low, rest @ ..] => (*low, rest),
        [] => (0, octets),
    }
}

/// The ones' complement sum of two words: what is carried out of the highest bit is added at the lowest.
fn add(a: u16, b: u16) -> u16 {
    let (sum, carries) = a.overflowing_add(b);
    sum.wrapping_add(u16::from(carries))
}
