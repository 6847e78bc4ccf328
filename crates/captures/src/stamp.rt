//! When packets were captured: stamps in the units of files, in microseconds since 1970 (UTC).

ghost use Rattle.std.specs.Prelude.{◌≤◌};

use crate::link::LinkType;

/// The microseconds of a second.
const SECOND: u64 = 1_000_000;

/// The unit of the lower half of pcap's stamps.
#[derive(Clone, Copy, Debug, PartialEq, Eq)]
pub(crate) enum PcapUnit {
    Microseconds,
    Nanoseconds,
}

impl PcapUnit {
    /// The stamp of a record, in microseconds.
    pub(crate) fn stamp(self, seconds: u32, fraction: u32) -> u64 {
        let microseconds = match self {
            PcapUnit::Microseconds => fraction,
            PcapUnit::Nanoseconds => fraction / 1000,
        };
        (u64::from(seconds) * SECOND).saturating_add(u64::from(microseconds))
    }
}

/// What the description of an interface says of its packets.
#[derive(Clone, Copy)]
pub(crate) struct Interface {
    pub(crate) link_type: LinkType,
    /// The unit of stamps, as `if_tsresol` has it: a power of ten, or with the highest bit of two, that a second has.
    pub(crate) resolution: u8,
    /// The seconds that are added to each stamp, modulo 2^64, as `if_tsoffset` has it.
    pub(crate) offset: u64,
}

impl Interface {
    /// An interface of a link type, whose stamps count microseconds since 1970, as without options.
    pub(crate) fn of_link(number: u16) -> Interface {
        Interface {
            link_type: LinkType::from(number),
            resolution: 6,
            offset: 0,
        }
    }

    /// A stamp in microseconds.
    pub(crate) fn microseconds(&self, stamp: u64) -> u64 {
        let power = self.resolution & 0x7F;
        let microseconds = if self.resolution < 0x80 {
            of_tenths(stamp, power)
        } else {
            of_halves(stamp, power)
        };
        microseconds.wrapping_add(self.offset.wrapping_mul(SECOND))
    }
}

/// The microseconds of so many parts of a second, which is ten to this power of them.
fn of_tenths(stamp: u64, power: u8) -> u64 {
    match power {
        0..=6 => stamp.saturating_mul(ten_to(6 - power)),
        7..=25 => stamp / ten_to(power - 6),
        _ => 0,
    }
}

/// Ten to a power of up to 19.
fn ten_to(power: u8) -> u64
    ensures positive { 1 ≤ result }
{
    match power {
        0 => 1,
        1 => 10,
        2 => 100,
        3 => 1000,
        4 => 10_000,
        5 => 100_000,
        6 => 1_000_000,
        7 => 10_000_000,
        8 => 100_000_000,
        9 => 1_000_000_000,
        10 => 10_000_000_000,
        11 => 100_000_000_000,
        12 => 1_000_000_000_000,
        13 => 10_000_000_000_000,
        14 => 100_000_000_000_000,
        15 => 1_000_000_000_000_000,
        16 => 10_000_000_000_000_000,
        17 => 100_000_000_000_000_000,
        18 => 1_000_000_000_000_000_000,
        _ => 10_000_000_000_000_000_000,
    }
}

/// The microseconds of so many parts of a second, which is two to this power of them.
fn of_halves(stamp: u64, power: u8) -> u64 {
    if 63 < power {
        return 0;
    }
    let seconds = stamp >> power;
    let part = stamp & ((1 << power) - 1);
    let (part, power) = if power < 44 {
        (part, power)
    } else {
        (part >> (power - 43), 43)
    };
    seconds
        .saturating_mul(SECOND)
        .saturating_add(part.saturating_mul(SECOND) >> power)
}
