//! The packets that a finding names.

ghost use Rattle.std.specs.Prelude.{◌≡◌, ◌↔◌, IsTrue};
ghost use Rattle.findings.specs.Packets.{AreWithin};

use std::fmt;

/// The packets that a finding names, by their numbers from 1; 0 stands for none.
#[derive(Clone, Copy)]
pub struct Packets {
    pub first: u64,
    pub second: u64,
    pub third: u64,
    pub fourth: u64,
}

impl Packets {
    /// One packet.
    pub fn one(first: u64) -> Packets {
        Packets::three(first, 0, 0)
    }

    /// Two packets.
    pub fn two(first: u64, second: u64) -> Packets {
        Packets::three(first, second, 0)
    }

    /// Three packets.
    pub fn three(first: u64, second: u64, third: u64) -> Packets {
        Packets {
            first,
            second,
            third,
            fourth: 0,
        }
    }

    /// With another packet, where there are fewer than four.
    pub fn and(self, packet: u64) -> Packets {
        if self.first == 0 {
            return Packets {
                first: packet,
                ..self
            };
        }
        if self.second == 0 {
            return Packets {
                second: packet,
                ..self
            };
        }
        if self.third == 0 {
            return Packets {
                third: packet,
                ..self
            };
        }
        if self.fourth == 0 {
            return Packets {
                fourth: packet,
                ..self
            };
        }
        self
    }

    /// Whether each of them is among so many packets.
    pub(crate) fn are_within(self, read: u64) -> bool
        ensures { IsTrue result ↔ AreWithin read self }
    {
        self.first <= read && self.second <= read && self.third <= read && self.fourth <= read
    }
}

impl fmt::Display for Packets {
    fn fmt<W: fmt::Write>(&self, f: &mut fmt::Formatter<W>) -> fmt::Result {
        let noun = if self.second == 0 {
            "packet"
        } else {
            "packets"
        };
        write!(f, "{noun} {}", self.first)?;
        for number in [self.second, self.third, self.fourth] {
            if number != 0 {
                write!(f, " {number}")?;
            }
        }
        Ok(())
    }
}
