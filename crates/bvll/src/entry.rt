//! The entries of a broadcast manager's two tables.

ghost use Rattle.std.specs.Prelude.{◌≡◌, ◌≤◌, ℕ, List, length, take};
ghost use Rattle.tags.specs.Number.{AreOctets};
ghost use Rattle.bvll.specs.Table.{SpellsEntry};

use crate::address::Address;
use byteorder::{BigEndian, ByteOrder};

/// The octets of an entry in a table.
pub const ENTRY_OCTETS: usize = 10;

/// An entry of a broadcast distribution table or a foreign device table, which ten octets spell (J.2.2, J.2.8).
pub trait TableEntry: Copy {
    ghost entry_at: { List ℕ → Self };

    ghost octets_of: { Self → List ℕ };

    ghost IsEntry: { Self → Type 0 };

    /// The entry in the first ten octets.
    fn from_octets(octets: &[u8]) -> Self
        requires { 10 ≤ length octets.now }
        ensures { result ≡ entry_at octets.now };

    /// The ten octets that spell the entry.
    fn to_octets(&self) -> [u8; ENTRY_OCTETS]
        ensures octets { result ≡ octets_of self.now }
        ensures fields { IsEntry self.now };

    // what is read is spelled by the octets
    ghost spelled: { (octets : List ℕ) → AreOctets octets → 10 ≤ length octets →
        SpellsEntry octets_of IsEntry (take 10 octets) (entry_at octets) };
}

/// An entry of the broadcast distribution table (J.2.2).
#[derive(Clone, Copy, Debug, PartialEq, Eq)]
pub struct DistributionEntry {
    pub address: Address,
    pub mask: [u8; 4],
}

/// An entry of the foreign device table, as a manager tells it (J.2.8).
#[derive(Clone, Copy, Debug, PartialEq, Eq)]
pub struct ForeignDevice {
    pub address: Address,
    /// The seconds that a registration of this device lives.
    pub seconds_to_live: u16,
    /// The seconds until this registration ends.
    pub seconds_left: u16,
}

impl TableEntry for DistributionEntry {
    ghost use Rattle.bvll.specs.Entry.{distribution_at, distribution_octets, IsDistributionEntry};
    ghost use Rattle.bvll.specs.EntryLaws.{distribution_spelled};

    ghost entry_at = { distribution_at };

    ghost octets_of = { distribution_octets };

    ghost IsEntry = { IsDistributionEntry };

    ghost spelled = { distribution_spelled };

    fn from_octets(octets: &[u8]) -> DistributionEntry {
        DistributionEntry {
            address: Address::from_octets(octets),
            mask: [octets[6], octets[7], octets[8], octets[9]],
        }
    }

    fn to_octets(&self) -> [u8; ENTRY_OCTETS] {
        let [a, b, c, d, high, low] = self.address.to_octets();
        let [e, f, g, h] = self.mask;
        [a, b, c, d, high, low, e, f, g, h]
    }
}

impl TableEntry for ForeignDevice {
    ghost use Rattle.bvll.specs.Entry.{foreign_at, foreign_octets, IsForeignDevice};
    ghost use Rattle.bvll.specs.EntryLaws.{foreign_spelled};

    ghost entry_at = { foreign_at };

    ghost octets_of = { foreign_octets };

    ghost IsEntry = { IsForeignDevice };

    ghost spelled = { foreign_spelled };

    fn from_octets(octets: &[u8]) -> ForeignDevice {
        ForeignDevice {
            address: Address::from_octets(octets),
            seconds_to_live: BigEndian::read_u16(&octets[6..]),
            seconds_left: BigEndian::read_u16(&octets[8..]),
        }
    }

    fn to_octets(&self) -> [u8; ENTRY_OCTETS] {
        let ForeignDevice {
            address,
            seconds_to_live,
            seconds_left,
        } = *self;
        let [a, b, c, d, high, low] = address.to_octets();
        let [e, f] = seconds_to_live.to_be_bytes();
        let [g, h] = seconds_left.to_be_bytes();
        [a, b, c, d, high, low, e, f, g, h]
    }
}
