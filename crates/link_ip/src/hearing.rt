//! The message that a datagram hands up.

ghost use Rattle.std.specs.Prelude.{◌≡◌, IfOk, IfErr};
ghost use Rattle.bvll.specs.Datagram.{datagram_of};
ghost use Rattle.link_ip.specs.Hearing.{HandsUp, IsHeard, IsNotRead, IsRefused, handed_up};
ghost use Rattle.link_ip.specs.Port.{station_of};
ghost use Rattle.link.specs.Up.{parcel_if};

use crate::port::IpPort;
use bvll::Bvll;
use link::Up;
use npdu::{Mac, Target};
use std::alloc::Allocator;
use tags::Fault;

impl<A: Allocator + Copy> IpPort<A> {
    /// What a datagram from an address hands up, if it hands anything up.
    fn handed_up<'o>(&self, from: Mac, heard: &Bvll<'o>, stamp: u64) -> Option<Up<'o>>
        ensures { parcel_if {A = A} result ≡ handed_up from (station_of self.now).mac stamp (datagram_of heard.now) }
    {
        let to = Target::One(self.station().mac);
        match heard {
            Bvll::OriginalUnicastNpdu(npdu) => Some(Up {
                from,
                to,
                npdu: *npdu,
                stamp,
            }),
            Bvll::OriginalBroadcastNpdu(npdu) => Some(Up {
                from,
                to: Target::All,
                npdu: *npdu,
                stamp,
            }),
            Bvll::ForwardedNpdu { origin, npdu } => Some(Up {
                from: Mac::Six(origin.to_octets()),
                to: Target::All,
                npdu: *npdu,
                stamp,
            }),
            Bvll::Result(_)
            | Bvll::WriteBroadcastDistributionTable(_)
            | Bvll::ReadBroadcastDistributionTable
            | Bvll::ReadBroadcastDistributionTableAck(_)
            | Bvll::RegisterForeignDevice { .. }
            | Bvll::ReadForeignDeviceTable
            | Bvll::ReadForeignDeviceTableAck(_)
            | Bvll::DeleteForeignDeviceTableEntry(_)
            | Bvll::DistributeBroadcastToNetwork(_) => None,
        }
    }

    /// What octets from an address hand up, where they spell a datagram.
    fn read<'o>(&self, from: Mac, octets: &'o [u8], stamp: u64) -> Result<Option<Up<'o>>, Fault>
        ensures up { IfOk result (λ up.
            HandsUp from (station_of self.now).mac octets.entry.now stamp (parcel_if {A = A} up)) }
        ensures cause { IfErr result (λ fault. IsNotRead fault octets.entry.now) }
    {
        let heard = Bvll::read(octets)?;
        Ok(self.handed_up(from, &heard, stamp))
    }

    /// What octets from an address hand up: nothing where the address is of another kind. It takes no memory.
    ///
    /// # Errors
    /// As `Bvll::read` refuses.
    pub(crate) fn heard_from<'o>(
        &self,
        from: Mac,
        octets: &'o [u8],
        stamp: u64,
    ) -> Result<Option<Up<'o>>, Fault>
        ensures up { IfOk result (λ up.
            IsHeard from (station_of self.now).mac octets.entry.now stamp (parcel_if {A = A} up)) }
        ensures cause { IfErr result (λ fault. IsRefused fault from octets.entry.now) }
    {
        match from {
            Mac::One(_) => Ok(None),
            Mac::Six(_) => self.read(from, octets, stamp),
        }
    }
}
