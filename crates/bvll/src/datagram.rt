//! Datagrams, read and written.

use crate::address::{ADDRESS_OCTETS, Address};
use crate::code::ResultCode;
use crate::entry::{DistributionEntry, ENTRY_OCTETS, ForeignDevice};
use crate::function::Function;
use crate::table::BvllTable;
use byteorder::{BigEndian, ByteOrder};
use std::alloc::{AllocError, Allocator};
use tags::{Fault, all_or_none};

/// The first octet of each datagram: BACnet/IP (J.2).
pub const BACNET_IP: u8 = 0x81;

/// The octets of a header: 81, the function, and the length of the whole (J.2).
pub const HEADER_OCTETS: usize = 4;

/// A datagram of the virtual link layer (J.2). An NPDU is the named slice of the datagram.
#[derive(Clone, Copy, Debug)]
pub enum Bvll<'a> {
    /// How a manager took a request (J.2.1).
    Result(ResultCode),
    /// The distribution table that a manager is to keep (J.2.2).
    WriteBroadcastDistributionTable(BvllTable<'a, DistributionEntry>),
    /// Asks a manager for its distribution table (J.2.3).
    ReadBroadcastDistributionTable,
    /// The distribution table that a manager keeps (J.2.4).
    ReadBroadcastDistributionTableAck(BvllTable<'a, DistributionEntry>),
    /// A broadcast on its way through a manager; the origin is the station that said it (J.2.5).
    ForwardedNpdu { origin: Address, npdu: &'a [u8] },
    /// Asks a manager for its broadcasts, for so many seconds (J.2.6).
    RegisterForeignDevice { seconds_to_live: u16 },
    /// Asks a manager for its foreign device table (J.2.7).
    ReadForeignDeviceTable,
    /// The foreign devices that a manager serves (J.2.8).
    ReadForeignDeviceTableAck(BvllTable<'a, ForeignDevice>),
    /// Asks a manager to serve a foreign device no longer (J.2.9).
    DeleteForeignDeviceTableEntry(Address),
    /// Asks a manager to broadcast an NPDU (J.2.10).
    DistributeBroadcastToNetwork(&'a [u8]),
    /// An NPDU to one station (J.2.11).
    OriginalUnicastNpdu(&'a [u8]),
    /// An NPDU to all stations of a subnet (J.2.12).
    OriginalBroadcastNpdu(&'a [u8]),
}

impl<'a> Bvll<'a> {
    ghost use Rattle.std.specs.Prelude.{◌≡◌, ◌≢◌, ◌<◌, ◌≤◌, ◌^◌, ◌++◌, ◌∷◌, [], length, IfOk, IfErr, OnOk, OnErr};
    ghost use Rattle.std.specs.Prelude.{MatchOption};
    ghost use Rattle.byteorder.specs.Endian.{big_bytes};
    ghost use Rattle.bvll.specs.Address.{TakesAddress};
    ghost use Rattle.bvll.specs.Datagram.{canonical, contents, datagram_of, function, header, whole_length, HasFields};
    ghost use Rattle.bvll.specs.Datagram.{HasNamedCode, Spells, OnlyDatagram, NoDatagram};
    ghost use Rattle.tags.specs.Canonical.{Extends};
    ghost use Rattle.bvll.specs.Refusal.{HasContents, IsLength, Refuses};

    /// The datagram that the octets spell, all of them. Takes no memory.
    ///
    /// # Errors
    ///
    /// `BadVersion` for another first octet than 81, `BadTag` for an unknown function, `Short`
    /// where the header is cut, `BadLength` where the length is not that of the datagram, or is
    /// wrong for the function; the first of these that holds.
    pub fn read(octets: &'a [u8]) -> Result<Bvll<'a>, Fault>
        ensures read { IfOk result (λ b. Spells octets.entry.now (datagram_of b)) }
        ensures only { IfOk result (λ b. OnlyDatagram octets.entry.now (datagram_of b)) }
        ensures named { IfOk result HasNamedCode }
        ensures refused { OnErr result (NoDatagram octets.entry.now) }
        ensures fault { IfErr result (λ e. Refuses e octets.entry.now) }
    {
        let (function, whole, contents) = Bvll::header_from(octets)?;
        if usize::from(whole) != octets.len() {
            return Err(Fault::BadLength);
        }
        Bvll::from_contents(function, contents)
    }

    /// Appends the datagram's one spelling. After an `Err` the buffer is as it was.
    ///
    /// # Errors
    ///
    /// `Memory` alone.
    #[tactic(auto, using(crate::proofs::Unique::canonical_spells))]
    pub fn write<B: Allocator>(&self, out: &mut Vec<u8, B>) -> Result<(), Fault>
        requires { whole_length (datagram_of self.now) < 2 ^ 16 }
        ensures written { OnOk result (out.new.items ≡ out.old.items ++ canonical (datagram_of self.now)) }
        ensures spelled { OnOk result (Spells (canonical (datagram_of self.now)) (datagram_of self.now)) }
        ensures memory { IfErr result (λ e. e ≡ Fault.Memory) }
        ensures unchanged { OnErr result (out.new.items ≡ out.old.items) }
    {
        let start = out.len();
        let put = self.put(out);
        all_or_none(put, start, out)
    }

    /// What the datagram asks for or carries.
    pub fn function(&self) -> Function
        ensures { result ≡ function (datagram_of self.now) }
    {
        match self {
            Bvll::Result(_) => Function::Result,
            Bvll::WriteBroadcastDistributionTable(_) => Function::WriteBroadcastDistributionTable,
            Bvll::ReadBroadcastDistributionTable => Function::ReadBroadcastDistributionTable,
            Bvll::ReadBroadcastDistributionTableAck(_) => {
                Function::ReadBroadcastDistributionTableAck
            }
            Bvll::ForwardedNpdu { .. } => Function::ForwardedNpdu,
            Bvll::RegisterForeignDevice { .. } => Function::RegisterForeignDevice,
            Bvll::ReadForeignDeviceTable => Function::ReadForeignDeviceTable,
            Bvll::ReadForeignDeviceTableAck(_) => Function::ReadForeignDeviceTableAck,
            Bvll::DeleteForeignDeviceTableEntry(_) => Function::DeleteForeignDeviceTableEntry,
            Bvll::DistributeBroadcastToNetwork(_) => Function::DistributeBroadcastToNetwork,
            Bvll::OriginalUnicastNpdu(_) => Function::OriginalUnicastNpdu,
            Bvll::OriginalBroadcastNpdu(_) => Function::OriginalBroadcastNpdu,
        }
    }

    /// The length of the whole in octets, where two octets can say it. Only then can the datagram
    /// be written.
    pub fn whole_length(&self) -> Option<u16>
        ensures { MatchOption result (2 ^ 16 ≤ whole_length (datagram_of self.now))
            (λ n. n ≡ whole_length (datagram_of self.now)) }
    {
        let contents = match self {
            Bvll::Result(_) | Bvll::RegisterForeignDevice { .. } => 2,
            Bvll::WriteBroadcastDistributionTable(table)
            | Bvll::ReadBroadcastDistributionTableAck(table) => {
                table.len().saturating_mul(ENTRY_OCTETS)
            }
            Bvll::ReadBroadcastDistributionTable | Bvll::ReadForeignDeviceTable => 0,
            Bvll::ForwardedNpdu { npdu, .. } => npdu.len().saturating_add(ADDRESS_OCTETS),
            Bvll::ReadForeignDeviceTableAck(table) => table.len().saturating_mul(ENTRY_OCTETS),
            Bvll::DeleteForeignDeviceTableEntry(_) => ADDRESS_OCTETS,
            Bvll::DistributeBroadcastToNetwork(npdu)
            | Bvll::OriginalUnicastNpdu(npdu)
            | Bvll::OriginalBroadcastNpdu(npdu) => npdu.len(),
        };
        u16::try_from(contents.saturating_add(HEADER_OCTETS)).ok()
    }

    fn put<B: Allocator>(&self, out: &mut Vec<u8, B>) -> Result<(), AllocError>
        requires { whole_length (datagram_of self.now) < 2 ^ 16 }
        ensures put { OnOk result (out.new.items ≡ out.old.items ++ canonical (datagram_of self.now)) }
        ensures fields { OnOk result (HasFields (datagram_of self.now)) }
        ensures err { OnErr result (Extends out.old.items out.new.items) }
    {
        let whole = self.whole_length().unwrap();
        Bvll::put_header(self.function(), whole, out)?;
        self.put_contents(out)
    }

    fn header_from(octets: &'a [u8]) -> Result<(Function, u16, &'a [u8]), Fault>
        ensures read { IfOk result (λ x. octets.entry.now ≡ header x.0 x.1 ++ x.2.now) }
        ensures fits { IfOk result (λ x. x.1 < 2 ^ 16) }
        ensures fault { IfErr result (λ e. Refuses e octets.entry.now) }
    {
        let [first, ..] = octets else {
            return Err(Fault::Short);
        };
        if *first != BACNET_IP {
            return Err(Fault::BadVersion);
        }
        let [_, number, ..] = octets else {
            return Err(Fault::Short);
        };
        let function = Function::try_from(*number)?;
        let [_, _, high, low, contents @ ..] = octets else {
            return Err(Fault::Short);
        };
        Ok((function, BigEndian::read_u16(&[*high, *low]), contents))
    }

    fn put_header<B: Allocator>(
        function: Function,
        whole: u16,
        out: &mut Vec<u8, B>,
    ) -> Result<(), AllocError>
        ensures put { OnOk result (out.new.items ≡ out.old.items ++ header function whole) }
        ensures err { OnErr result (Extends out.old.items out.new.items) }
    {
        let [high, low] = whole.to_be_bytes();
        out.extend_from_slice(&[BACNET_IP, u8::from(function), high, low])
    }

    fn from_contents(function: Function, contents: &'a [u8]) -> Result<Bvll<'a>, Fault>
        ensures read { IfOk result (λ b. HasContents function contents.entry.now (datagram_of b)) }
        ensures named { IfOk result HasNamedCode }
        ensures refused { IfErr result (λ e. (e ≡ Fault.BadLength) ×
            (IsLength function (length contents.entry.now) → ⊥)) }
    {
        Ok(match function {
            Function::Result => Bvll::Result(ResultCode::from(Bvll::number_from(contents)?)),
            Function::WriteBroadcastDistributionTable => {
                Bvll::WriteBroadcastDistributionTable(BvllTable::read(contents)?)
            }
            Function::ReadBroadcastDistributionTable => {
                Bvll::nothing_from(contents)?;
                Bvll::ReadBroadcastDistributionTable
            }
            Function::ReadBroadcastDistributionTableAck => {
                Bvll::ReadBroadcastDistributionTableAck(BvllTable::read(contents)?)
            }
            Function::ForwardedNpdu => {
                let (origin, npdu) = Bvll::address_from(contents)?;
                Bvll::ForwardedNpdu { origin, npdu }
            }
            Function::RegisterForeignDevice => Bvll::RegisterForeignDevice {
                seconds_to_live: Bvll::number_from(contents)?,
            },
            Function::ReadForeignDeviceTable => {
                Bvll::nothing_from(contents)?;
                Bvll::ReadForeignDeviceTable
            }
            Function::ReadForeignDeviceTableAck => {
                Bvll::ReadForeignDeviceTableAck(BvllTable::read(contents)?)
            }
            Function::DeleteForeignDeviceTableEntry => {
                Bvll::DeleteForeignDeviceTableEntry(Bvll::only_address_from(contents)?)
            }
            Function::DistributeBroadcastToNetwork => Bvll::DistributeBroadcastToNetwork(contents),
            Function::OriginalUnicastNpdu => Bvll::OriginalUnicastNpdu(contents),
            Function::OriginalBroadcastNpdu => Bvll::OriginalBroadcastNpdu(contents),
        })
    }

    fn put_contents<B: Allocator>(&self, out: &mut Vec<u8, B>) -> Result<(), AllocError>
        ensures put { OnOk result (out.new.items ≡ out.old.items ++ contents (datagram_of self.now)) }
        ensures fields { OnOk result (HasFields (datagram_of self.now)) }
        ensures err { OnErr result (Extends out.old.items out.new.items) }
    {
        match self {
            Bvll::Result(code) => out.extend_from_slice(&u16::from(*code).to_be_bytes()),
            Bvll::WriteBroadcastDistributionTable(table)
            | Bvll::ReadBroadcastDistributionTableAck(table) => table.put(out),
            Bvll::ReadBroadcastDistributionTable | Bvll::ReadForeignDeviceTable => Ok(()),
            Bvll::ForwardedNpdu { origin, npdu } => {
                out.extend_from_slice(&origin.to_octets())?;
                out.extend_from_slice(npdu)
            }
            Bvll::RegisterForeignDevice { seconds_to_live } => {
                out.extend_from_slice(&seconds_to_live.to_be_bytes())
            }
            Bvll::ReadForeignDeviceTableAck(table) => table.put(out),
            Bvll::DeleteForeignDeviceTableEntry(address) => {
                out.extend_from_slice(&address.to_octets())
            }
            Bvll::DistributeBroadcastToNetwork(npdu)
            | Bvll::OriginalUnicastNpdu(npdu)
            | Bvll::OriginalBroadcastNpdu(npdu) => out.extend_from_slice(npdu),
        }
    }

    fn nothing_from(contents: &[u8]) -> Result<(), Fault>
        ensures read { OnOk result (contents.now ≡ []) }
        ensures refused { IfErr result (λ e. (e ≡ Fault.BadLength) × (length contents.now ≢ 0)) }
    {
        if !contents.is_empty() {
            return Err(Fault::BadLength);
        }
        Ok(())
    }

    fn number_from(contents: &[u8]) -> Result<u16, Fault>
        ensures read { IfOk result (λ n. (n < 2 ^ 16) × (contents.now ≡ big_bytes 2 n)) }
        ensures refused { IfErr result (λ e. (e ≡ Fault.BadLength) × (length contents.now ≢ 2)) }
    {
        match contents {
            [high, low] => Ok(BigEndian::read_u16(&[*high, *low])),
            _ => Err(Fault::BadLength),
        }
    }

    fn address_from(contents: &'a [u8]) -> Result<(Address, &'a [u8]), Fault>
        ensures read { IfOk result (λ x. TakesAddress contents.entry.now x.0 x.1.now) }
        ensures refused { IfErr result (λ e. (e ≡ Fault.BadLength) × (length contents.entry.now < 6)) }
    {
        if contents.len() < ADDRESS_OCTETS {
            return Err(Fault::BadLength);
        }
        let (_, rest) = contents.split_at(ADDRESS_OCTETS);
        Ok((Address::from_octets(contents), rest))
    }

    fn only_address_from(contents: &'a [u8]) -> Result<Address, Fault>
        ensures read { IfOk result (λ a. TakesAddress contents.entry.now a []) }
        ensures refused { IfErr result (λ e. (e ≡ Fault.BadLength) × (length contents.entry.now ≢ 6)) }
    {
        let (address, rest) = Bvll::address_from(contents)?;
        Bvll::nothing_from(rest)?;
        Ok(address)
    }
}
