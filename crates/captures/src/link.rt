//! The types of links, and the headers that stand in front of a packet there.

ghost use Rattle.std.specs.Prelude.{◌≤◌, length};

use crate::cause::Cause;
use crate::octet_order::{OctetOrder, take_octets};

/// The type of a link, by its number in the list of link types of pcap.
#[derive(Clone, Copy, Debug, PartialEq, Eq)]
pub enum LinkType {
    /// Ethernet: 1.
    Ethernet,
    /// A packet of IP without a header in front: 101.
    RawIp,
    /// Any link of Linux, with its header of 16 octets: 113.
    LinuxCooked,
    /// A frame of MS/TP from its preamble on: 165.
    MsTp,
    /// A packet of IP, version 4, without a header in front: 228.
    Ipv4,
    /// Any link of Linux, with its header of 20 octets: 276.
    LinuxCookedTwo,
    /// Another type.
    Other(u16),
}

impl From<u16> for LinkType {
    fn from(number: u16) -> LinkType {
        match number {
            1 => LinkType::Ethernet,
            101 => LinkType::RawIp,
            113 => LinkType::LinuxCooked,
            165 => LinkType::MsTp,
            228 => LinkType::Ipv4,
            276 => LinkType::LinuxCookedTwo,
            number => LinkType::Other(number),
        }
    }
}

impl From<LinkType> for u16 {
    fn from(link_type: LinkType) -> u16 {
        match link_type {
            LinkType::Ethernet => 1,
            LinkType::RawIp => 101,
            LinkType::LinuxCooked => 113,
            LinkType::MsTp => 165,
            LinkType::Ipv4 => 228,
            LinkType::LinuxCookedTwo => 276,
            LinkType::Other(number) => number,
        }
    }
}

/// The number of IP, version 4, among the types of Ethernet.
const IPV4: u16 = 0x0800;

/// The octets of two addresses of Ethernet.
const ETHERNET_ADDRESSES: usize = 12;

/// The octets in front of the type in a header of Linux, and behind it in its second form.
const COOKED_OCTETS: usize = 14;

const COOKED_TWO_OCTETS: usize = 18;

/// The packet of IP, version 4, behind the header of a frame of Ethernet.
pub(crate) fn behind_ethernet(octets: &[u8]) -> Result<&[u8], Cause> {
    match take_octets(ETHERNET_ADDRESSES, octets) {
        Some((_, rest)) => behind_type(rest),
        None => Err(Cause::Cut),
    }
}

/// The packet of IP, version 4, behind a header of Linux.
pub(crate) fn behind_cooked(octets: &[u8]) -> Result<&[u8], Cause> {
    match take_octets(COOKED_OCTETS, octets) {
        Some((_, rest)) => behind_type(rest),
        None => Err(Cause::Cut),
    }
}

/// The packet of IP, version 4, behind a header of Linux in its second form.
pub(crate) fn behind_cooked_two(octets: &[u8]) -> Result<&[u8], Cause> {
    let Some((number, rest)) = OctetOrder::Big.take_u16(octets) else {
        return Err(Cause::Cut);
    };
    let Some((_, packet)) = take_octets(COOKED_TWO_OCTETS, rest) else {
        return Err(Cause::Cut);
    };
    if is_tag(number) {
        return behind_type(behind_tag(packet));
    }
    packet_of(number, packet)
}

/// Whether the number of a type of Ethernet is that of a VLAN's tag (IEEE 802.1Q and 802.1ad).
fn is_tag(number: u16) -> bool {
    matches!(number, 0x8100 | 0x88A8 | 0x9100)
}

/// The packet of IP, version 4, behind a type of Ethernet, with any number of VLANs' tags between.
fn behind_type(octets: &[u8]) -> Result<&[u8], Cause> {
    let mut left = octets;
    while let [high, low, rest @ ..] = left {
        let number = u16::from_be_bytes([*high, *low]);
        if !is_tag(number) {
            return packet_of(number, rest);
        }
        left = behind_tag(rest);
    }
    Err(Cause::Cut)
}

/// What stands behind the two octets of a VLAN's tag.
fn behind_tag(octets: &[u8]) -> &[u8]
    ensures { length result.now ≤ length octets.now }
{
    match octets {
        [_, _, rest @ ..] => rest,
        _ => &[],
    }
}

/// What stands behind the number of IP, version 4.
fn packet_of(number: u16, rest: &[u8]) -> Result<&[u8], Cause> {
    if number != IPV4 {
        return Err(Cause::NotIpv4);
    }
    Ok(rest)
}
