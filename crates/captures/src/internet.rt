//! Datagrams of UDP in packets of IP, version 4, as they are read (RFC 791, RFC 768).

use crate::cause::Cause;
use crate::octet_order::{OctetOrder, take_octets};
use bvll::{Address, BACNET_IP};

/// The number of UDP among the protocols of IP.
pub(crate) const UDP: u8 = 17;

/// The octets of a header of IP without options.
pub(crate) const IP_HEADER_OCTETS: usize = 20;

/// The octets of a header of UDP.
pub(crate) const UDP_HEADER_OCTETS: usize = 8;

/// A datagram of UDP, and its ends.
#[derive(Clone, Copy, Debug, PartialEq, Eq)]
pub struct Datagram<'a> {
    /// Whom it comes from.
    pub from: Address,
    /// Where it goes.
    pub to: Address,
    /// What it carries: one datagram of BACnet/IP.
    pub octets: &'a [u8],
}

/// What is read of a packet's first twenty octets (RFC 791, 3.1).
#[derive(Clone, Copy)]
struct Header {
    version: u8,
    header_octets: usize,
    total_octets: usize,
    is_fragment: bool,
    protocol: u8,
    source: [u8; 4],
    destination: [u8; 4],
}

/// The datagram of BACnet/IP in a packet of IP, version 4.
pub(crate) fn datagram_in(packet: &[u8]) -> Result<Datagram<'_>, Cause> {
    let Some(header) = header_of(packet) else {
        return Err(Cause::Cut);
    };
    if header.version != 4 {
        return Err(Cause::NotIpv4);
    }
    if header.protocol != UDP {
        return Err(Cause::NotUdp);
    }
    if header.is_fragment {
        return Err(Cause::Fragment);
    }
    let Some(datagram) = datagram_behind(header, packet) else {
        return Err(Cause::Cut);
    };
    match datagram.octets {
        [BACNET_IP, ..] => Ok(datagram),
        _ => Err(Cause::NotBacnetIp),
    }
}

/// The header at the front of a packet. That more fragments follow, and where this one begins, are the lower six bits
/// of the seventh octet and the eighth.
fn header_of(packet: &[u8]) -> Option<Header> {
    if packet.len() < IP_HEADER_OCTETS {
        return None;
    }
    let first = packet[0];
    Some(Header {
        version: first >> 4,
        header_octets: 4 * usize::from(first & 15),
        total_octets: usize::from(u16::from_be_bytes([packet[2], packet[3]])),
        is_fragment: packet[6] & 0x3F != 0 || packet[7] != 0,
        protocol: packet[9],
        source: [packet[12], packet[13], packet[14], packet[15]],
        destination: [packet[16], packet[17], packet[18], packet[19]],
    })
}

/// The datagram behind a header, and `None` where it is cut.
fn datagram_behind(header: Header, packet: &[u8]) -> Option<Datagram<'_>> {
    if header.header_octets < IP_HEADER_OCTETS {
        return None;
    }
    let (whole, _) = take_octets(header.total_octets, packet)?;
    let (_, carried) = take_octets(header.header_octets, whole)?;
    let (from, rest) = OctetOrder::Big.take_u16(carried)?;
    let (to, rest) = OctetOrder::Big.take_u16(rest)?;
    let octets = octets_of(rest)?;
    let Header {
        source,
        destination,
        ..
    } = header;
    Some(Datagram {
        from: Address {
            ip: source,
            port: from,
        },
        to: Address {
            ip: destination,
            port: to,
        },
        octets,
    })
}

/// What a datagram carries, of which the length and the checksum stand in front.
fn octets_of(octets: &[u8]) -> Option<&[u8]> {
    let (length, rest) = OctetOrder::Big.take_u16(octets)?;
    let (_, rest) = OctetOrder::Big.take_u16(rest)?;
    let count = usize::from(length).checked_sub(UDP_HEADER_OCTETS)?;
    let (octets, _) = take_octets(count, rest)?;
    Some(octets)
}
