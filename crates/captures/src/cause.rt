//! Why a packet of a capture is passed over.

use std::fmt;

/// Why a packet is neither a datagram of BACnet/IP nor a frame of MS/TP.
#[derive(Clone, Copy, Debug, PartialEq, Eq)]
pub enum Cause {
    /// It ends before one of its lengths says, or such a length is too small for what it counts.
    Cut,
    /// The file describes no interface of its number.
    NoInterface,
    /// It comes from a link of another type, which has this number in the list of link types.
    OtherLink(u16),
    /// No packet of IP, version 4, is in it.
    NotIpv4,
    /// Its IP carries another protocol than UDP.
    NotUdp,
    /// It is a fragment of a datagram (RFC 791, 3.2).
    Fragment,
    /// A datagram of UDP whose first octet isn't 81 (J.2).
    NotBacnetIp,
}

impl fmt::Display for Cause {
    fn fmt<W: fmt::Write>(&self, f: &mut fmt::Formatter<W>) -> fmt::Result {
        match self {
            Cause::Cut => f.write_str("it is cut, or has a length that can't be"),
            Cause::NoInterface => f.write_str("its interface is not described"),
            Cause::OtherLink(number) => write!(f, "its link type is {number}"),
            Cause::NotIpv4 => f.write_str("it is no packet of IPv4"),
            Cause::NotUdp => f.write_str("it is no UDP"),
            Cause::Fragment => f.write_str("it is a fragment"),
            Cause::NotBacnetIp => f.write_str("it is no BACnet/IP"),
        }
    }
}
