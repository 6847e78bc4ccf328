//! Who speaks with whom, in the form in which a link shows it.

use bvll::Address;
use npdu::{Destination, Dnet, Source};
use std::fmt;

/// The most octets of an address behind a router: those of a network with the longest ones that are followed.
const MAX_REMOTE_OCTETS: usize = 8;

/// An address on a link.
#[derive(Clone, Copy, PartialEq, Eq, Hash)]
pub enum LinkAddress {
    /// One of BACnet/IP: four octets of the Internet address, and a port of UDP (J.1.2).
    Ip([u8; 4], u16),
    /// A node (9.1.2) of the bus on this interface of the capture.
    Node(u32, u8),
}

impl From<Address> for LinkAddress {
    fn from(address: Address) -> LinkAddress {
        LinkAddress::Ip(address.ip, address.port)
    }
}

impl fmt::Display for LinkAddress {
    fn fmt<W: fmt::Write>(&self, f: &mut fmt::Formatter<W>) -> fmt::Result {
        match self {
            LinkAddress::Ip([a, b, c, d], port) => write!(f, "{a}.{b}.{c}.{d}:{port}"),
            LinkAddress::Node(interface, node) => write!(f, "bus{interface}/{node}"),
        }
    }
}

/// A station behind a router: its network's number, and its address there of up to eight octets (6.2.2).
#[derive(Clone, Copy, PartialEq, Eq, Hash)]
pub struct Remote {
    net: u16,
    /// The octets of the address, filled up with zeros.
    octets: [u8; 8],
    count: u8,
}

impl Remote {
    /// The station of this address; `None` where that is longer than any that is followed.
    fn new(net: u16, mac: &[u8]) -> Option<Remote> {
        if MAX_REMOTE_OCTETS < mac.len() {
            return None;
        }
        let mut octets = [0; 8];
        for (at, octet) in mac.iter().enumerate() {
            if at < MAX_REMOTE_OCTETS {
                octets[at] = *octet;
            }
        }
        Some(Remote {
            net,
            octets,
            count: mac.len() as u8,
        })
    }
}

impl Remote {
    /// Its network's number.
    pub fn net(&self) -> u16 {
        self.net
    }
}

impl fmt::Display for Remote {
    fn fmt<W: fmt::Write>(&self, f: &mut fmt::Formatter<W>) -> fmt::Result {
        write!(f, "{}:", self.net)?;
        for (at, octet) in self.octets.iter().enumerate() {
            if at < usize::from(self.count) {
                write!(f, "{octet:02X}")?;
            }
        }
        Ok(())
    }
}

/// One end of a message on a link: the address there, and the station behind the router of that address, if it is one.
#[derive(Clone, Copy, PartialEq, Eq, Hash)]
pub struct Party {
    /// The address on the link.
    pub link: LinkAddress,
    /// The station behind the router.
    pub remote: Option<Remote>,
}

impl Party {
    /// Who says a message; `None` where SADR is longer than any that is followed.
    pub fn sender(link: LinkAddress, source: Option<Source<'_>>) -> Option<Party> {
        let remote = match source {
            Some(source) => Some(Remote::new(source.net, source.mac)?),
            None => None,
        };
        Some(Party { link, remote })
    }

    /// Whom a message is for; `None` where it is for several, or DADR is longer than any that is followed.
    pub fn receiver(link: LinkAddress, destination: Option<Destination<'_>>) -> Option<Party> {
        let remote = match destination {
            Some(
                Destination {
                    net: Dnet::Network(net),
                    mac,
                    ..
                },
            ) if !mac.is_empty() => Some(Remote::new(net, mac)?),
            Some(_) => return None,
            None => None,
        };
        Some(Party { link, remote })
    }
}

impl fmt::Display for Party {
    fn fmt<W: fmt::Write>(&self, f: &mut fmt::Formatter<W>) -> fmt::Result {
        match self.remote {
            Some(remote) => write!(f, "{remote}@{}", self.link),
            None => write!(f, "{}", self.link),
        }
    }
}

/// What distinguishes a transaction from the others that are open: its client, its server and its invoke ID (5.4.1).
#[derive(Clone, Copy, PartialEq, Eq, Hash)]
pub struct Key {
    /// Who asks.
    pub client: Party,
    /// Who is asked.
    pub server: Party,
    /// The invoke ID.
    pub invoke_id: u8,
}

impl Key {
    /// The key of a transaction.
    pub fn of(client: Party, server: Party, invoke_id: u8) -> Key {
        Key {
            client,
            server,
            invoke_id,
        }
    }
}
