//! A station, and the words for one.

use diagnosis_parts::{LinkAddress, Party, Remote};
use npdu::Source;
use std::alloc::{AllocError, Allocator};
use std::net::Ipv4Addr;
use words::{Unread, parse_number, parse_octets, parse_u16, parse_u32};

/// The port of BACnet/IP (J.1.2).
const PORT: u16 = 47_808;

/// Where a station is.
#[derive(Clone, Copy, PartialEq, Eq)]
pub enum Place {
    /// As a link shows it.
    At(Party),
    /// On a network, behind whichever router.
    Behind(Remote),
}

impl Place {
    /// Whether this station is there.
    pub fn has(&self, party: Party) -> bool {
        match self {
            Place::At(own) => *own == party,
            Place::Behind(remote) => party.remote == Some(*remote),
        }
    }
}

/// The station that a word says in the form in which it is printed: `10.0.0.9:47808`, `10.0.0.9` at the usual port,
/// `bus1/5`, `2:05@10.0.0.1:47808`; `None` for any other word.
///
/// # Errors
/// Want of memory.
pub fn party_in<A: Allocator + Copy>(alloc: A, word: &str) -> Result<Option<Party>, AllocError> {
    let Some((remote, link)) = word.split_once('@') else {
        return Ok(link_in(word).map(|link| Party { link, remote: None }));
    };
    let (Some(link), Some((net, mac))) = (link_in(link), remote.split_once(':')) else {
        return Ok(None);
    };
    let Ok(net) = parse_u16(net) else {
        return Ok(None);
    };
    match parse_octets(alloc, mac) {
        Ok(mac) => {
            let mac = mac.as_slice();
            Ok(Party::sender(link, Some(Source { net, mac })))
        }
        Err(Unread::Memory) => Err(AllocError),
        Err(_) => Ok(None),
    }
}

/// The address on a link that a word says.
fn link_in(word: &str) -> Option<LinkAddress> {
    if let Some(node) = word.strip_prefix("bus") {
        let (bus, mac) = node.split_once('/')?;
        let bus = parse_u32(bus).ok()?;
        let mac = parse_number::<u8>(mac).ok()?;
        return Some(LinkAddress::Node(bus, mac));
    }
    let (ip, port) = match word.split_once(':') {
        Some((ip, port)) => (ip, parse_u16(port).ok()?),
        None => (word, PORT),
    };
    let ip = ip.parse::<Ipv4Addr>().ok()?;
    Some(LinkAddress::Ip(ip.octets(), port))
}
