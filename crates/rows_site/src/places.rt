//! Places in words: `1/2/47810` on subnet 2 of network 1 at 127.0.0.1:47810, `2/5` at MAC 5 of network 2, and
//! `at/m/60/47824`, beyond all subnets, for 60 seconds at the manager `m`; `at/m/60/47824/1` tells its network too.

use bvll::Address;
use sheets::{Part, Stop};
use site_parts::{Foreign, Link, Place};
use std::alloc::Allocator;
use tags::{Items, Octets};
use words::parse_number;

/// A text up to the first of these, and the rest.
pub(crate) fn cut(text: &str, at: char) -> (&str, &str) {
    match text.split_once(at) {
        Some(parts) => parts,
        None => (text, ""),
    }
}

/// A port of 127.0.0.1.
pub(crate) fn address(word: &str) -> Result<Address, Stop> {
    Ok(Address {
        ip: [127, 0, 0, 1],
        port: parse_number(word)?,
    })
}

/// Letters as they stand.
pub(crate) fn text<A: Allocator + Copy>(memory: A, word: &str) -> Result<Octets<A>, Stop> {
    Ok(Items::from_slice(memory, word.as_bytes())?)
}

/// A place on a network.
pub(crate) fn link(word: &str) -> Result<Link, Stop> {
    let (network, rest) = cut(word, '/');
    let network = parse_number(network)?;
    match rest.split_once('/') {
        Some((subnet, port)) => ip(network, subnet, port),
        None => Ok(Link::Bus {
            network,
            mac: parse_number(rest)?,
        }),
    }
}

/// A place on a subnet.
fn ip(network: u16, subnet: &str, port: &str) -> Result<Link, Stop> {
    let subnet = parse_number(subnet)?;
    let address = address(port)?;
    Ok(Link::Ip {
        network,
        subnet,
        address,
    })
}

/// A place on a network, or beyond all subnets.
pub(crate) fn place<A: Allocator + Copy>(memory: A, word: &str) -> Result<Place<A>, Stop> {
    match word.strip_prefix("at/") {
        Some(rest) => Ok(Place::Beyond(foreign(memory, rest)?)),
        None => Ok(Place::On(link(word)?)),
    }
}

/// A place beyond all subnets.
fn foreign<A: Allocator + Copy>(memory: A, words: &str) -> Result<Foreign<A>, Stop> {
    let (manager, rest) = cut(words, '/');
    let (seconds, rest) = cut(rest, '/');
    let (port, network) = cut(rest, '/');
    let seconds_to_live = parse_number(seconds)?;
    let address = address(port)?;
    Ok(Foreign {
        network: network_in(network)?,
        address,
        manager: text(memory, manager)?,
        seconds_to_live,
    })
}

/// The network of a place, where it is told.
fn network_in(word: &str) -> Result<Option<u16>, Stop> {
    if word.is_empty() {
        return Ok(None);
    }
    match parse_number(word) {
        Ok(network) => Ok(Some(network)),
        Err(_) => Err(Stop::Unread(Part::Number)),
    }
}
