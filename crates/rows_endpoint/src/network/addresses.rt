//! Addresses in words: `47808` is that port at 127.0.0.1.

use bvll::Address;
use sheets::Stop;
use std::alloc::{AllocError, Global};
use words::parse_number;

/// The address with this port.
pub(crate) fn at_port(port: u16) -> Address {
    Address {
        ip: [127, 0, 0, 1],
        port,
    }
}

/// A port.
///
/// # Errors
/// `Unread` where the word is none.
pub(crate) fn port(word: &str) -> Result<u16, Stop> {
    Ok(parse_number(word)?)
}

/// The first and the last port of `47900..47931`, or of one.
///
/// # Errors
/// `Unread` where the word is none of ports.
pub(crate) fn ports(word: &str) -> Result<(u16, u16), Stop> {
    match word.split_once("..") {
        Some((first, last)) => Ok((port(first)?, port(last)?)),
        None => Ok((port(word)?, port(word)?)),
    }
}

/// The addresses with these ports, `47810 47811 47900..47931`, none for an empty text.
///
/// # Errors
/// `Unread` where a word is none of ports, `Memory`.
pub(crate) fn addresses(alloc: Global, words: &str) -> Result<Vec<Address>, Stop> {
    let mut all = Vec::new(alloc);
    for word in words.split(' ') {
        if !word.is_empty() {
            let (first, last) = ports(word)?;
            for port in first..=last {
                all.push(at_port(port))?;
            }
        }
    }
    Ok(all)
}

/// Appends an address: its port, and the octets of another host before it.
///
/// # Errors
/// Want of memory.
pub(crate) fn push_address(address: Address, out: &mut String) -> Result<(), AllocError> {
    if address.ip != [127, 0, 0, 1] {
        let [a, b, c, d] = address.ip;
        write!(out, "{a}.{b}.{c}.{d}:")?;
    }
    write!(out, "{}", address.port)
}
