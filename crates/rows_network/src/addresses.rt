//! Addresses in words: `5` is that node of MS/TP, `47808` that port at 127.0.0.1, and `all` all stations.

use npdu::{Mac, Station, Target};
use sheets::{Part, Stop, two_words};
use std::alloc::{AllocError, Global};
use words::parse_number;

/// An address.
///
/// # Errors
/// `Unread` where the word is none.
pub(crate) fn mac(word: &str) -> Result<Mac, Stop> {
    let number: u16 = parse_number(word)?;
    match u8::try_from(number) {
        Ok(octet) => Ok(Mac::One(octet)),
        Err(_) => {
            let [high, low] = number.to_be_bytes();
            Ok(Mac::Six([127, 0, 0, 1, high, low]))
        }
    }
}

/// An address, or all.
///
/// # Errors
/// `Unread` where the word is none.
pub(crate) fn target(word: &str) -> Result<Target, Stop> {
    match word {
        "all" => Ok(Target::All),
        _ => Ok(Target::One(mac(word)?)),
    }
}

/// The station `1 47808`, of the network 1.
///
/// # Errors
/// `Unread` where the words are none.
fn station(words: &str) -> Result<Station, Stop> {
    let (net, address) = two_words(words);
    Ok(Station {
        net: parse_number(net)?,
        mac: mac(address)?,
    })
}

/// The stations `1 47808, 2 47809`.
///
/// # Errors
/// `Unread` where the words are none, `Memory`.
pub(crate) fn stations(alloc: Global, words: &str) -> Result<Vec<Station>, Stop> {
    let mut all = Vec::new(alloc);
    for word in words.split(", ") {
        all.push(station(word)?)?;
    }
    Ok(all)
}

/// From whom and for whom, and what stands behind: `47810 > all 0120`.
///
/// # Errors
/// `Unread` where the words are no such.
pub(crate) fn from_and_to(words: &str) -> Result<(Mac, Target, &str), Stop> {
    let (from, rest) = two_words(words);
    let Some(rest) = rest.strip_prefix("> ") else {
        return Err(Stop::Unread(Part::Asked));
    };
    let (to, octets) = two_words(rest);
    Ok((mac(from)?, target(to)?, octets))
}

/// Appends an address of BACnet/IP.
fn push_port(octets: [u8; 6], out: &mut String) -> Result<(), AllocError> {
    let [a, b, c, d, high, low] = octets;
    if [a, b, c, d] != [127, 0, 0, 1] {
        write!(out, "{a}.{b}.{c}.{d}:")?;
    }
    write!(out, "{}", u16::from_be_bytes([high, low]))
}

/// Appends an address.
///
/// # Errors
/// Want of memory.
pub(crate) fn push_mac(mac: Mac, out: &mut String) -> Result<(), AllocError> {
    match mac {
        Mac::One(octet) => write!(out, "{octet}"),
        Mac::Six(octets) => push_port(octets, out),
    }
}

/// Appends an address, or `all`.
///
/// # Errors
/// Want of memory.
pub(crate) fn push_target(to: Target, out: &mut String) -> Result<(), AllocError> {
    match to {
        Target::All => out.push_str("all"),
        Target::One(mac) => push_mac(mac, out),
    }
}

/// Appends a station, `1:47810`.
///
/// # Errors
/// Want of memory.
pub(crate) fn push_station(station: Station, out: &mut String) -> Result<(), AllocError> {
    write!(out, "{}:", station.net)?;
    push_mac(station.mac, out)
}
