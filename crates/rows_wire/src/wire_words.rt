//! What rows say of a wire: ends of datagrams as `127.0.0.1:47810` (J.1.2), a datagram that comes, and a call that
//! fails.

use crate::wire_in_memory::WireInMemory;
use bvll::Address;
use npdu::Mac;
use std::alloc::{AllocError, Global};
use std::io;
use std::io::Write;
use words::parse_hex;

/// The four octets that a word is.
fn octets_in(word: &str) -> Option<[u8; 4]> {
    let mut octets = [0u8; 4];
    let mut count = 0usize;
    for part in word.split('.') {
        *octets.get_mut(count)? = part.parse::<u8>().ok()?;
        count = count.saturating_add(1);
    }
    if count == octets.len() {
        Some(octets)
    } else {
        None
    }
}

/// The link address that a word is.
fn mac_in(word: &str) -> Option<Mac> {
    let (ip, port) = word.split_once(':')?;
    let address = Address {
        ip: octets_in(ip)?,
        port: port.parse::<u16>().ok()?,
    };
    Some(Mac::Six(address.to_octets()))
}

/// Prints a link address of BACnet/IP.
///
/// # Errors
/// Those of writing.
pub fn print_mac<W: Write>(mac: Mac, out: &mut W) -> io::Result<()> {
    match mac {
        Mac::Six(octets) => {
            let Address { ip, port } = Address::from_octets(&octets);
            let [a, b, c, d] = ip;
            write!(out, "{a}.{b}.{c}.{d}:{port}")
        }
        Mac::One(mac) => write!(out, "{mac}"),
    }
}

/// A datagram comes: `FROM TO HEX`. Tells whether the words are that.
fn come(alloc: Global, wire: &mut WireInMemory, words: &str) -> Result<bool, AllocError> {
    let (from, rest) = words.split_once(' ').unwrap_or((words, ""));
    let (to, hex) = rest.split_once(' ').unwrap_or((rest, ""));
    let (Some(from), Some(to), Ok(octets)) = (
        mac_in(from),
        mac_in(to),
        parse_hex(alloc, hex.as_bytes()),
    ) else {
        return Ok(false);
    };
    wire.come(from, to, octets.as_slice())?;
    Ok(true)
}

/// A call fails: `N`. Tells whether the word is that.
fn fail(wire: &mut WireInMemory, word: &str) -> bool {
    match word.parse::<u64>() {
        Ok(number) => {
            wire.fail_at(number);
            true
        }
        Err(_) => false,
    }
}

/// Takes a line that tells of the wire, `come FROM TO HEX` or `fail N`, or one that tells nothing. Tells whether the
/// line is one of these.
///
/// # Errors
/// Want of memory.
pub fn take_word(alloc: Global, wire: &mut WireInMemory, line: &str) -> Result<bool, AllocError> {
    let (word, words) = line.split_once(' ').unwrap_or((line, ""));
    match word {
        "" | "#" | "open" => Ok(true),
        "come" => come(alloc, wire, words),
        "fail" => Ok(fail(wire, words)),
        _ => Ok(false),
    }
}
