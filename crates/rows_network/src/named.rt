//! Octets of an NPDU in words. `nets 1 1000..1255` is an I-Am-Router-To-Network that names these networks (6.4.2).

use sheets::{Part, Stop, octets, push_octets};
use std::alloc::{AllocError, Global};
use tags::{Items, Octets};
use words::parse_number;

/// The octets of an I-Am-Router-To-Network before the networks that it names.
const ANNOUNCED: [u8; 3] = [0x01, 0x80, 0x01];

/// An announcement of at least so many octets of networks is told by the runs of them.
const MANY: usize = 32;

/// Appends the networks of `1000..1255`, or of one number.
fn append_nets(word: &str, all: &mut Vec<u8>) -> Result<(), Stop> {
    let (first, last) = match word.split_once("..") {
        Some(parts) => parts,
        None => (word, word),
    };
    let first: u16 = parse_number(first)?;
    let last: u16 = parse_number(last)?;
    for net in first..=last {
        all.extend_from_slice(&net.to_be_bytes())?;
    }
    Ok(())
}

/// The octets that words say.
///
/// # Errors
/// `Unread` where they say none, `Memory`.
pub(crate) fn parse_npdu(alloc: Global, words: &str) -> Result<Octets<Global>, Stop> {
    let Some(nets) = words.strip_prefix("nets ") else {
        return octets(alloc, words);
    };
    let mut all = Vec::from_slice(alloc, &ANNOUNCED)?;
    for word in nets.split(' ') {
        append_nets(word, &mut all)?;
    }
    if all.len() < MANY {
        return Err(Stop::Unread(Part::Octets));
    }
    Ok(Items::from_vec(all))
}

/// Numbers one after another.
#[derive(Clone, Copy)]
struct Run {
    first: u16,
    last: u16,
}

impl Run {
    /// Appends the run.
    fn push(self, out: &mut String) -> Result<(), AllocError> {
        let Run { first, last } = self;
        if first == last {
            return write!(out, " {first}");
        }
        write!(out, " {first}..{last}")
    }
}

/// Appends networks by their runs.
fn push_nets(first: u16, contents: &[u8], out: &mut String) -> Result<(), AllocError> {
    let mut run = Run { first, last: first };
    for pair in contents.chunks_exact(2) {
        if let [high, low] = pair {
            let net = u16::from_be_bytes([*high, *low]);
            if run.last.checked_add(1) == Some(net) {
                run.last = net;
            } else {
                run.push(out)?;
                run = Run {
                    first: net,
                    last: net,
                };
            }
        }
    }
    run.push(out)
}

/// Appends the octets of an NPDU.
///
/// # Errors
/// Want of memory.
pub(crate) fn push_npdu(octets: &[u8], out: &mut String) -> Result<(), AllocError> {
    match octets {
        [0x01, 0x80, 0x01, high, low, rest @ ..] if rest.len() >= MANY && rest.len() % 2 == 0 => {
            out.push_str("nets")?;
            push_nets(u16::from_be_bytes([*high, *low]), rest, out)
        }
        _ => push_octets(octets, out),
    }
}
