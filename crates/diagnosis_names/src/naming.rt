//! What is printed with names for addresses.

use crate::addresses::Names;
use diagnosis_parts::LinkAddress;
use packet_choice::party_in;
use std::alloc::{AllocError, Allocator};
use std::fmt::Display;
use std::io;
use std::io::Write;

/// The most octets of an address as it is printed: a network, eight octets, and an address on a link.
const MOST: usize = 48;

/// Takes what is printed, and writes it on another writer with the names of a site for its addresses. An address at the
/// end waits for what is behind it.
#[derive(Drop)]
pub struct NamedOut<'n, W: Write + Drop, A: Allocator + Copy> {
    alloc: A,
    names: &'n Names<A>,
    out: W,
    /// What may become an address.
    begun: Vec<u8, A>,
}

impl<'n, W: Write + Drop, A: Allocator + Copy> NamedOut<'n, W, A> {
    /// What is printed goes to `out`, with these names.
    pub fn new(alloc: A, names: &'n Names<A>, out: W) -> Self {
        NamedOut {
            alloc,
            names,
            out,
            begun: Vec::new(alloc),
        }
    }

    /// Appends what has begun to a text, by its name if it is an address that has one.
    fn end_word(&mut self, text: &mut Vec<u8, A>) -> Result<(), AllocError> {
        if !append_name(self.alloc, self.names, self.begun.as_slice(), text)? {
            text.extend_from_slice(self.begun.as_slice())?;
        }
        self.begun.clear();
        Ok(())
    }
}

// It holds nothing that a contract could speak of: which name an address has isn't proved.
impl<W: Write + Drop, A: Allocator + Copy> Write for NamedOut<'_, W, A> {
    fn write(&mut self, buf: &[u8]) -> io::Result<usize> {
        let mut text = Vec::new(self.alloc);
        for octet in buf {
            if is_in_address(*octet) && self.begun.len() < MOST {
                self.begun.push(*octet)?;
            } else {
                self.end_word(&mut text)?;
                text.push(*octet)?;
            }
        }
        self.out.write_all(text.as_slice())?;
        Ok(buf.len())
    }

    fn flush(&mut self) -> io::Result<()> {
        self.out.flush()
    }
}

/// Whether an octet stands in addresses as they are printed.
fn is_in_address(octet: u8) -> bool {
    octet.is_ascii_alphanumeric() || matches!(octet, b'.' | b':' | b'@' | b'/')
}

/// Appends the name of an address, as `ahu`, or `fan@router` behind a router. Returns `false` where a word is no
/// address as it is printed, or has no name.
fn append_name<A: Allocator + Copy>(
    alloc: A,
    names: &Names<A>,
    word: &[u8],
    text: &mut Vec<u8, A>,
) -> Result<bool, AllocError> {
    if !word.contains(&b':') && !word.contains(&b'/') {
        return Ok(false);
    }
    let Ok(word) = std::str::from_utf8(word) else {
        return Ok(false);
    };
    let Some(party) = party_in(alloc, word)? else {
        return Ok(false);
    };
    match party.remote {
        None => append_link(alloc, names, party.link, text),
        Some(remote) => {
            append_known(alloc, names.behind(party), &remote, text)?;
            text.push(b'@')?;
            append_known(alloc, names.on_link(party.link), &party.link, text)?;
            Ok(true)
        }
    }
}

/// Appends the name of the station at an address on a link, if it has one.
fn append_link<A: Allocator + Copy>(
    alloc: A,
    names: &Names<A>,
    link: LinkAddress,
    text: &mut Vec<u8, A>,
) -> Result<bool, AllocError> {
    let name = names.on_link(link);
    if name.is_none() {
        return Ok(false);
    }
    append_known(alloc, name, &link, text)?;
    Ok(true)
}

/// Appends a name, or where there is none the address.
fn append_known<A: Allocator + Copy, D: Display>(
    alloc: A,
    name: Option<&str>,
    address: &D,
    text: &mut Vec<u8, A>,
) -> Result<(), AllocError> {
    match name {
        Some(name) => text.extend_from_slice(name.as_bytes()),
        None => {
            let address = format!(in alloc; "{address}")?;
            text.extend_from_slice(address.as_str().as_bytes())
        }
    }
}
