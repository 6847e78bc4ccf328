//! The line of a text at an octet.

use std::io;
use std::io::Write;

/// A line of a text, and a place in it.
#[derive(Clone, Copy, Debug)]
pub struct Excerpt<'a> {
    /// The number of the line, the first one being 1.
    pub number: usize,
    /// The line without its end.
    pub line: &'a [u8],
    /// The index of an octet of the line, or its length.
    pub at: usize,
}

impl Excerpt<'_> {
    /// The number of the character at the octet, the first one of the line being 1.
    pub fn column(&self) -> usize {
        let mut column = 1usize;
        for (index, octet) in self.line.iter().enumerate() {
            if index < self.at && begins_character(*octet) {
                column = column.saturating_add(1);
            }
        }
        column
    }

    /// Writes the line, and what leads to the octet under it: a space for each character, and tabs as they stand.
    ///
    /// # Errors
    /// A failed write.
    pub(crate) fn write<W: Write>(&self, out: &mut W) -> io::Result<()> {
        let text_octets = match std::str::from_utf8(self.line) {
            Ok(text) => text.len(),
            Err(error) => error.valid_up_to(),
        };
        for (index, octet) in self.line.iter().enumerate() {
            out.write_all(&[shown(*octet, index < text_octets)])?;
        }
        out.write_all(b"\n")?;
        for (index, octet) in self.line.iter().enumerate() {
            if index < self.at && begins_character(*octet) {
                out.write_all(if *octet == b'\t' { b"\t" } else { b" " })?;
            }
        }
        Ok(())
    }
}

/// The line of a text at an octet of it, or the last one where the text is shorter.
pub fn excerpt_at(text: &[u8], at: usize) -> Excerpt<'_> {
    let mut begin = 0usize;
    let mut last = Excerpt {
        number: 1,
        line: b"",
        at: 0,
    };
    for (index, line) in text.split(|octet| *octet == b'\n').enumerate() {
        let end = begin.saturating_add(line.len());
        last = Excerpt {
            number: index.saturating_add(1),
            line: without_return(line),
            at: at.saturating_sub(begin).min(line.len()),
        };
        if at <= end {
            break;
        }
        begin = end.saturating_add(1);
    }
    last
}

/// A line without the carriage return that it may end with.
fn without_return(line: &[u8]) -> &[u8] {
    match line {
        [front @ .., b'\r'] => front,
        _ => line,
    }
}

/// An octet as a terminal may get it: a control character is written as `?`, and so is what is no UTF-8.
fn shown(octet: u8, is_text: bool) -> u8 {
    let is_control = octet < 0x20 && octet != b'\t' || octet == 0x7F;
    if is_control || (octet >= 0x80 && !is_text) {
        b'?'
    } else {
        octet
    }
}

/// Whether an octet is the first one of a character in UTF-8.
fn begins_character(octet: u8) -> bool {
    octet < 0x80 || octet >= 0xC0
}
