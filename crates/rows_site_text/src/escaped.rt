//! Texts of several lines in one row: `\n` for a line feed, `\r` for a carriage return, and `\!` for an octet that no
//! UTF-8 has.

use sheets::{Part, Stop};

/// Appends a text with its escapes resolved.
pub(crate) fn push_unescaped(words: &str, out: &mut Vec<u8>) -> Result<(), Stop> {
    let mut is_escape = false;
    for octet in words.as_bytes() {
        if is_escape {
            out.push(octet_of(*octet)?)?;
            is_escape = false;
        } else if *octet == b'\\' {
            is_escape = true;
        } else {
            out.push(*octet)?;
        }
    }
    if is_escape {
        return Err(Stop::Unread(Part::Asked));
    }
    Ok(())
}

/// What stands for an escape.
fn octet_of(letter: u8) -> Result<u8, Stop> {
    match letter {
        b'n' => Ok(b'\n'),
        b'r' => Ok(b'\r'),
        b'!' => Ok(0xFF),
        _ => Err(Stop::Unread(Part::Asked)),
    }
}
