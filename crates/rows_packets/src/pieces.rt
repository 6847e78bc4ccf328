//! The octets of a file, in words: octets, or names of pieces that `piece NAME OCTETS OCTETS` rows have given.

use sheets::{Row, Stop, octets, two_words};
use std::alloc::Global;

/// The octets that words stand for, one behind the other.
///
/// # Errors
/// `Unread` where a word is neither a piece's name nor octets, `Memory`.
pub fn octets_of(alloc: Global, rows: &[Row<'_>], words: &str) -> Result<Vec<u8>, Stop> {
    let mut all = Vec::new(alloc);
    for word in words.split(' ') {
        match piece_of(rows, word) {
            Some(words) => push_all(alloc, words, &mut all)?,
            None => push_all(alloc, word, &mut all)?,
        }
    }
    Ok(all)
}

/// The words of the piece of this name.
fn piece_of<'a>(rows: &[Row<'a>], name: &str) -> Option<&'a str> {
    for row in rows {
        if let Some(piece) = row.asked.strip_prefix("piece ") {
            let (own_name, words) = two_words(piece);
            if own_name == name {
                return Some(words);
            }
        }
    }
    None
}

/// Appends the octets that words are.
fn push_all(alloc: Global, words: &str, all: &mut Vec<u8>) -> Result<(), Stop> {
    for word in words.split(' ') {
        all.extend_from_slice(octets(alloc, word)?.as_slice())?;
    }
    Ok(())
}
