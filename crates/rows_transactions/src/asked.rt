//! What a row asks and answers, in words.

use sheets::{Part, Stop, number};
use std::alloc::{AllocError, Global};

/// The numbers before a colon, and the words behind it: `1988 475: tick 0/4`.
///
/// # Errors
/// `Unread` where there is no colon.
pub(crate) fn head_and_words(asked: &str) -> Result<(&str, &str), Stop> {
    match asked.split_once(": ") {
        Some(parts) => Ok(parts),
        None => Err(Stop::Unread(Part::Asked)),
    }
}

/// A length.
///
/// # Errors
/// `Unread` where the word is no number.
pub(crate) fn length(word: &str) -> Result<usize, Stop> {
    Ok(number(word)? as usize)
}

/// Octets of which neighbours differ: 0, 1 and so on, modulo 251.
///
/// # Errors
/// Want of memory.
pub(crate) fn body(alloc: Global, length: usize) -> Result<Vec<u8>, AllocError> {
    let mut body = Vec::new(alloc);
    for at in 0..length {
        body.push((at % 251) as u8)?;
    }
    Ok(body)
}
