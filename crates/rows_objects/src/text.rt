//! Words of a row, as the libraries read and print them.

use sheets::{Stop, octets, two_words};
use std::alloc::Global;
use words::Hex;

/// A text in which each word such as `FF*129` is written out: an octet that stands as often.
pub(crate) fn expanded(alloc: Global, text: &str) -> Result<String, Stop> {
    let mut out = String::new(alloc);
    for (at, word) in text.split(' ').enumerate() {
        if at > 0 {
            out.push(' ')?;
        }
        push_word(alloc, word, &mut out)?;
    }
    Ok(out)
}

/// Appends a word, written out.
fn push_word(alloc: Global, word: &str, out: &mut String) -> Result<(), Stop> {
    if word.split_once('*').is_none() {
        out.push_str(word)?;
        return Ok(());
    }
    let octets = octets(alloc, word)?;
    write!(out, "{}", Hex(octets.as_slice()))?;
    Ok(())
}

/// Whether words say a reply.
pub(crate) fn is_reply(words: &str) -> bool {
    let (verb, rest) = two_words(words);
    match verb {
        "values" | "done" | "error" => true,
        "many" => rest.is_empty() || rest.starts_with('['),
        _ => false,
    }
}
