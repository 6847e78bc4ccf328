//! Numbers and octets in words.

use crate::stop::{Part, Stop};
use hex::FromHexError;
use std::alloc::{AllocError, Allocator, Global};
use tags::{Items, Octets};
use words::parse_number;

/// How often an octet stands in a run that is written with its count.
const LONG_RUN: usize = 24;

/// A number.
///
/// # Errors
/// `Unread` where the word is none.
pub fn number(word: &str) -> Result<u32, Stop> {
    Ok(parse_number(word)?)
}

/// A number of one octet.
///
/// # Errors
/// `Unread` where the word is none.
pub fn small(word: &str) -> Result<u8, Stop> {
    Ok(parse_number(word)?)
}

/// The first number and the last one of a word, each 0 to 255: `1..63`, or one alone. Which is the
/// greater is not looked at.
///
/// # Errors
/// `Unread` where they are no numbers of an octet.
pub fn first_and_last(word: &str) -> Result<(u8, u8), Stop> {
    let (first, last) = match word.split_once("..") {
        Some(parts) => parts,
        None => (word, word),
    };
    Ok((small(first)?, small(last)?))
}

/// What stands before the first space, and behind it.
pub fn two_words(text: &str) -> (&str, &str) {
    match text.split_once(' ') {
        Some(words) => words,
        None => (text, ""),
    }
}

/// Octets as pairs of hexadecimal digits, `-` for none. `FF*129` is an octet that stands as often,
/// and `65FD+61*253` are octets with others behind them.
///
/// # Errors
/// `Unread` where the word is no such text, `Memory`.
pub fn octets<A: Allocator + Copy>(alloc: A, word: &str) -> Result<Octets<A>, Stop> {
    let mut all = Vec::new(alloc);
    if word == "-" {
        return Ok(Items::from_vec(all));
    }
    for part in word.split('+') {
        append_part(part, &mut all)?;
    }
    Ok(Items::from_vec(all))
}

/// Appends octets, or an octet as often as its count says.
fn append_part<A: Allocator + Copy>(part: &str, all: &mut Vec<u8, A>) -> Result<(), Stop> {
    let (digits, count) = match part.split_once('*') {
        Some((digits, count)) => (digits, number(count)?),
        None => (part, 1),
    };
    let decoded = match hex::decode(*all.allocator(), digits) {
        Ok(decoded) => decoded,
        Err(FromHexError::OutOfMemory) => return Err(Stop::Memory),
        Err(_) => return Err(Stop::Unread(Part::Octets)),
    };
    for _ in 0..count {
        all.extend_from_slice(decoded.as_slice())?;
    }
    Ok(())
}

/// An octet, and how often it stands.
#[derive(Clone, Copy)]
struct Run {
    octet: u8,
    count: usize,
}

/// What stands before the next run: before a long one, and before a short one.
type Marks = (&'static str, &'static str);

impl Run {
    /// Appends the run, and answers what stands before the next one.
    fn push(self, marks: Marks, out: &mut String) -> Result<Marks, AllocError> {
        let Run { octet, count } = self;
        if count >= LONG_RUN {
            write!(out, "{}{octet:02X}*{count}", marks.0)?;
            return Ok(("+", "+"));
        }
        if count > 0 {
            out.push_str(marks.1)?;
        }
        for _ in 0..count {
            write!(out, "{octet:02X}")?;
        }
        Ok(("+", if count > 0 { "" } else { marks.1 }))
    }
}

/// Appends octets as pairs of hexadecimal digits, `-` for none, and an octet that stands 24 times
/// and more with its count.
///
/// # Errors
/// Want of memory.
pub fn push_octets(octets: &[u8], out: &mut String) -> Result<(), AllocError> {
    let Some(first) = octets.first() else {
        return out.push('-');
    };
    let mut marks = ("", "");
    let mut run = Run {
        octet: *first,
        count: 0,
    };
    for octet in octets {
        if run.octet != *octet {
            marks = run.push(marks, out)?;
            run = Run {
                octet: *octet,
                count: 0,
            };
        }
        run.count = run.count.saturating_add(1);
    }
    run.push(marks, out)?;
    Ok(())
}

/// Octets in words.
///
/// # Errors
/// Want of memory.
pub fn octets_in_words(alloc: Global, octets: &[u8]) -> Result<String, AllocError> {
    let mut out = String::new(alloc);
    push_octets(octets, &mut out)?;
    Ok(out)
}
