//! The first place where words stop being a value.

use crate::expected::Expected;
use crate::fault::Fault;
use crate::request::object;
use crate::word::{Word, Words};
use names::{binary_values, number_in};

/// The first fault of a value.
pub(crate) fn value<'a>(words: &mut Words<'a>) -> Result<(), Fault<'a>> {
    let kind = words.next(Expected::Value)?;
    if kind.begins_with(b'"') {
        return quoted(kind);
    }
    match kind.text() {
        "null" | "active" | "inactive" => Ok(()),
        "bool" => flag(words),
        "unsigned" => number(words.next(UNSIGNED)?, UNSIGNED),
        "enum" => enumerated(words),
        "signed" => signed(words),
        "object" => object(words.next(OBJECT)?),
        "bits" => bits(words),
        "other" => other(words),
        "built" => built(words),
        "text" => text(words),
        _ => text_of_set(kind, words),
    }
}

/// Numbers of 32 bits.
const UNSIGNED: Expected = Expected::Number {
    kind: "a number",
    least: 0,
    greatest: 4_294_967_295,
};

/// Signed numbers of 32 bits.
const SIGNED: Expected = Expected::Number {
    kind: "a number",
    least: -2_147_483_648,
    greatest: 2_147_483_647,
};

/// Numbers of a character set (20.2.9).
const SET: Expected = Expected::Number {
    kind: "a character set",
    least: 0,
    greatest: 255,
};

/// Numbers of unused bits (20.2.10).
const UNUSED_BITS: Expected = Expected::Number {
    kind: "a number of unused bits",
    least: 0,
    greatest: 7,
};

/// Objects.
pub(crate) const OBJECT: Expected = Expected::Phrase("an object, as integer-value,1 or 45:1");

/// Octets.
const OCTETS: Expected = Expected::Phrase("pairs of hexadecimal digits, or -");

/// Tags that `other` has.
const TAG: Expected = Expected::Phrase("an application tag, 4 to 6, 10, 11 or 13 to 254");

/// The first fault of a number within a range without negative numbers.
pub(crate) fn number<'a>(word: Word<'a>, expected: Expected) -> Result<(), Fault<'a>> {
    let Expected::Number {
        least,
        greatest,
        ..
    } = expected
    else {
        return Err(word.fault(expected));
    };
    let least = u64::try_from(least).unwrap_or(0);
    match words::parse_u64(word.text()) {
        Ok(number) if least <= number && number <= greatest => Ok(()),
        _ => Err(word.fault(expected)),
    }
}

fn signed<'a>(words: &mut Words<'a>) -> Result<(), Fault<'a>> {
    let word = words.next(SIGNED)?;
    match words::parse_number::<i32>(word.text()) {
        Ok(_) => Ok(()),
        Err(_) => Err(word.fault(SIGNED)),
    }
}

fn flag<'a>(words: &mut Words<'a>) -> Result<(), Fault<'a>> {
    let word = words.next(Expected::Flag)?;
    match word.text() {
        "true" | "false" => Ok(()),
        _ => Err(word.fault(Expected::Flag)),
    }
}

/// The first fault of the number of an Enumerated, or of the name of a state.
fn enumerated<'a>(words: &mut Words<'a>) -> Result<(), Fault<'a>> {
    let word = words.next(Expected::Enumerated)?;
    if number_in(binary_values(), word.text()).is_some() {
        return Ok(());
    }
    match number(word, UNSIGNED) {
        Ok(()) => Ok(()),
        Err(_) => Err(word.fault(Expected::Enumerated)),
    }
}

/// The first fault of the octets of a text, which may stand in quotes.
fn text<'a>(words: &mut Words<'a>) -> Result<(), Fault<'a>> {
    let word = words.next(OCTETS)?;
    if word.begins_with(b'"') {
        return quoted(word);
    }
    octets_in(word)
}

/// The first fault of unused bits and octets.
fn bits<'a>(words: &mut Words<'a>) -> Result<(), Fault<'a>> {
    let unused = words.next(UNUSED_BITS)?;
    number(unused, UNUSED_BITS)?;
    let word = octets_word(words)?;
    if word.text() == "-" && words::parse_u64(unused.text()) != Ok(0) {
        return Err(unused.fault(Expected::Phrase("0 unused bits, as there are no octets")));
    }
    Ok(())
}

/// The first fault of a tag and the contents behind it.
fn other<'a>(words: &mut Words<'a>) -> Result<(), Fault<'a>> {
    let tag = words.next(TAG)?;
    match words::parse_u64(tag.text()) {
        Ok(4..=6 | 10 | 11 | 13..=254) => octets(words),
        _ => Err(tag.fault(TAG)),
    }
}

/// The first fault of the octets of an element; whether they are one, the words don't tell.
fn built<'a>(words: &mut Words<'a>) -> Result<(), Fault<'a>> {
    let word = octets_word(words)?;
    words.element = Some(word);
    Ok(())
}

/// The first fault of a text whose kind names its character set, as `text/4`.
fn text_of_set<'a>(kind: Word<'a>, words: &mut Words<'a>) -> Result<(), Fault<'a>> {
    match kind.cut(b'/') {
        Some((front, set)) if front.text() == "text" => {
            number(set, SET)?;
            octets(words)
        }
        _ => Err(kind.fault(Expected::Value)),
    }
}

fn octets<'a>(words: &mut Words<'a>) -> Result<(), Fault<'a>> {
    octets_word(words)?;
    Ok(())
}

/// A word of octets.
fn octets_word<'a>(words: &mut Words<'a>) -> Result<Word<'a>, Fault<'a>> {
    let word = words.next(OCTETS)?;
    octets_in(word)?;
    Ok(word)
}

/// The first fault of a word of octets.
fn octets_in<'a>(word: Word<'a>) -> Result<(), Fault<'a>> {
    if word.text() != "-" && !is_hex(word) {
        return Err(word.fault(OCTETS));
    }
    Ok(())
}

/// Whether a word is pairs of hexadecimal digits, one pair at least.
pub(crate) fn is_hex(word: Word<'_>) -> bool {
    let octets = word.octets;
    !octets.is_empty()
        && octets.len() % 2 == 0
        && octets.iter().all(|octet| octet.is_ascii_hexdigit())
}

/// Where a text in quotes is read to.
#[derive(Clone, Copy)]
enum Within {
    /// Between its quotes.
    Text,
    /// Behind a backslash.
    Escape,
    /// Before so many digits of an octet.
    Digits(u8),
    /// Behind its end.
    End,
}

/// The first fault of a text in quotes.
fn quoted<'a>(word: Word<'a>) -> Result<(), Fault<'a>> {
    let octets = word.octets;
    let mut within = Within::Text;
    for (index, octet) in octets.iter().enumerate().skip(1) {
        within = match passed(within, *octet) {
            Ok(next) => next,
            Err(expected) => {
                let found = Word {
                    octets: &octets[index..],
                    at: word.at.saturating_add(index),
                };
                return Err(found.fault(expected));
            }
        };
    }
    match within {
        Within::End => Ok(()),
        Within::Text | Within::Escape | Within::Digits(_) => {
            let found = Word {
                octets: b"",
                at: word.end(),
            };
            Err(found.fault(Expected::Phrase("a closing quote")))
        }
    }
}

/// Where a text is read to behind an octet, or what is expected in its place.
fn passed(within: Within, octet: u8) -> Result<Within, Expected> {
    match within {
        Within::Text => Ok(match octet {
            b'"' => Within::End,
            b'\\' => Within::Escape,
            _ => Within::Text,
        }),
        Within::Escape => match octet {
            b'"' | b'\\' => Ok(Within::Text),
            b'x' => Ok(Within::Digits(2)),
            _ => Err(Expected::Phrase("an escape, \\\", \\\\ or \\xHH")),
        },
        Within::Digits(left) if octet.is_ascii_hexdigit() => Ok(match left {
            2 => Within::Digits(1),
            _ => Within::Text,
        }),
        Within::Digits(_) => Err(Expected::Phrase("two hexadecimal digits")),
        Within::End => Err(Expected::Phrase("a space after the closing quote")),
    }
}
