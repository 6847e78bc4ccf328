//! Octets as pairs of hexadecimal digits.

ghost use Rattle.octet_texts.specs.Pairs.{digit, pairs_of};
ghost use Rattle.std.specs.List.{join_with_byte};
ghost use Rattle.std.specs.Prelude.{◌≡◌, ◌<◌, ◌++◌, IfNone, IfOk, IfSome, OnOk, map, string_bytes};
ghost use Rattle.words.specs.HexText.{NoHex, OnlyHex, SpellsHex};

use std::alloc::{AllocError, Allocator};
use tags::Octets;
use words::{Unread, parse_hex};

/// The octets that words spell as pairs of digits of either case, with any number of spaces between the pairs and none
/// elsewhere; `None` for any other text.
pub fn read_hex<A: Allocator + Copy>(
    alloc: A,
    words: &[String],
) -> Result<Option<Octets<A>>, AllocError>
    ensures read { IfOk result (λ found. IfSome found (SpellsHex (join_with_byte 32 (map string_bytes words.now)))) }
    ensures only { IfOk result (λ found. IfSome found (OnlyHex (join_with_byte 32 (map string_bytes words.now)))) }
    ensures faulty { IfOk result (λ found. IfNone found (NoHex (join_with_byte 32 (map string_bytes words.now)))) }
{
    let text = joined(alloc, words)?;
    spelled(alloc, text.as_bytes())
}

/// The octets that a text spells as pairs of digits.
pub(crate) fn spelled<A: Allocator + Copy>(
    alloc: A,
    text: &[u8],
) -> Result<Option<Octets<A>>, AllocError>
    ensures read { IfOk result (λ found. IfSome found (SpellsHex text.now)) }
    ensures only { IfOk result (λ found. IfSome found (OnlyHex text.now)) }
    ensures faulty { IfOk result (λ found. IfNone found (NoHex text.now)) }
{
    match parse_hex(alloc, text) {
        Ok(octets) => Ok(Some(octets)),
        Err(Unread::Memory) => Err(AllocError),
        Err(_) => Ok(None),
    }
}

/// The words with a space between each and the next.
pub(crate) fn joined<A: Allocator>(alloc: A, words: &[String]) -> Result<String<A>, AllocError>
    ensures { IfOk result (λ text. string_bytes text ≡ join_with_byte 32 (map string_bytes words.now)) }
{
    let mut text = String::new(alloc);
    let mut left = words;
    while let [word, rest @ ..] = left {
        text.push_str(word.as_str())?;
        if !rest.is_empty() {
            text.push(' ')?;
        }
        left = rest;
    }
    Ok(text)
}

/// Appends octets as two upper-case digits each, with single spaces between them.
pub fn push_pairs<A: Allocator>(octets: &[u8], out: &mut Vec<u8, A>) -> Result<(), AllocError>
    ensures { OnOk result (out.new.items ≡ out.old.items ++ pairs_of octets.now) }
{
    let mut left = octets;
    while let [octet, rest @ ..] = left {
        out.push(digit_of(*octet >> 4))?;
        out.push(digit_of(*octet & 15))?;
        if !rest.is_empty() {
            out.push(b' ')?;
        }
        left = rest;
    }
    Ok(())
}

/// A hexadecimal digit, from A on in upper case.
fn digit_of(number: u8) -> u8
    requires { number < 16 }
    ensures { result ≡ digit number }
{
    if number < 10 {
        48 + number
    } else {
        55 + number
    }
}
