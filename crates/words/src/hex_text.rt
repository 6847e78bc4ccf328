//! Octets as pairs of hexadecimal digits, with or without spaces between the pairs.

ghost use Rattle.std.specs.Prelude.{◌≡◌, ◌⊎◌, IfErr, IfNone, IfOk, IfSome};
ghost use Rattle.words.specs.HexText.{BeginsWithoutSpace, HasSpacesBefore, TakesNoPair, TakesPair};
ghost use Rattle.words.specs.HexText.{NoHex, OnlyHex, SpellsHex};

use crate::unread::Unread;
use std::alloc::{AllocError, Allocator};
use tags::{Items, Octets};

/// The octets that a text spells as pairs of digits of either case, one pair at least, with any
/// number of spaces between the pairs and none elsewhere.
///
/// # Errors
/// `Memory`, or `Octets` for any other text.
pub fn parse_hex<A: Allocator + Copy>(alloc: A, text: &[u8]) -> Result<Octets<A>, Unread>
    ensures read { IfOk result (SpellsHex text.now) }
    ensures only { IfOk result (OnlyHex text.now) }
    ensures refused { IfErr result (λ e. (e ≡ Unread.Memory) ⊎ ((e ≡ Unread.Octets) × NoHex text.now)) }
{
    match octets_of(alloc, text)? {
        Some(octets) => Ok(Items::from_vec(octets)),
        None => Err(Unread::Octets),
    }
}

/// The octets that a text spells.
#[tactic(auto, using(crate::proofs::HexLaws::text_laws))]
fn octets_of<A: Allocator>(alloc: A, text: &[u8]) -> Result<Option<Vec<u8, A>>, AllocError>
    ensures read { IfOk result (λ found. IfSome found (λ octets. SpellsHex text.now octets.items)) }
    ensures only { IfOk result (λ found. IfSome found (λ octets. OnlyHex text.now octets.items)) }
    ensures faulty { IfOk result (λ found. IfNone found (NoHex text.now)) }
{
    let mut octets = Vec::new(alloc);
    let mut rest = text;
    while let Some((octet, after)) = front_pair(rest) {
        octets.push(octet)?;
        if after.is_empty() {
            return Ok(Some(octets));
        }
        rest = without_spaces(after);
    }
    Ok(None)
}

/// The octet that two digits at the front spell, and what follows them.
#[tactic(auto, using(crate::proofs::HexLaws::pair_laws))]
fn front_pair(text: &[u8]) -> Option<(u8, &[u8])>
    ensures taken { IfSome result (λ found. TakesPair text.now found.0 found.1.now) }
    ensures none { IfNone result (TakesNoPair text.now) }
{
    if text.len() < 2 {
        return None;
    }
    let (pair, after) = text.split_at(2);
    let mut octet = [0u8];
    match hex::decode_to_slice(pair, &mut octet) {
        Ok(()) => Some((octet[0], after)),
        Err(_) => None,
    }
}

/// The text from its first octet on that is no space.
fn without_spaces(text: &[u8]) -> &[u8]
    ensures spaces { HasSpacesBefore text.now result.now }
    ensures all { BeginsWithoutSpace result.now }
{
    let mut rest = text;
    while let [first, after @ ..] = rest {
        if *first != b' ' {
            break;
        }
        rest = after;
    }
    rest
}
