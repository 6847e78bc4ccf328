//! Numbers, and octets as pairs of hexadecimal digits.

ghost use Rattle.std.specs.Prelude.{◌≡◌, ◌⊎◌, Ok, IfOk, IfErr};
ghost use Rattle.hex.specs.Hex.{decode_of};
ghost use Rattle.words.specs.Digits.{IsNumber, NoNumber, SaysOctets, NoOctets, NoPairs};
ghost use Rattle.words.specs.Says.{SaysSigned, SaysUnsigned};
ghost use Rattle.words.specs.Unsaid.{NoSigned, NoUnsigned};

use crate::unread::Unread;
use hex::FromHexError;
use std::alloc::Allocator;
use std::str::FromStr;
use tags::{Items, Octets};

/// The number that a word says in decimal digits, behind a `-` where its type has one.
///
/// # Errors
/// `Number` for any other word, and for a number out of the type's range.
pub fn parse_number<N: FromStr>(word: &str) -> Result<N, Unread>
where
    N::Err: Drop,
    ensures read { IfOk result (IsNumber N.from_str_gives word.now) }
    ensures refused { IfErr result (λ e. (e ≡ Unread.Number) × NoNumber N.from_str_gives word.now) }
{
    if word.starts_with('+') {
        return Err(Unread::Number);
    }
    match word.parse::<N>() {
        Ok(number) => Ok(number),
        Err(_) => Err(Unread::Number),
    }
}

/// A number of 8 bits.
pub(crate) fn parse_u8(word: &str) -> Result<u8, Unread>
    ensures read { IfOk result (SaysUnsigned 8 word.now) }
    ensures refused { IfErr result (λ e. (e ≡ Unread.Number) × NoUnsigned 8 word.now) }
{
    parse_number(word)
}

/// The number of 16 bits that a word says in decimal digits.
///
/// # Errors
/// `Number` for any other word.
pub fn parse_u16(word: &str) -> Result<u16, Unread>
    ensures read { IfOk result (SaysUnsigned 16 word.now) }
    ensures refused { IfErr result (λ e. (e ≡ Unread.Number) × NoUnsigned 16 word.now) }
{
    parse_number(word)
}

/// The number of 32 bits that a word says in decimal digits.
///
/// # Errors
/// `Number` for any other word.
pub fn parse_u32(word: &str) -> Result<u32, Unread>
    ensures read { IfOk result (SaysUnsigned 32 word.now) }
    ensures refused { IfErr result (λ e. (e ≡ Unread.Number) × NoUnsigned 32 word.now) }
{
    parse_number(word)
}

/// The number of 64 bits that a word says in decimal digits.
///
/// # Errors
/// `Number` for any other word.
pub fn parse_u64(word: &str) -> Result<u64, Unread>
    ensures read { IfOk result (SaysUnsigned 64 word.now) }
    ensures refused { IfErr result (λ e. (e ≡ Unread.Number) × NoUnsigned 64 word.now) }
{
    parse_number(word)
}

/// A signed number of 32 bits.
pub(crate) fn parse_i32(word: &str) -> Result<i32, Unread>
    ensures read { IfOk result (SaysSigned word.now) }
    ensures refused { IfErr result (λ e. (e ≡ Unread.Number) × NoSigned word.now) }
{
    parse_number(word)
}

/// The octets that a word spells as pairs of hexadecimal digits of either case; `-` is none.
///
/// # Errors
/// `Memory`, or `Octets` for any other word.
pub fn parse_octets<A: Allocator + Copy>(alloc: A, word: &str) -> Result<Octets<A>, Unread>
    ensures read { IfOk result (SaysOctets word.now) }
    ensures refused { IfErr result (λ e. (e ≡ Unread.Memory) ⊎ ((e ≡ Unread.Octets) × NoOctets word.now)) }
{
    match word {
        "-" => Ok(Items::new(alloc)),
        "" => Err(Unread::Octets),
        _ => decoded(alloc, word),
    }
}

/// The octets that pairs of digits spell.
fn decoded<A: Allocator + Copy>(alloc: A, word: &str) -> Result<Octets<A>, Unread>
    ensures read { IfOk result (λ octets. decode_of word.now ≡ Ok octets) }
    ensures refused { IfErr result (λ e. (e ≡ Unread.Memory) ⊎ ((e ≡ Unread.Octets) × NoPairs word.now)) }
{
    match hex::decode(alloc, word) {
        Ok(octets) => Ok(Items::from_vec(octets)),
        Err(FromHexError::OutOfMemory) => Err(Unread::Memory),
        Err(_) => Err(Unread::Octets),
    }
}
