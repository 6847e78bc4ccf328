//! Values: `null`, `bool true`, `unsigned 7`, `signed -7`, `enum 1` or `enum active`, `active`, `object 5:1`,
//! `text 6F6E`, `text/4 0041`, `bits 4 F0`, `other 10 7C0C1601`, `built 0901`; several are parted by `, `.

ghost use Rattle.std.specs.Prelude.{◌≡◌, ◌⊎◌, IfOk, IfErr, option_map};
ghost use Rattle.tags.specs.Value.{IsSound};
ghost use Rattle.words.specs.Says.{SaysBool, SaysEnumerated, SaysNumbered, SaysSet, SaysState, SaysValue};
ghost use Rattle.words.specs.Requests.{SaysGiven, SaysValues};
ghost use Rattle.words.specs.NoRequests.{NoGiven, NoValues};
ghost use Rattle.words.specs.Unsaid.{NoBool, NoEnumerated, NoNumbered, NoSet, NoState, NoValue, SaysUnsound};

use crate::octets::{parse_i32, parse_octets, parse_u8, parse_u32};
use crate::parts::{cut_at, cut_first};
use crate::reference::parse_object;
use crate::unread::Unread;
use names::{binary_values, number_in};
use primitives::Values;
use std::alloc::Allocator;
use tags::{Items, Octets, Value};

/// The value that words say, which has a spelling.
///
/// # Errors
/// `Memory`, `Sound` for a value without a spelling, or what is missing of the words.
pub fn parse_value<A: Allocator + Copy>(alloc: A, words: &str) -> Result<Value<A>, Unread>
    ensures read { IfOk result (SaysValue words.now) }
    ensures sound { IfOk result IsSound }
    ensures refused { IfErr result (λ e. (e ≡ Unread.Memory) ⊎ NoValue A words.now ⊎
        ((e ≡ Unread.Sound) × SaysUnsound A words.now)) }
{
    let value = any_value(alloc, words)?;
    if !value.is_sound() {
        return Err(Unread::Sound);
    }
    Ok(value)
}

/// The values that words parted by `, ` say, none where there is no word. They need not have a
/// spelling.
///
/// # Errors
/// `Memory`, or what is missing of the words.
#[tactic(auto, using(crate::proofs::Lists::values_laws))]
pub fn parse_values<A: Allocator + Copy>(alloc: A, words: &str) -> Result<Values<A>, Unread>
    ensures read { IfOk result (SaysValues words.now) }
    ensures refused { IfErr result (λ e. (e ≡ Unread.Memory) ⊎ NoValues A words.now) }
{
    if words.is_empty() {
        return Ok(Items::new(alloc));
    }
    given_values(alloc, Some(words))
}

/// The values that words say, if there are words.
#[tactic(auto, using(crate::proofs::Lists::list_laws))]
pub(crate) fn given_values<A: Allocator + Copy>(
    alloc: A,
    words: Option<&str>,
) -> Result<Values<A>, Unread>
    ensures read { IfOk result (SaysGiven (option_map (λ w. w.now) words.entry)) }
    ensures refused { IfErr result (λ e. (e ≡ Unread.Memory) ⊎ NoGiven A (option_map (λ w. w.now) words.entry)) }
{
    let mut all = Items::new(alloc);
    let mut rest = words;
    while let Some(here) = rest {
        let (one, others) = cut_first(here, ", ");
        all.push(any_value(alloc, one)?)?;
        rest = others;
    }
    Ok(all)
}

/// The value that words say, with a spelling or without.
#[tactic(auto, using(crate::proofs::Unsaid::no_text, crate::proofs::Unsaid::no_word))]
fn any_value<A: Allocator + Copy>(alloc: A, words: &str) -> Result<Value<A>, Unread>
    ensures read { IfOk result (SaysValue words.now) }
    ensures refused { IfErr result (λ e. (e ≡ Unread.Memory) ⊎ NoValue A words.now) }
{
    let Some((kind, rest)) = cut_at(words, ' ') else {
        return match words {
            "null" => Ok(Value::Null),
            _ => Ok(Value::Enum(state(words)?)),
        };
    };
    match kind {
        "bool" => Ok(Value::Bool(flag(rest)?)),
        "unsigned" => Ok(Value::Unsigned(parse_u32(rest)?)),
        "signed" => Ok(Value::Signed(parse_i32(rest)?)),
        "enum" => Ok(Value::Enum(enumerated(rest)?)),
        "object" => Ok(Value::Object(parse_object(rest)?)),
        "bits" => {
            let (unused, octets) = numbered(alloc, rest)?;
            Ok(Value::Bits { unused, octets })
        }
        "other" => {
            let (tag, octets) = numbered(alloc, rest)?;
            Ok(Value::Other { tag, octets })
        }
        "built" => Ok(Value::Built(parse_octets(alloc, rest)?)),
        _ => {
            let set = set_of(kind)?;
            let octets = parse_octets(alloc, rest)?;
            Ok(Value::Text { set, octets })
        }
    }
}

/// A Boolean.
fn flag(word: &str) -> Result<bool, Unread>
    ensures read { IfOk result (SaysBool word.now) }
    ensures refused { IfErr result (λ e. NoBool word.now) }
{
    match word {
        "true" => Ok(true),
        "false" => Ok(false),
        _ => Err(Unread::Value),
    }
}

/// The number of a state of a binary value, as `active`.
fn state(word: &str) -> Result<u32, Unread>
    ensures read { IfOk result (SaysState word.now) }
    ensures refused { IfErr result (λ e. NoState word.now) }
{
    match number_in(binary_values(), word) {
        Some(state) => Ok(state),
        None => Err(Unread::Value),
    }
}

/// The number of an Enumerated, which a word says by that or as a state of a binary value.
#[tactic(auto, using(crate::proofs::Unsaid::enumerated_laws))]
fn enumerated(word: &str) -> Result<u32, Unread>
    ensures read { IfOk result (SaysEnumerated word.now) }
    ensures refused { IfErr result (λ e. NoEnumerated word.now) }
{
    match state(word) {
        Ok(state) => Ok(state),
        Err(_) => parse_u32(word),
    }
}

/// The set that stands behind `text/`, or set 0 for `text`.
fn set_of(kind: &str) -> Result<u8, Unread>
    ensures read { IfOk result (SaysSet kind.now) }
    ensures refused { IfErr result (λ e. NoSet kind.now) }
{
    match cut_at(kind, '/') {
        Some(("text", set)) => parse_u8(set),
        None if kind == "text" => Ok(0),
        _ => Err(Unread::Value),
    }
}

/// The unused bits of a Bit String or the number of a tag, and the octets behind it.
#[tactic(auto, using(crate::proofs::Unsaid::no_number, crate::proofs::Unsaid::no_octets))]
fn numbered<A: Allocator + Copy>(alloc: A, words: &str) -> Result<(u8, Octets<A>), Unread>
    ensures read { IfOk result (λ x. SaysNumbered words.now x.0 x.1) }
    ensures refused { IfErr result (λ e. (e ≡ Unread.Memory) ⊎ NoNumbered words.now) }
{
    let Some((number, word)) = cut_at(words, ' ') else {
        return Err(Unread::Value);
    };
    Ok((parse_u8(number)?, parse_octets(alloc, word)?))
}
