//! Replies: `done`, `error 2 40`, `error 2 40 at 5:1 77`, `values enum 1, null`,
//! `many [5:1 85 = enum 1; 87/17 ! 2 42]`.

ghost use Rattle.std.specs.Prelude.{◌≡◌, ◌⊎◌, ◌++◌, IfOk, IfErr, None, option_map};
ghost use Rattle.words.specs.Replies.{IsBracketed, NoBracketed, NoBrackets, NoEachResult, NoError, NoErrorReply};
ghost use Rattle.words.specs.Replies.{NoKind, NoNamedError, NoObjects, NoRefusal, NoReply, NoResult, NoResults};
ghost use Rattle.words.specs.Replies.{NoValuesRead, SaysBracketed, SaysEachResult, SaysError, SaysErrorReply, SaysKind};
ghost use Rattle.words.specs.Replies.{SaysNamedError, SaysObjects, SaysRefusal, SaysReply, SaysResult, SaysResults};
ghost use Rattle.words.specs.Replies.{SaysValuesRead};

use crate::octets::parse_u32;
use crate::parts::{cut_at, cut_first};
use crate::reference::{parse_object, parse_reference};
use crate::unread::Unread;
use crate::value::{given_values, parse_values};
use primitives::{
    ErrorClass, ErrorCode, ObjectResults, PropertyReference, PropertyResult, Reply, Values,
};
use std::alloc::Allocator;
use tags::Items;

/// The reply that words say, with a spelling or without.
///
/// # Errors
/// `Memory`, or what is missing of the words.
#[tactic(auto, using(crate::proofs::Replies::reply_laws))]
pub fn parse_any_reply<A: Allocator + Copy>(alloc: A, words: &str) -> Result<Reply<A>, Unread>
    ensures read { IfOk result (SaysReply words.now) }
    ensures refused { IfErr result (λ e. (e ≡ Unread.Memory) ⊎ NoReply A words.now) }
{
    let (kind, rest) = cut_first(words, " ");
    match rest {
        Some("") => Err(Unread::Reply),
        Some(rest) => reply_behind(alloc, kind, rest),
        None => bare_reply(alloc, kind),
    }
}

/// The reply that a kind alone says.
#[tactic(auto, using(crate::proofs::Replies::bare_laws))]
fn bare_reply<A: Allocator + Copy>(alloc: A, kind: &str) -> Result<Reply<A>, Unread>
    ensures read { IfOk result (SaysKind kind.now None) }
    ensures refused { IfErr result (λ e. NoKind A kind.now None) }
{
    match kind {
        "values" => Ok(Reply::Values(Items::new(alloc))),
        "many" => Ok(Reply::Many(Items::new(alloc))),
        "done" => Ok(Reply::Done),
        _ => Err(Unread::Reply),
    }
}

/// The reply that a kind and the words behind it say.
#[tactic(auto, using(crate::proofs::Replies::kind_laws))]
fn reply_behind<A: Allocator + Copy>(alloc: A, kind: &str, words: &str) -> Result<Reply<A>, Unread>
    ensures read { IfOk result (SaysKind kind.now (Some words.now)) }
    ensures refused { IfErr result (λ e. (e ≡ Unread.Memory) ⊎ NoKind A kind.now (Some words.now)) }
{
    match kind {
        "values" => Ok(Reply::Values(given_values(alloc, Some(words))?)),
        "many" => Ok(Reply::Many(many(alloc, words)?)),
        "error" => error(words),
        _ => Err(Unread::Reply),
    }
}

/// A class and a code, as `2 40`.
#[tactic(auto, using(crate::proofs::Replies::error_laws))]
fn class_and_code(words: &str) -> Result<(ErrorClass, ErrorCode), Unread>
    ensures read { IfOk result (λ e. SaysError words.now e.0 e.1) }
    ensures refused { IfErr result (λ e. NoError words.now) }
{
    let Some((class, code)) = cut_at(words, ' ') else {
        return Err(Unread::Reply);
    };
    let class = parse_u32(class)?;
    let code = parse_u32(code)?;
    Ok((ErrorClass::from(class), ErrorCode::from(code)))
}

/// A class and a code, and the write that failed where one is named, as `2 40 at 5:1 77`.
#[tactic(auto, using(crate::proofs::Replies::at_laws))]
fn error<A: Allocator>(words: &str) -> Result<Reply<A>, Unread>
    ensures read { IfOk result (SaysErrorReply words.now) }
    ensures refused { IfErr result (λ e. NoErrorReply A words.now) }
{
    let (front, place) = cut_first(words, " at ");
    let Some(place) = place else {
        let (class, code) = class_and_code(words)?;
        return Ok(Reply::Error(class, code));
    };
    named_error(front, place)
}

/// A class and a code, and the write that failed.
#[tactic(auto, using(crate::proofs::Replies::named_laws))]
fn named_error<A: Allocator>(front: &str, place: &str) -> Result<Reply<A>, Unread>
    ensures read { IfOk result (SaysNamedError front.now place.now) }
    ensures refused { IfErr result (λ e. NoNamedError A front.now place.now) }
{
    let Some((id, word)) = cut_at(place, ' ') else {
        return Err(Unread::Reply);
    };
    let (class, code) = class_and_code(front)?;
    let object = parse_object(id)?;
    let PropertyReference { property, index } = parse_reference(word)?;
    Ok(Reply::ErrorAt {
        class,
        code,
        object,
        property,
        index,
    })
}

/// What was read of several objects, each within brackets.
#[tactic(auto, using(crate::proofs::Replies::many_laws))]
fn many<A: Allocator + Copy>(alloc: A, words: &str) -> Result<Items<ObjectResults<A>, A>, Unread>
    ensures read { IfOk result (SaysBracketed words.now) }
    ensures refused { IfErr result (λ e. (e ≡ Unread.Memory) ⊎ NoBracketed A words.now) }
{
    let inner = within_brackets(words)?;
    all_results(alloc, inner)
}

/// What was read of several objects, parted by `] [`.
#[tactic(auto, using(crate::proofs::Replies::list_laws))]
fn all_results<A: Allocator + Copy>(
    alloc: A,
    words: &str,
) -> Result<Items<ObjectResults<A>, A>, Unread>
    ensures read { IfOk result (SaysObjects words.now) }
    ensures refused { IfErr result (λ e. (e ≡ Unread.Memory) ⊎ NoObjects A words.now) }
{
    let mut all = Items::new(alloc);
    let mut rest = Some(words);
    while let Some(here) = rest {
        let (one, others) = cut_first(here, "] [");
        all.push(results(alloc, one)?)?;
        rest = others;
    }
    Ok(all)
}

/// What stands between a bracket at the front and one at the end.
#[tactic(auto, using(crate::proofs::Replies::bracket_laws))]
fn within_brackets(words: &str) -> Result<&str, Unread>
    ensures read { IfOk result (λ inner. IsBracketed words.entry.now inner.now) }
    ensures refused { IfErr result (λ e. NoBrackets words.entry.now) }
{
    let Some(rest) = words.strip_prefix('[') else {
        return Err(Unread::Reply);
    };
    match rest.strip_suffix(']') {
        Some(inner) => Ok(inner),
        None => Err(Unread::Reply),
    }
}

/// What was read of an object, as `5:1 85 = enum 1; 87/17 ! 2 42`.
#[tactic(auto, using(crate::proofs::Replies::results_laws))]
fn results<A: Allocator + Copy>(alloc: A, words: &str) -> Result<ObjectResults<A>, Unread>
    ensures read { IfOk result (SaysResults words.now) }
    ensures refused { IfErr result (λ e. (e ≡ Unread.Memory) ⊎ NoResults A words.now) }
{
    let (id, rest) = cut_first(words, " ");
    let results = each_result(alloc, rest)?;
    Ok(ObjectResults {
        object: parse_object(id)?,
        results,
    })
}

/// What was read of the properties of an object, parted by `; `, if there are words.
#[tactic(auto, using(crate::proofs::Replies::list_laws))]
fn each_result<A: Allocator + Copy>(
    alloc: A,
    words: Option<&str>,
) -> Result<Items<PropertyResult<A>, A>, Unread>
    ensures read { IfOk result (SaysEachResult (option_map (λ w. w.now) words.entry)) }
    ensures refused { IfErr result (λ e. (e ≡ Unread.Memory) ⊎
        NoEachResult A (option_map (λ w. w.now) words.entry)) }
{
    let mut all = Items::new(alloc);
    let mut rest = words;
    while let Some(here) = rest {
        let (one, others) = cut_first(here, "; ");
        all.push(property_result(alloc, one)?)?;
        rest = others;
    }
    Ok(all)
}

/// What was read of a property, or why nothing was, as `85 = enum 1` or `87/17 ! 2 42`.
#[tactic(auto, using(crate::proofs::Replies::result_laws))]
fn property_result<A: Allocator + Copy>(alloc: A, words: &str) -> Result<PropertyResult<A>, Unread>
    ensures read { IfOk result (SaysResult words.now) }
    ensures refused { IfErr result (λ e. (e ≡ Unread.Memory) ⊎ NoResult A words.now) }
{
    let (place, given) = cut_first(words, " = ");
    let Some(given) = given else {
        return property_error(words);
    };
    property_values(alloc, place, given)
}

/// The values that were read of a property.
#[tactic(auto, using(crate::proofs::Replies::read_laws))]
fn property_values<A: Allocator + Copy>(
    alloc: A,
    place: &str,
    given: &str,
) -> Result<PropertyResult<A>, Unread>
    ensures read { IfOk result (SaysValuesRead place.now given.now) }
    ensures refused { IfErr result (λ e. (e ≡ Unread.Memory) ⊎ NoValuesRead A place.now given.now) }
{
    let values = parse_values(alloc, given)?;
    let PropertyReference { property, index } = parse_reference(place)?;
    Ok(PropertyResult {
        property,
        index,
        result: Ok(values),
    })
}

/// Why nothing was read of a property, as `87/17 ! 2 42`.
#[tactic(auto, using(crate::proofs::Replies::refusal_laws))]
fn property_error<A: Allocator>(words: &str) -> Result<PropertyResult<A>, Unread>
    ensures read { IfOk result (SaysRefusal words.now) }
    ensures refused { IfErr result (λ e. NoRefusal A words.now) }
{
    let (place, error) = cut_first(words, " ! ");
    let Some(error) = error else {
        return Err(Unread::Reply);
    };
    let error = class_and_code(error)?;
    let PropertyReference { property, index } = parse_reference(place)?;
    Ok(PropertyResult {
        property,
        index,
        result: Err(error),
    })
}
