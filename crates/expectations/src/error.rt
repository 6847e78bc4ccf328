//! An error by the names of its class and code, as `property write-access-denied`, and the write that failed where one
//! is named, as `property write-access-denied at 45:1 85`.

ghost use Rattle.std.specs.Prelude.{◌≡◌, IfErr, IfOk};
ghost use Rattle.expectations.specs.Errors.{NoClass, NoCode, NoErrorNames, NoWrite, SaysClass, SaysCode};
ghost use Rattle.expectations.specs.Errors.{SaysErrorNames, SaysWrite};
ghost use Rattle.words.specs.NoRequests.{NoPlace};
ghost use Rattle.words.specs.Requests.{SaysPlace};

use names::{error_classes, error_codes, number_in};
use primitives::{ErrorClass, ErrorCode, PropertyReference, Reply};
use std::alloc::Allocator;
use tags::ObjectId;
use words::{Unread, parse_object, parse_reference};

/// The error that words say behind `error`.
#[tactic(auto, using(crate::proofs::ErrorLaws::names_laws))]
pub(crate) fn parse_error_names<A: Allocator>(words: &str) -> Result<Reply<A>, Unread>
    ensures read { IfOk result (SaysErrorNames words.now) }
    ensures refused { IfErr result (λ e. NoErrorNames A words.now) }
{
    let Some((class, rest)) = words.split_once(' ') else {
        return Err(Unread::Reply);
    };
    let class = parse_class(class)?;
    let Some((code, place)) = rest.split_once(' ') else {
        let code = parse_code(rest)?;
        return Ok(Reply::Error(class, code));
    };
    let code = parse_code(code)?;
    let (object, reference) = parse_write(place)?;
    let PropertyReference { property, index } = reference;
    Ok(Reply::ErrorAt {
        class,
        code,
        object,
        property,
        index,
    })
}

/// The class of a name.
#[tactic(auto, using(crate::proofs::ErrorLaws::class_laws))]
fn parse_class(word: &str) -> Result<ErrorClass, Unread>
    ensures read { IfOk result (SaysClass word.now) }
    ensures refused { IfErr result (λ e. NoClass word.now) }
{
    match number_in(error_classes(), word) {
        Some(number) => Ok(ErrorClass::from(number)),
        None => Err(Unread::Reply),
    }
}

/// The code of a name.
#[tactic(auto, using(crate::proofs::ErrorLaws::code_laws))]
fn parse_code(word: &str) -> Result<ErrorCode, Unread>
    ensures read { IfOk result (SaysCode word.now) }
    ensures refused { IfErr result (λ e. NoCode word.now) }
{
    match number_in(error_codes(), word) {
        Some(number) => Ok(ErrorCode::from(number)),
        None => Err(Unread::Reply),
    }
}

/// The write that failed, as `at 45:1 85`.
#[tactic(auto, using(crate::proofs::ErrorLaws::write_laws))]
fn parse_write(words: &str) -> Result<(ObjectId, PropertyReference), Unread>
    ensures read { IfOk result (λ x. SaysWrite words.now x.0 x.1.property x.1.index) }
    ensures refused { IfErr result (λ e. NoWrite words.now) }
{
    let Some((word, place)) = words.split_once(' ') else {
        return Err(Unread::Reply);
    };
    if word != "at" {
        return Err(Unread::Reply);
    }
    let (object, reference) = parse_place(place)?;
    Ok((object, reference))
}

/// An object, and a property of it or an element of one.
#[tactic(auto, using(crate::proofs::ErrorLaws::place_laws))]
pub(crate) fn parse_place(words: &str) -> Result<(ObjectId, PropertyReference), Unread>
    ensures read { IfOk result (λ x. SaysPlace words.now x.0 x.1.property x.1.index) }
    ensures refused { IfErr result (λ e. NoPlace words.now) }
{
    let Some((object, property)) = words.split_once(' ') else {
        return Err(Unread::Object);
    };
    let object = parse_object(object)?;
    let reference = parse_reference(property)?;
    Ok((object, reference))
}
