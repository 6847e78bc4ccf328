//! Objects, as `5:1` or `binary-value,1`, and properties or elements of them, as `85` or `present-value`, `87/17`,
//! `priority-array/17` or `priority-array[17]`.

ghost use Rattle.std.specs.Prelude.{◌≡◌, ◌⊎◌, IfOk, IfErr};
ghost use Rattle.words.specs.Says.{Has, HasNo, SaysNamedObject, SaysObject, SaysPropertyNumber, SaysReference, colon};
ghost use Rattle.words.specs.Says.{slash};
ghost use Rattle.words.specs.Unsaid.{NoNamedObject, NoObject, NoPropertyNumber, NoReference};

use crate::octets::{parse_u16, parse_u32};
use crate::parts::cut_at;
use crate::unread::Unread;
use names::{number_in, object_types, properties};
use primitives::PropertyReference;
use tags::ObjectId;

/// The object whose type and instance a word says, as `5:1` or `binary-value,1`. It need not have a spelling.
///
/// # Errors
/// `Object` where there is no colon and no type of that name with an instance behind it, or `Number` where the sides of
/// a colon are not numbers of 16 and 32 bits.
#[tactic(auto, using(crate::proofs::Unsaid::object_laws))]
pub fn parse_object(word: &str) -> Result<ObjectId, Unread>
    ensures read { IfOk result (SaysObject word.now) }
    ensures refused { IfErr result (λ e. NoObject word.now) }
    ensures cause { IfErr result (λ e. (HasNo colon word.now × (e ≡ Unread.Object)) ⊎
        (Has colon word.now × (e ≡ Unread.Number))) }
{
    let Some((object_type, instance)) = cut_at(word, ':') else {
        return named_object(word);
    };
    Ok(ObjectId {
        object_type: parse_u16(object_type)?,
        instance: parse_u32(instance)?,
    })
}

/// The object that a word says by the name of its type, as `binary-value,1`.
#[tactic(auto, using(crate::proofs::Unsaid::named_laws))]
fn named_object(word: &str) -> Result<ObjectId, Unread>
    ensures read { IfOk result (SaysNamedObject word.now) }
    ensures refused { IfErr result (λ e. (e ≡ Unread.Object) × NoNamedObject word.now) }
{
    let Some((name, instance)) = cut_at(word, ',') else {
        return Err(Unread::Object);
    };
    let Some(number) = number_in(object_types(), name) else {
        return Err(Unread::Object);
    };
    let Ok(object_type) = u16::try_from(number) else {
        return Err(Unread::Object);
    };
    let Ok(instance) = parse_u32(instance) else {
        return Err(Unread::Object);
    };
    Ok(ObjectId {
        object_type,
        instance,
    })
}

/// The property or element of one that a word says, as `85`, `present-value`, `87/17` or `priority-array[17]`.
///
/// # Errors
/// `Number` where its parts are not numbers of 32 bits, and the first no name of a property.
#[tactic(auto, using(crate::proofs::Unsaid::property_laws))]
pub fn parse_reference(word: &str) -> Result<PropertyReference, Unread>
    ensures read { IfOk result (SaysReference word.now) }
    ensures refused { IfErr result (λ e. (e ≡ Unread.Number) × NoReference word.now) }
{
    match cut_at(word, '/') {
        Some((property, index)) => Ok(PropertyReference {
            property: property_number(property)?,
            index: Some(parse_u32(index)?),
        }),
        None => parse_whole(word),
    }
}

/// The property that a word without a slash says, or the element of one in brackets.
#[tactic(auto, using(crate::proofs::Unsaid::bracket_laws))]
fn parse_whole(word: &str) -> Result<PropertyReference, Unread>
    ensures read { IfOk result (λ r. HasNo slash word.now → SaysReference word.now r) }
    ensures refused { IfErr result (λ e. (e ≡ Unread.Number) × (HasNo slash word.now → NoReference word.now)) }
{
    let Some((property, rest)) = cut_at(word, '[') else {
        return Ok(PropertyReference {
            property: property_number(word)?,
            index: None,
        });
    };
    let Some((index, "")) = cut_at(rest, ']') else {
        return Err(Unread::Number);
    };
    Ok(PropertyReference {
        property: property_number(property)?,
        index: Some(parse_u32(index)?),
    })
}

/// The number of a property, which a word says by that or by its name.
#[tactic(auto, using(crate::proofs::Unsaid::number_laws))]
fn property_number(word: &str) -> Result<u32, Unread>
    ensures read { IfOk result (SaysPropertyNumber word.now) }
    ensures refused { IfErr result (λ e. (e ≡ Unread.Number) × NoPropertyNumber word.now) }
{
    match number_in(properties(), word) {
        Some(property) => Ok(property),
        None => parse_u32(word),
    }
}
