//! Reading values (20.2).

ghost use Rattle.std.specs.Prelude.{◌≡◌, ◌<◌, ◌≤◌, ◌^◌, ◌⊎◌, [], IfOk, IfErr, OnErr, length};
ghost use Rattle.tags.specs.Element.{NoElement};
ghost use Rattle.tags.specs.Refusal.{IsBadBits, IsBadContents, RefusesElement, RefusesValue};
ghost use Rattle.tags.specs.Tag.{HasContents};
ghost use Rattle.tags.specs.Value.{IsSound, NoValue, Says, TakesValue};

use crate::element::front_element;
use crate::fault::Fault;
use crate::items::Octets;
use crate::number::{signed_from_contents, unsigned_from_contents};
use crate::object_id::ObjectId;
use crate::reader::{Reader, front_tag};
use crate::tag::{Class, Content};
use crate::value::Value;
use std::alloc::Allocator;

/// The value at the front of what is left (20.2): an application tag with its contents, or a
/// context-tagged element, walked by count. Nothing behind it is read.
///
/// # Errors
/// `Short` where a tag is cut, at the front or within an element, or nothing is left; `BadTag` for
/// a reserved form of a tag, or a closing tag at the front; `BadLength` for contents that are no
/// value of their tag; `Memory`. The reader is then as it was.
pub fn read_value<A: Allocator + Copy>(alloc: A, reader: &mut Reader<'_>) -> Result<Value<A>, Fault>
    ensures read { IfOk result (λ v. TakesValue reader.old v reader.new) }
    ensures sound { IfOk result (λ v. length reader.old < 2 ^ 31 → IsSound v) }
    ensures refused { IfErr result (λ fault. (fault ≡ Fault.Memory) ⊎ NoValue A reader.old) }
    ensures fault { IfErr result (λ fault. (fault ≡ Fault.Memory) ⊎ RefusesValue fault reader.old) }
    ensures unchanged { OnErr result (reader.new ≡ reader.old) }
{
    let (value, rest) = front_value(alloc, reader.rest)?;
    reader.rest = rest;
    Ok(value)
}

/// The value at the front, and what follows it.
fn front_value<A: Allocator + Copy>(alloc: A, octets: &[u8]) -> Result<(Value<A>, &[u8]), Fault>
    ensures read { IfOk result (λ x. TakesValue octets.now x.0 x.1.now) }
    ensures sound { IfOk result (λ x. length octets.now < 2 ^ 31 → IsSound x.0) }
    ensures refused { IfErr result (λ fault. (fault ≡ Fault.Memory) ⊎ NoValue A octets.now) }
    ensures fault { IfErr result (λ fault. (fault ≡ Fault.Memory) ⊎ RefusesValue fault octets.now) }
{
    let (tag, rest) = front_tag(octets)?;
    match tag.content {
        Content::Null => Ok((Value::Null, rest)),
        Content::Boolean(value) => Ok((Value::Bool(value), rest)),
        Content::Octets(contents) => match tag.class {
            Class::Application => {
                let value = value_from_contents(alloc, tag.number, contents)?;
                Ok((value, rest))
            }
            Class::Context => front_built(alloc, octets),
        },
        Content::Opening => front_built(alloc, octets),
        Content::Closing => Err(Fault::BadTag),
    }
}

/// The element at the front as a value, and what follows it.
fn front_built<A: Allocator + Copy>(alloc: A, octets: &[u8]) -> Result<(Value<A>, &[u8]), Fault>
    ensures read { IfOk result (λ x. TakesValue octets.now x.0 x.1.now) }
    ensures sound { IfOk result (λ x. length octets.now < 2 ^ 31 → IsSound x.0) }
    ensures refused { IfErr result (λ fault. (fault ≡ Fault.Memory) ⊎ NoElement octets.now) }
    ensures fault { IfErr result (λ fault. (fault ≡ Fault.Memory) ⊎ RefusesElement fault octets.now) }
{
    let (element, rest) = front_element(octets)?;
    Ok((Value::Built(Octets::from_slice(alloc, element)?), rest))
}

/// The value that the contents of an application tag say (20.2.4 to 20.2.14).
fn value_from_contents<A: Allocator + Copy>(
    alloc: A,
    number: u8,
    octets: &[u8],
) -> Result<Value<A>, Fault>
    requires may { 1 < number }
    requires number_fits { number < 255 }
    ensures read { IfOk result (λ v. Says number octets.now v) }
    ensures sound { IfOk result (λ v. length octets.now < 2 ^ 31 → IsSound v) }
    ensures refused { IfErr result (λ fault. (fault ≡ Fault.Memory) ⊎
        ((fault ≡ Fault.BadLength) × IsBadContents number octets.now)) }
{
    match number {
        2 => Ok(Value::Unsigned(unsigned_from_contents(octets)?)),
        3 => Ok(Value::Signed(signed_from_contents(octets)?)),
        7 => text_from_contents(alloc, octets),
        8 => bits_from_contents(alloc, octets),
        9 => Ok(Value::Enum(unsigned_from_contents(octets)?)),
        12 => Ok(Value::Object(ObjectId::from_contents(octets)?)),
        _ => Ok(Value::Other {
            tag: number,
            octets: Octets::from_slice(alloc, octets)?,
        }),
    }
}

/// The Character String of these contents (20.2.9).
fn text_from_contents<A: Allocator + Copy>(alloc: A, octets: &[u8]) -> Result<Value<A>, Fault>
    ensures read { IfOk result (λ v. Says 7 octets.now v) }
    ensures sound { IfOk result (λ v. length octets.now < 2 ^ 31 → IsSound v) }
    ensures refused { IfErr result (λ fault. (fault ≡ Fault.Memory) ⊎ ((fault ≡ Fault.BadLength) × (octets.now ≡ []))) }
{
    match octets {
        [] => Err(Fault::BadLength),
        [set, octets @ ..] => Ok(Value::Text {
            set: *set,
            octets: Octets::from_slice(alloc, octets)?,
        }),
    }
}

/// The Bit String of these contents (20.2.10).
fn bits_from_contents<A: Allocator + Copy>(alloc: A, octets: &[u8]) -> Result<Value<A>, Fault>
    ensures read { IfOk result (λ v. Says 8 octets.now v) }
    ensures sound { IfOk result (λ v. length octets.now < 2 ^ 31 → IsSound v) }
    ensures refused { IfErr result (λ fault. (fault ≡ Fault.Memory) ⊎
        ((fault ≡ Fault.BadLength) × IsBadBits octets.now)) }
{
    match octets {
        [] => Err(Fault::BadLength),
        [unused, octets @ ..] => {
            if *unused > 7 || (octets.is_empty() && *unused != 0) {
                return Err(Fault::BadLength);
            }
            Ok(Value::Bits {
                unused: *unused,
                octets: Octets::from_slice(alloc, octets)?,
            })
        }
    }
}
