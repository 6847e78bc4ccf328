//! Writing a property (15.9, 19.2): whether a value is taken, and what it leaves.

ghost use Rattle.std.specs.Prelude.{◌≡◌, ◌∷◌, [], None, length};
ghost use Rattle.std.specs.Str.{is_utf8};
ghost use Rattle.primitives.specs.tags.Value.{IsSound};
ghost use Rattle.primitives.specs.Sound.{AreSound};
ghost use Rattle.object_model.specs.Writing.{access, in_range, text_refusal, value_refusal, values_refusal};
ghost use Rattle.object_model.specs.Writing.{command_refusal, write_refusal, level_of, commanded, put, put_value};
ghost use Rattle.object_model.specs.Writing.{put_device};

use crate::object::{Access, Datatype, DeviceObject, Object, ValueKind, ValueObject};
use crate::reading::Refusal;
use primitives::tags::Value;
use primitives::{ErrorClass, ErrorCode, Property, Values};
use profile::MAX_TEXT_OCTETS;
use std::alloc::Allocator;
use std::str;

/// The level of a write without a priority (19.2.3).
const DEFAULT_LEVEL: u8 = 16;

/// The level that is reserved for the minimum on and off times (19.2.3).
const RESERVED_LEVEL: u8 = 6;

const ACCESS_DENIED: Refusal = (ErrorClass::Property, ErrorCode::WriteAccessDenied);

const INVALID_TYPE: Refusal = (ErrorClass::Property, ErrorCode::InvalidDataType);

const OTHER_CHARACTER_SET: Refusal = (ErrorClass::Property, ErrorCode::CharacterSetNotSupported);

const NO_SPACE: Refusal = (ErrorClass::Resources, ErrorCode::NoSpaceToWriteProperty);

const OUT_OF_RANGE: Refusal = (ErrorClass::Property, ErrorCode::ValueOutOfRange);

/// The level at which a write commands: its priority, or 16 (15.9.1.1.5).
pub fn level_of(priority: Option<u8>) -> u8
    ensures { result ≡ level_of priority }
{
    priority.unwrap_or(DEFAULT_LEVEL)
}

/// Why these values are not written where this access is given (15.9.1.3).
pub fn write_refusal<A: Allocator>(
    access: Access,
    level: u8,
    values: &[Value<A>],
) -> Option<Refusal>
    ensures refused { result ≡ write_refusal access level values.now }
    ensures sound { result ≡ None → AreSound values.now }
{
    match access {
        Access::ReadOnly => Some(ACCESS_DENIED),
        Access::Writable(datatype) => values_refusal(datatype, values),
        Access::Commandable(_) if level == RESERVED_LEVEL => Some(ACCESS_DENIED),
        Access::Commandable(datatype) => command_refusal(datatype, values),
    }
}

/// Why a command is not taken. Null always is.
fn command_refusal<A: Allocator>(datatype: Datatype, values: &[Value<A>]) -> Option<Refusal>
    ensures refused { result ≡ command_refusal datatype values.now }
    ensures sound { result ≡ None → AreSound values.now }
{
    match values {
        [value] => match value {
            Value::Null => None,
            value => value_refusal(datatype, value),
        },
        _ => Some(INVALID_TYPE),
    }
}

/// Why a list of values is not taken: it must be exactly one.
fn values_refusal<A: Allocator>(datatype: Datatype, values: &[Value<A>]) -> Option<Refusal>
    ensures refused { result ≡ values_refusal datatype values.now }
    ensures sound { result ≡ None → AreSound values.now }
{
    match values {
        [value] => value_refusal(datatype, value),
        _ => Some(INVALID_TYPE),
    }
}

/// Why a value is not taken where this type is wanted (15.9.1.3).
pub fn value_refusal<A: Allocator>(datatype: Datatype, value: &Value<A>) -> Option<Refusal>
    ensures refused { result ≡ value_refusal datatype value.now }
    ensures sound { result ≡ None → IsSound value.now }
{
    match datatype {
        Datatype::Boolean => match value {
            Value::Bool(_) => None,
            _ => Some(INVALID_TYPE),
        },
        Datatype::Binary => match value {
            Value::Enum(number) => in_range(*number < 2),
            _ => Some(INVALID_TYPE),
        },
        Datatype::MultiState { number_of_states } => match value {
            Value::Unsigned(number) => {
                in_range(0 < *number && *number < 1 + u32::from(number_of_states))
            }
            _ => Some(INVALID_TYPE),
        },
        Datatype::CharacterString => match value {
            Value::Text { set, octets } => text_refusal(*set, octets.as_slice()),
            _ => Some(INVALID_TYPE),
        },
        Datatype::Integer => match value {
            Value::Signed(number) => {
                // It is read, since its type's range is then known to the prover.
                let _number = *number;
                None
            }
            _ => Some(INVALID_TYPE),
        },
    }
}

/// A number is in range or refused.
fn in_range(fits: bool) -> Option<Refusal>
    ensures { result ≡ in_range fits }
{
    if fits { None } else { Some(OUT_OF_RANGE) }
}

/// Why a text is not taken: its character set, its length, or octets that are no UTF-8 (20.2.9).
pub fn text_refusal(set: u8, octets: &[u8]) -> Option<Refusal>
    ensures { result ≡ text_refusal set octets.now }
{
    if set != 0 {
        return Some(OTHER_CHARACTER_SET);
    }
    if MAX_TEXT_OCTETS < octets.len() {
        return Some(NO_SPACE);
    }
    in_range(is_utf8(octets))
}

/// Whether octets are UTF-8.
#[tactic(auto, using(crate::proofs::TextLaws::text_rules))]
fn is_utf8(octets: &[u8]) -> bool
    ensures { result ≡ is_utf8 octets.now }
{
    match str::from_utf8(octets) {
        Ok(_) => true,
        Err(_) => false,
    }
}

impl ValueKind {
    ghost use Rattle.std.specs.Prelude.{◌≡◌};
    ghost use Rattle.object_model.specs.Writing.{datatype_of};

    /// The type of the values that an object of this kind holds (12.8.4, 12.20.4, 12.37.4, 12.43.4).
    pub fn datatype(self) -> Datatype
        ensures { result ≡ datatype_of self }
    {
        match self {
            ValueKind::Binary => Datatype::Binary,
            ValueKind::MultiState { number_of_states } => Datatype::MultiState { number_of_states },
            ValueKind::CharacterString => Datatype::CharacterString,
            ValueKind::Integer { .. } => Datatype::Integer,
        }
    }
}

/// How a property of an object is written (12, 19.2).
pub fn access<A: Allocator>(object: &Object<A>, property: Property) -> Access
    ensures { result ≡ access object.now property }
{
    match object {
        Object::Device(_) => match property {
            Property::Description => Access::Writable(Datatype::CharacterString),
            _ => Access::ReadOnly,
        },
        Object::Value(value) => match property {
            Property::PresentValue => Access::Commandable(value.kind.datatype()),
            Property::OutOfService => Access::Writable(Datatype::Boolean),
            Property::RelinquishDefault => Access::Writable(value.kind.datatype()),
            Property::Description => Access::Writable(Datatype::CharacterString),
            _ => Access::ReadOnly,
        },
    }
}

/// Puts the one value of a write into a property (15.9.2). None or several change nothing, and neither does a
/// property that isn't written.
pub fn put<A: Allocator>(object: &mut Object<A>, property: Property, level: u8, values: Values<A>)
    ensures { object.new ≡ put property level values object.old }
{
    let mut values = values.into_vec();
    if values.len() == 1 {
        if let Some(value) = values.pop() {
            put_one(object, property, level, value);
        }
    }
}

/// Puts a value into a property.
fn put_one<A: Allocator>(object: &mut Object<A>, property: Property, level: u8, value: Value<A>)
    ensures { object.new ≡ put property level (value ∷ []) object.old }
{
    match object {
        Object::Device(device) => put_device(device, property, value),
        Object::Value(held) => put_value(held, property, level, value),
    }
}

/// Puts a value into a property of the Device object.
fn put_device<A: Allocator>(device: &mut DeviceObject<A>, property: Property, value: Value<A>)
    ensures { device.new ≡ put_device device.old property value }
{
    match property {
        Property::Description => {
            if let Value::Text { octets, .. } = value {
                device.description = octets;
            }
        }
        _ => {}
    }
}

/// Puts a value into a property of a value object.
fn put_value<A: Allocator>(
    object: &mut ValueObject<A>,
    property: Property,
    level: u8,
    value: Value<A>,
)
    ensures { object.new ≡ put_value object.old property level value }
{
    match property {
        Property::PresentValue => object.slots.put(level, commanded(value)),
        Property::OutOfService => {
            if let Value::Bool(out_of_service) = value {
                object.out_of_service = out_of_service;
            }
        }
        Property::RelinquishDefault => object.default = value,
        Property::Description => {
            if let Value::Text { octets, .. } = value {
                object.description = octets;
            }
        }
        _ => {}
    }
}

/// What a command leaves in its slot: Null nothing, else the value (19.2.1).
fn commanded<A: Allocator>(value: Value<A>) -> Option<Value<A>>
    ensures { result ≡ commanded value }
{
    match value {
        Value::Null => None,
        value => Some(value),
    }
}
