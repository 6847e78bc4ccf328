//! Writes to the objects of a device (15.9, 15.10).

use crate::dice::Dice;
use crate::requests::{MOST_OBJECTS, Target, any_target, index, value_object};
use object_model::{SiteObjects, ValueKind};
use primitives::{ObjectWrites, Property, PropertyWrite, Request, Values};
use profile::MAX_TEXT_OCTETS;
use std::alloc::{AllocError, Allocator};
use tags::{Items, ObjectId, Octets, Value};

/// What is written beside Present_Value; not each of them can be.
const WRITTEN: [Property; 5] = [
    Property::OutOfService,
    Property::Description,
    Property::RelinquishDefault,
    Property::ObjectName,
    Property::PriorityArray,
];

/// A text of small letters: mostly short, at times as long as it may be, and seldom longer.
fn text<A: Allocator + Copy>(dice: &mut Dice, alloc: A) -> Result<Value<A>, AllocError> {
    let length = match dice.below(8) {
        0 | 1 => MAX_TEXT_OCTETS,
        2 => MAX_TEXT_OCTETS + 1,
        _ => dice.below(16),
    };
    let mut octets = Octets::new(alloc);
    for _ in 0..length {
        octets.push(b'a' + dice.small(26) as u8)?;
    }
    Ok(Value::Text { set: 0, octets })
}

/// A value of an object's own type.
fn value_of<A: Allocator + Copy>(
    dice: &mut Dice,
    alloc: A,
    kind: ValueKind,
) -> Result<Value<A>, AllocError> {
    match kind {
        ValueKind::Binary => Ok(Value::Enum(dice.small(2))),
        ValueKind::MultiState { number_of_states } => {
            let states = u32::from(number_of_states);
            Ok(Value::Unsigned(dice.small(states).saturating_add(1)))
        }
        ValueKind::CharacterString => text(dice, alloc),
        ValueKind::Integer { .. } => {
            let number = dice.small(2000).cast_signed();
            Ok(Value::Signed(number.saturating_sub(1000)))
        }
    }
}

/// A value of any type.
fn any_value<A: Allocator + Copy>(dice: &mut Dice, alloc: A) -> Result<Value<A>, AllocError> {
    match dice.below(7) {
        0 => Ok(Value::Null),
        1 => Ok(Value::Bool(dice.is_one_of(2))),
        2 => Ok(Value::Unsigned(dice.small(u32::MAX))),
        3 => Ok(Value::Signed(dice.small(u32::MAX).cast_signed())),
        4 => Ok(Value::Enum(dice.small(4))),
        5 => Ok(Value::Object(ObjectId {
            object_type: dice.small(1024) as u16,
            instance: dice.small(0x40_0000),
        })),
        _ => text(dice, alloc),
    }
}

/// A value for the Present_Value of an object: mostly of its type, often Null, which gives a priority free (19.2).
fn present_value<A: Allocator + Copy>(
    dice: &mut Dice,
    alloc: A,
    kind: Option<ValueKind>,
) -> Result<Value<A>, AllocError> {
    let Some(kind) = kind else {
        return any_value(dice, alloc);
    };
    match dice.below(16) {
        0 => any_value(dice, alloc),
        1..=4 => Ok(Value::Null),
        _ => value_of(dice, alloc, kind),
    }
}

/// A priority of 1 to 16, or none.
fn priority(dice: &mut Dice) -> Option<u8> {
    if dice.is_one_of(2) {
        return None;
    }
    Some(1 + dice.small(16) as u8)
}

/// One value.
fn one_value<A: Allocator + Copy>(alloc: A, value: Value<A>) -> Result<Values<A>, AllocError> {
    let mut values = Items::new(alloc);
    values.push(value)?;
    Ok(values)
}

/// A write of one value to an object: mostly of its Present_Value.
fn write_to<A: Allocator + Copy>(
    dice: &mut Dice,
    alloc: A,
    kind: Option<ValueKind>,
) -> Result<PropertyWrite<A>, AllocError> {
    let is_present = !dice.is_one_of(8);
    let (property, value) = if is_present {
        (Property::PresentValue, present_value(dice, alloc, kind)?)
    } else {
        let property = dice.one(&WRITTEN).copied().unwrap_or(Property::Description);
        (property, any_value(dice, alloc)?)
    };
    Ok(PropertyWrite {
        property: u32::from(property),
        index: index(dice, property),
        values: one_value(alloc, value)?,
        priority: priority(dice),
    })
}

/// A WriteProperty (15.9).
pub(crate) fn write<A: Allocator + Copy>(
    dice: &mut Dice,
    alloc: A,
    objects: &SiteObjects<A>,
) -> Result<Request<A>, AllocError> {
    let Target { object, kind } = any_target(dice, objects);
    let PropertyWrite {
        property,
        index,
        values,
        priority,
    } = write_to(dice, alloc, kind)?;
    Ok(Request::Write {
        object,
        property,
        index,
        values,
        priority,
    })
}

/// One or two writes to an object.
fn writes_to<A: Allocator + Copy>(
    dice: &mut Dice,
    alloc: A,
    target: Target,
) -> Result<ObjectWrites<A>, AllocError> {
    let mut writes = Items::new(alloc);
    for _ in 0..1 + dice.below(2) {
        writes.push(write_to(dice, alloc, target.kind)?)?;
    }
    Ok(ObjectWrites {
        object: target.object,
        writes,
    })
}

/// A WritePropertyMultiple of value objects of the device, one after another, each once (15.10): it may go in segments.
pub(crate) fn batch<A: Allocator + Copy>(
    dice: &mut Dice,
    alloc: A,
    objects: &SiteObjects<A>,
) -> Result<Request<A>, AllocError> {
    let mut groups = Items::new(alloc);
    let first = dice.below(objects.objects.len());
    let all = objects.objects.as_slice().get(first..).unwrap_or(&[]);
    for object in all.get(..MOST_OBJECTS).unwrap_or(all) {
        groups.push(writes_to(dice, alloc, value_object(object))?)?;
    }
    Ok(Request::WriteMany(groups))
}
