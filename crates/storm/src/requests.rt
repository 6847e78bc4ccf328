//! Requests of the objects of a device (15).

use crate::dice::Dice;
use crate::writes::{batch, write};
use object_model::{SiteObject, SiteObjects, ValueKind};
use primitives::{
    ALL_PROPERTIES, OPTIONAL_PROPERTIES, ObjectRefs, ObjectType, Property, PropertyReference,
    REQUIRED_PROPERTIES, Request,
};
use std::alloc::{AllocError, Allocator};
use tags::{Items, ObjectId};

/// How many objects a request asks of at most.
pub(crate) const MOST_OBJECTS: usize = 16;

/// What is read.
const READ: [Property; 12] = [
    Property::PresentValue,
    Property::PresentValue,
    Property::PresentValue,
    Property::PriorityArray,
    Property::RelinquishDefault,
    Property::ObjectName,
    Property::Description,
    Property::OutOfService,
    Property::StatusFlags,
    Property::ObjectIdentifier,
    Property::Units,
    Property::ObjectList,
];

/// The types of objects that a device may lack.
const TYPES: [ObjectType; 5] = [
    ObjectType::BinaryValue,
    ObjectType::Device,
    ObjectType::MultiStateValue,
    ObjectType::CharacterStringValue,
    ObjectType::IntegerValue,
];

/// An object that a request is about, and what sets its type off, where the device has it and it isn't the Device
/// object.
#[derive(Clone, Copy, Debug, PartialEq, Eq)]
pub(crate) struct Target {
    pub(crate) object: ObjectId,
    pub(crate) kind: Option<ValueKind>,
}

/// A value object of a device.
pub(crate) fn value_object<A: Allocator>(object: &SiteObject<A>) -> Target {
    Target {
        object: ObjectId {
            object_type: u16::from(object.kind.object_type()),
            instance: object.instance,
        },
        kind: Some(object.kind),
    }
}

/// The Device object of a device (12.11).
fn device_object<A: Allocator>(objects: &SiteObjects<A>) -> Target {
    Target {
        object: ObjectId {
            object_type: u16::from(ObjectType::Device),
            instance: objects.instance,
        },
        kind: None,
    }
}

/// An object that a device may lack.
fn lacking(dice: &mut Dice) -> Target {
    let object_type = dice.one(&TYPES).copied().unwrap_or(ObjectType::Device);
    Target {
        object: ObjectId {
            object_type: u16::from(object_type),
            instance: dice.small(0x40_0000),
        },
        kind: None,
    }
}

/// An object: mostly a value object of the device.
pub(crate) fn any_target<A: Allocator>(dice: &mut Dice, objects: &SiteObjects<A>) -> Target {
    if dice.is_one_of(16) {
        return lacking(dice);
    }
    if dice.is_one_of(8) {
        return device_object(objects);
    }
    match dice.one(objects.objects.as_slice()) {
        Some(object) => value_object(object),
        None => device_object(objects),
    }
}

/// An index of an element, seldom of one that isn't there.
pub(crate) fn index(dice: &mut Dice, property: Property) -> Option<u32> {
    if dice.is_one_of(32) || (property.is_array() && dice.is_one_of(2)) {
        return Some(dice.small(18));
    }
    None
}

/// A property, or an element of one; seldom a number that no property has.
fn reference(dice: &mut Dice) -> PropertyReference {
    if dice.is_one_of(32) {
        return PropertyReference {
            property: dice.small(600),
            index: None,
        };
    }
    let property = dice.one(&READ).copied().unwrap_or(Property::PresentValue);
    PropertyReference {
        property: u32::from(property),
        index: index(dice, property),
    }
}

/// A property of many, or a number that stands for several (15.7.3.1.2).
fn reference_of_many(dice: &mut Dice) -> PropertyReference {
    let property = match dice.below(8) {
        0 => ALL_PROPERTIES,
        1 => REQUIRED_PROPERTIES,
        2 => OPTIONAL_PROPERTIES,
        _ => return reference(dice),
    };
    PropertyReference {
        property,
        index: None,
    }
}

/// A ReadProperty (15.5).
fn read<A: Allocator>(dice: &mut Dice, objects: &SiteObjects<A>) -> Request<A> {
    let object = any_target(dice, objects).object;
    let PropertyReference { property, index } = reference(dice);
    Request::Read {
        object,
        property,
        index,
    }
}

/// One to three properties of an object.
fn references_to<A: Allocator + Copy>(
    dice: &mut Dice,
    alloc: A,
    object: ObjectId,
) -> Result<ObjectRefs<A>, AllocError> {
    let mut refs = Items::new(alloc);
    for _ in 0..1 + dice.below(3) {
        refs.push(reference_of_many(dice))?;
    }
    Ok(ObjectRefs { object, refs })
}

/// A ReadPropertyMultiple of one to three objects (15.7).
fn many<A: Allocator + Copy>(
    dice: &mut Dice,
    alloc: A,
    objects: &SiteObjects<A>,
) -> Result<Request<A>, AllocError> {
    let mut groups = Items::new(alloc);
    for _ in 0..1 + dice.below(3) {
        let object = any_target(dice, objects).object;
        groups.push(references_to(dice, alloc, object)?)?;
    }
    Ok(Request::ReadMany(groups))
}

/// A ReadPropertyMultiple of the first value objects, one after another: its answer may go in segments.
fn many_of_all<A: Allocator + Copy>(
    dice: &mut Dice,
    alloc: A,
    objects: &SiteObjects<A>,
) -> Result<Request<A>, AllocError> {
    let mut groups = Items::new(alloc);
    let first = dice.below(objects.objects.len());
    let all = objects.objects.as_slice().get(first..).unwrap_or(&[]);
    for object in all.get(..MOST_OBJECTS).unwrap_or(all) {
        let object = value_object(object).object;
        groups.push(references_to(dice, alloc, object)?)?;
    }
    Ok(Request::ReadMany(groups))
}

/// A request of a device: of objects that it has, and seldom of one that it lacks.
pub(crate) fn request<A: Allocator + Copy>(
    dice: &mut Dice,
    alloc: A,
    objects: &SiteObjects<A>,
) -> Result<Request<A>, AllocError> {
    match dice.below(12) {
        0..=3 => Ok(read(dice, objects)),
        4..=8 => write(dice, alloc, objects),
        9 => many(dice, alloc, objects),
        10 => many_of_all(dice, alloc, objects),
        _ => batch(dice, alloc, objects),
    }
}
