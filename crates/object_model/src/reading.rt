//! Reading a property (15.5): where it is, and what it holds.

ghost use Rattle.std.specs.Prelude.{◌≡◌, ◌∷◌, ◌-◌, ◌^◌, ◌<◌, ◌≤◌, ◌+◌, ◌≢◌, [], None, Some, Ok, Err, true, IfOk, IfErr};
ghost use Rattle.std.specs.Prelude.{OnOk, length, map, option_to_list, option_copied, slice_get, if◌then◌else◌};
ghost use Rattle.primitives.specs.tags.declared.value.Value.TheVariants as value;
ghost use Rattle.primitives.specs.Numbers.{type_number};
ghost use Rattle.object_model.specs.Objects.{text, present_value, status_flags, states_of, units_of, slot_value};
ghost use Rattle.object_model.specs.Objects.{object_list, held, held_by_value, held_by_device};
ghost use Rattle.primitives.specs.Properties.{is_array};
ghost use Rattle.object_model.specs.Reading.{index_refusal, locate_property, at_index};

use crate::commands::Commands;
use crate::object::{DeviceObject, Object, ValueKind, ValueObject};
use primitives::tags::{Items, ObjectId, Octets, Value};
use primitives::{ErrorClass, ErrorCode, ObjectType, Property, Values};
use profile::{
    APDU_SEGMENT_TIMEOUT_MS, APDU_TIMEOUT_MS, MAX_SEGMENTS_ACCEPTED, NUMBER_OF_APDU_RETRIES,
};
use std::alloc::{AllocError, Allocator};

/// Why something is refused: an error class and code (18).
pub type Refusal = (ErrorClass, ErrorCode);

/// There is no such object (15.5.1.3).
pub const UNKNOWN_OBJECT: Refusal = (ErrorClass::Object, ErrorCode::UnknownObject);

/// The object has no such property (15.5.1.3).
pub const UNKNOWN_PROPERTY: Refusal = (ErrorClass::Property, ErrorCode::UnknownProperty);

/// The property is no array (15.5.1.3).
pub const NOT_AN_ARRAY: Refusal = (ErrorClass::Property, ErrorCode::PropertyIsNotAnArray);

/// The array has no element of this index (15.5.1.3).
pub const INVALID_INDEX: Refusal = (ErrorClass::Property, ErrorCode::InvalidArrayIndex);

/// The property of this number of an object, if the object has it and the index is one of its
/// elements (15.5.1.3).
///
/// # Errors
/// The first that applies: `UNKNOWN_PROPERTY`, `NOT_AN_ARRAY`, `INVALID_INDEX`.
pub fn locate<A: Allocator>(
    objects: &[Object<A>],
    object: &Object<A>,
    number: u32,
    index: Option<u32>,
) -> Result<Property, Refusal>
    ensures found { IfOk result (λ property. locate_property objects.now (Some object.now) number index ≡
        Ok (record { object = object.now; property = property })) }
    ensures refused { IfErr result (λ refusal. locate_property objects.now (Some object.now) number index ≡
        Err refusal) }
    ensures indexed { IfOk result (λ property. index ≢ None → is_array property ≡ true) }
{
    let Some(property) = object.property(number) else {
        return Err(UNKNOWN_PROPERTY);
    };
    match refused_index(property, elements(objects, object, property), index) {
        None => Ok(property),
        Some(refusal) => Err(refusal),
    }
}

/// Why a property with this number of elements has none of this index.
fn refused_index(property: Property, elements: usize, index: Option<u32>) -> Option<Refusal>
    ensures { result ≡ index_refusal (is_array property) elements index }
{
    let index = index?;
    if !property.is_array() {
        return Some(NOT_AN_ARRAY);
    }
    if elements < index as usize {
        return Some(INVALID_INDEX);
    }
    None
}

/// The number of elements of an array, 0 for an array that the object does not have.
fn elements<A: Allocator>(objects: &[Object<A>], object: &Object<A>, property: Property) -> usize
    ensures count { is_array property ≡ true → result ≡ length (held objects.now object.now property) }
    ensures few { result ≤ length objects.now + 16 }
{
    match object {
        Object::Device(_) => match property {
            Property::ObjectList => objects.len(),
            _ => 0,
        },
        Object::Value(value) => match property {
            Property::PriorityArray => value.slots.len(),
            _ => 0,
        },
    }
}

/// What an object's property holds at an index that it has: all values, or at 0 their number, or
/// one element (15.5.2).
///
/// # Errors
/// Want of memory.
#[tactic(auto, using(crate::proofs::ReadLaws::read_rules))]
pub fn read<A: Allocator + Copy>(
    alloc: A,
    objects: &[Object<A>],
    object: &Object<A>,
    property: Property,
    index: Option<u32>,
) -> Result<Values<A>, AllocError>
    requires array { index ≢ None → is_array property ≡ true }
    requires few { length objects.now < 2 ^ 31 }
    ensures { IfOk result (λ values. values ≡ at_index (held objects.now object.now property) index) }
{
    match index {
        None => read_all(alloc, objects, object, property),
        Some(0) => one(
            alloc,
            Value::Unsigned(elements(objects, object, property) as u32),
        ),
        Some(index) => read_element(alloc, objects, object, property, index as usize - 1),
    }
}

/// All that a property holds.
fn read_all<A: Allocator + Copy>(
    alloc: A,
    objects: &[Object<A>],
    object: &Object<A>,
    property: Property,
) -> Result<Values<A>, AllocError>
    ensures { IfOk result (λ values. values ≡ held objects.now object.now property) }
{
    match object {
        Object::Device(device) => read_device(alloc, objects, device, property),
        Object::Value(value) => read_value(alloc, value, property),
    }
}

/// The element at a place of an array, counted from 0.
fn read_element<A: Allocator + Copy>(
    alloc: A,
    objects: &[Object<A>],
    object: &Object<A>,
    property: Property,
    place: usize,
) -> Result<Values<A>, AllocError>
    requires { is_array property ≡ true }
    ensures { IfOk result (λ values. values ≡ option_to_list (slice_get (held objects.now object.now property) place)) }
{
    match object {
        Object::Device(_) => match property {
            Property::ObjectList => read_identifier(alloc, objects, place),
            _ => Ok(Items::new(alloc)),
        },
        Object::Value(value) => match property {
            Property::PriorityArray => read_slot(alloc, &value.slots, place),
            _ => Ok(Items::new(alloc)),
        },
    }
}

/// All that a property of the Device object holds (12.11).
fn read_device<A: Allocator + Copy>(
    alloc: A,
    objects: &[Object<A>],
    device: &DeviceObject<A>,
    property: Property,
) -> Result<Values<A>, AllocError>
    ensures { IfOk result (λ values. values ≡ held_by_device objects.now device.now property) }
{
    match property {
        Property::ObjectIdentifier => one_object(alloc, ObjectType::Device, device.instance),
        Property::ObjectName => one_text(alloc, device.name.as_slice()),
        Property::ObjectType => one(alloc, Value::Enum(u32::from(u16::from(ObjectType::Device)))),
        Property::SystemStatus => one(alloc, Value::Enum(OPERATIONAL)),
        Property::VendorName => one_text(alloc, b"bacsite"),
        Property::VendorIdentifier => one(alloc, Value::Unsigned(u32::from(device.vendor))),
        Property::ModelName => one_text(alloc, b"site device"),
        Property::FirmwareRevision => one_text(alloc, b"1"),
        Property::ApplicationSoftwareVersion => one_text(alloc, b"1"),
        Property::ProtocolVersion => one(alloc, Value::Unsigned(PROTOCOL_VERSION)),
        Property::ProtocolRevision => one(alloc, Value::Unsigned(PROTOCOL_REVISION)),
        Property::ProtocolServicesSupported => one_bits(alloc, 5, &SERVICES_SUPPORTED),
        Property::ProtocolObjectTypesSupported => one_bits(alloc, 2, &OBJECT_TYPES_SUPPORTED),
        Property::ObjectList => object_list(alloc, objects),
        Property::MaxApduLengthAccepted => {
            one(
                alloc,
                Value::Unsigned(u32::from(device.data_link.max_apdu())),
            )
        }
        Property::SegmentationSupported => one(alloc, Value::Enum(SEGMENTED_BOTH)),
        Property::MaxSegmentsAccepted => one(
            alloc,
            Value::Unsigned(u32::from(MAX_SEGMENTS_ACCEPTED)),
        ),
        Property::ApduSegmentTimeout => one(alloc, Value::Unsigned(APDU_SEGMENT_TIMEOUT_MS as u32)),
        Property::ApduTimeout => one(alloc, Value::Unsigned(APDU_TIMEOUT_MS as u32)),
        Property::NumberOfApduRetries => one(
            alloc,
            Value::Unsigned(u32::from(NUMBER_OF_APDU_RETRIES)),
        ),
        Property::DatabaseRevision => one(alloc, Value::Unsigned(DATABASE_REVISION)),
        Property::Description => one_text(alloc, device.description.as_slice()),
        Property::DeviceAddressBinding
        | Property::EventState
        | Property::NumberOfStates
        | Property::OutOfService
        | Property::PresentValue
        | Property::PriorityArray
        | Property::RelinquishDefault
        | Property::StatusFlags
        | Property::Units => Ok(Items::new(alloc)),
    }
}

/// System_Status operational (21, BACnetDeviceStatus).
const OPERATIONAL: u32 = 0;
/// Protocol_Version of the standard that this product follows.
const PROTOCOL_VERSION: u32 = 1;
/// Protocol_Revision of the standard that this product follows.
const PROTOCOL_REVISION: u32 = 14;
/// ReadProperty, ReadPropertyMultiple, WriteProperty, WritePropertyMultiple and Who-Is: bits 12,
/// 14, 15, 16 and 34 of 35 (21, BACnetServicesSupported).
const SERVICES_SUPPORTED: [u8; 5] = [0x00, 0x0B, 0x80, 0x00, 0x20];
/// Bits 5, 8, 19, 40 and 45 of 46 (21, BACnetObjectTypesSupported).
const OBJECT_TYPES_SUPPORTED: [u8; 6] = [0x04, 0x80, 0x10, 0x00, 0x00, 0x84];
/// Segments are sent and received (21, BACnetSegmentation).
const SEGMENTED_BOTH: u32 = 0;
/// Database_Revision: no object comes or goes.
const DATABASE_REVISION: u32 = 1;
/// Event_State normal (21, BACnetEventState).
const NORMAL: u32 = 0;

/// All that a property of a value object holds (12.8, 12.20, 12.37, 12.43).
fn read_value<A: Allocator + Copy>(
    alloc: A,
    object: &ValueObject<A>,
    property: Property,
) -> Result<Values<A>, AllocError>
    ensures { IfOk result (λ values. values ≡ held_by_value object.now property) }
{
    match property {
        Property::ObjectIdentifier => {
            one_object(alloc, object.kind.object_type(), object.instance)
        }
        Property::ObjectName => one_text(alloc, object.name.as_slice()),
        Property::ObjectType => one(
            alloc,
            Value::Enum(u32::from(u16::from(object.kind.object_type()))),
        ),
        Property::PresentValue => one_copy(alloc, present_value(object)),
        Property::StatusFlags => one_bits(alloc, 4, &[status_flags(object.out_of_service)]),
        Property::EventState => one(alloc, Value::Enum(NORMAL)),
        Property::OutOfService => one(alloc, Value::Bool(object.out_of_service)),
        Property::NumberOfStates => number_of_states(alloc, object.kind),
        Property::Units => units(alloc, object.kind),
        Property::PriorityArray => priority_array(alloc, &object.slots),
        Property::RelinquishDefault => one_copy(alloc, &object.default),
        Property::Description => one_text(alloc, object.description.as_slice()),
        _ => Ok(Items::new(alloc)),
    }
}

/// The value in force: that of the filled slot of the least number, else the default (19.2).
fn present_value<A: Allocator>(object: &ValueObject<A>) -> &Value<A>
    ensures { result.now ≡ present_value object.now }
{
    match object.slots.current() {
        Some(value) => value,
        None => &object.default,
    }
}

/// The octet of Status_Flags, whose only flag that can be set is out-of-service (12.8.6).
fn status_flags(out_of_service: bool) -> u8
    ensures { result ≡ (if out_of_service then 16 else 0) }
{
    if out_of_service { 0x10 } else { 0x00 }
}

/// Number_Of_States, which a Multi-state Value alone has (12.20.10).
fn number_of_states<A: Allocator + Copy>(alloc: A, kind: ValueKind) -> Result<Values<A>, AllocError>
    ensures { IfOk result (λ values. values ≡ states_of kind) }
{
    match kind {
        ValueKind::MultiState { number_of_states } => {
            one(alloc, Value::Unsigned(u32::from(number_of_states)))
        }
        _ => Ok(Items::new(alloc)),
    }
}

/// Units, which an Integer Value alone has (12.43.10).
fn units<A: Allocator + Copy>(alloc: A, kind: ValueKind) -> Result<Values<A>, AllocError>
    ensures { IfOk result (λ values. values ≡ units_of kind) }
{
    match kind {
        ValueKind::Integer { units } => one(alloc, Value::Enum(units)),
        _ => Ok(Items::new(alloc)),
    }
}

/// The identifiers of all objects (12.11.16).
fn object_list<A: Allocator + Copy>(
    alloc: A,
    objects: &[Object<A>],
) -> Result<Values<A>, AllocError>
    ensures { IfOk result (λ values. values ≡ object_list objects.now) }
{
    let mut values = Items::new(alloc);
    for object in objects {
        values.push(Value::Object(object.identifier()))?;
    }
    Ok(values)
}

/// The identifier of the object at a place.
fn read_identifier<A: Allocator + Copy>(
    alloc: A,
    objects: &[Object<A>],
    place: usize,
) -> Result<Values<A>, AllocError>
    ensures { IfOk result (λ values. values ≡ option_to_list (slice_get (object_list objects.now) place)) }
{
    match object_at(objects, place) {
        Some(object) => one(alloc, Value::Object(object.identifier())),
        None => Ok(Items::new(alloc)),
    }
}

/// The object at a place of the list, counted from 0.
pub fn object_at<A: Allocator>(objects: &[Object<A>], place: usize) -> Option<&Object<A>>
    ensures { option_copied result ≡ slice_get objects.now place }
{
    objects.get(place)
}

/// What the sixteen slots hold, Null where one is empty (19.2.1).
fn priority_array<A: Allocator + Copy>(
    alloc: A,
    slots: &Commands<A>,
) -> Result<Values<A>, AllocError>
    ensures { IfOk result (λ values. values ≡ map slot_value slots.now) }
{
    let mut values = Items::new(alloc);
    for place in 0..slots.len() as u8 {
        values.push(slot_value(alloc, slots.at(place + 1))?)?;
    }
    Ok(values)
}

/// What the slot at a place holds, counted from 0.
#[tactic(auto, using(crate::proofs::ReadLaws::read_rules))]
fn read_slot<A: Allocator + Copy>(
    alloc: A,
    slots: &Commands<A>,
    place: usize,
) -> Result<Values<A>, AllocError>
    ensures { IfOk result (λ values. values ≡ option_to_list (slice_get (map slot_value slots.now) place)) }
{
    if place < slots.len() {
        one(alloc, slot_value(alloc, slots.at(place as u8 + 1))?)
    } else {
        Ok(Items::new(alloc))
    }
}

/// What a slot holds, Null where it is empty (19.2.1).
fn slot_value<A: Allocator + Copy>(
    alloc: A,
    slot: Option<&Value<A>>,
) -> Result<Value<A>, AllocError>
    ensures { IfOk result (λ v. v ≡ slot_value (option_copied slot.entry)) }
{
    match slot {
        Some(value) => value.copy(alloc),
        None => Ok(Value::Null),
    }
}

/// A list of one value.
#[inline(always)]
fn one<A: Allocator + Copy>(alloc: A, value: Value<A>) -> Result<Values<A>, AllocError>
    ensures { IfOk result (λ values. values ≡ value ∷ []) }
{
    let mut values = Vec::with_capacity(alloc, 1)?;
    values.push(value)?;
    Ok(Items::from_vec(values))
}

/// A list of a copy of one value.
fn one_copy<A: Allocator + Copy>(alloc: A, value: &Value<A>) -> Result<Values<A>, AllocError>
    ensures { IfOk result (λ values. values ≡ value.now ∷ []) }
{
    one(alloc, value.copy(alloc)?)
}

/// A list of one text of UTF-8.
///
/// # Errors
/// Want of memory.
pub fn one_text<A: Allocator + Copy>(alloc: A, octets: &[u8]) -> Result<Values<A>, AllocError>
    ensures { IfOk result (λ values. values ≡ text octets.now ∷ []) }
{
    let octets = Octets::from_slice(alloc, octets)?;
    one(alloc, Value::Text { set: 0, octets })
}

/// A list of one Bit String.
fn one_bits<A: Allocator + Copy>(
    alloc: A,
    unused: u8,
    octets: &[u8],
) -> Result<Values<A>, AllocError>
    ensures { IfOk result (λ values. values ≡ value.Bits unused octets.now ∷ []) }
{
    let octets = Octets::from_slice(alloc, octets)?;
    one(alloc, Value::Bits { unused, octets })
}

/// A list of one object identifier.
fn one_object<A: Allocator + Copy>(
    alloc: A,
    object_type: ObjectType,
    instance: u32,
) -> Result<Values<A>, AllocError>
    ensures { IfOk result (λ values. values ≡ value.Object (record {
      object_type = type_number object_type;
      instance = instance;
    }) ∷ []) }
{
    one(
        alloc,
        Value::Object(ObjectId {
            object_type: u16::from(object_type),
            instance,
        }),
    )
}
