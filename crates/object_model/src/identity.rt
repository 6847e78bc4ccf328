//! What an object is called, and which properties it has (clause 12).

ghost use Rattle.std.specs.Prelude.{◌≡◌, ◌==◌, find};
ghost use Rattle.primitives.specs.Numbers.{property_number};
ghost use Rattle.object_model.specs.Objects.{type_of, identifier, properties_of};
ghost use Rattle.object_model.specs.Reading.{property_at};

use crate::object::{Object, ValueKind};
use primitives::tags::ObjectId;
use primitives::{ObjectType, Property};
use std::alloc::Allocator;

/// The properties of a Binary Value and of a CharacterString Value, in the order of their table.
const VALUE_PROPERTIES: [Property; 10] = [
    Property::ObjectIdentifier,
    Property::ObjectName,
    Property::ObjectType,
    Property::PresentValue,
    Property::StatusFlags,
    Property::EventState,
    Property::OutOfService,
    Property::PriorityArray,
    Property::RelinquishDefault,
    Property::Description,
];

/// The properties of a Multi-state Value.
const MULTI_STATE_PROPERTIES: [Property; 11] = [
    Property::ObjectIdentifier,
    Property::ObjectName,
    Property::ObjectType,
    Property::PresentValue,
    Property::StatusFlags,
    Property::EventState,
    Property::OutOfService,
    Property::NumberOfStates,
    Property::PriorityArray,
    Property::RelinquishDefault,
    Property::Description,
];

/// The properties of an Integer Value.
const INTEGER_PROPERTIES: [Property; 11] = [
    Property::ObjectIdentifier,
    Property::ObjectName,
    Property::ObjectType,
    Property::PresentValue,
    Property::StatusFlags,
    Property::EventState,
    Property::OutOfService,
    Property::Units,
    Property::PriorityArray,
    Property::RelinquishDefault,
    Property::Description,
];

/// The properties of the Device object.
const DEVICE_PROPERTIES: [Property; 23] = [
    Property::ObjectIdentifier,
    Property::ObjectName,
    Property::ObjectType,
    Property::SystemStatus,
    Property::VendorName,
    Property::VendorIdentifier,
    Property::ModelName,
    Property::FirmwareRevision,
    Property::ApplicationSoftwareVersion,
    Property::ProtocolVersion,
    Property::ProtocolRevision,
    Property::ProtocolServicesSupported,
    Property::ProtocolObjectTypesSupported,
    Property::ObjectList,
    Property::MaxApduLengthAccepted,
    Property::SegmentationSupported,
    Property::MaxSegmentsAccepted,
    Property::ApduSegmentTimeout,
    Property::ApduTimeout,
    Property::NumberOfApduRetries,
    Property::DeviceAddressBinding,
    Property::DatabaseRevision,
    Property::Description,
];

impl ValueKind {
    /// The type of the value objects of this kind.
    pub fn object_type(self) -> ObjectType
        ensures { result ≡ type_of self }
    {
        match self {
            ValueKind::Binary => ObjectType::BinaryValue,
            ValueKind::MultiState { .. } => ObjectType::MultiStateValue,
            ValueKind::CharacterString => ObjectType::CharacterStringValue,
            ValueKind::Integer { .. } => ObjectType::IntegerValue,
        }
    }
}

impl<A: Allocator> Object<A> {
    /// The object's identifier (12.11.1).
    pub fn identifier(&self) -> ObjectId
        ensures { result ≡ identifier self.now }
    {
        match self {
            Object::Device(device) => ObjectId {
                object_type: u16::from(ObjectType::Device),
                instance: device.instance,
            },
            Object::Value(value) => ObjectId {
                object_type: u16::from(value.kind.object_type()),
                instance: value.instance,
            },
        }
    }

    /// The object's properties, in the order of its type's table.
    pub fn properties<'table>(&self) -> &'table [Property]
        ensures { result.now ≡ properties_of self.now }
    {
        match self {
            Object::Device(_) => &DEVICE_PROPERTIES,
            Object::Value(value) => match value.kind {
                ValueKind::Binary | ValueKind::CharacterString => &VALUE_PROPERTIES,
                ValueKind::MultiState { .. } => &MULTI_STATE_PROPERTIES,
                ValueKind::Integer { .. } => &INTEGER_PROPERTIES,
            },
        }
    }

    /// The object's property of this number, if it has one.
    pub fn property(&self, number: u32) -> Option<Property>
        ensures { result ≡ property_at self.now number }
    {
        find_property(self.properties(), number)
    }
}

/// The property of this number among some.
fn find_property(properties: &[Property], number: u32) -> Option<Property>
    ensures { result ≡ find (λ p. number == property_number p) properties.now }
{
    for property in properties {
        if number == u32::from(*property) {
            return Some(*property);
        }
    }
    None
}
