//! An object of each type, which tells what all objects of its type have.

use object_model::{Commands, DeviceObject, Object, ValueKind, ValueObject};
use profile::LinkKind;
use std::alloc::{AllocError, Allocator};
use tags::{Items, Value};

/// The kinds of value objects, in the order of their types' numbers.
pub(crate) const VALUE_KINDS: [ValueKind; 4] = [
    ValueKind::Binary,
    ValueKind::MultiState {
        number_of_states: 2,
    },
    ValueKind::CharacterString,
    ValueKind::Integer { units: 95 },
];

/// A Device object.
pub(crate) fn device<A: Allocator + Copy>(alloc: A) -> Object<A> {
    Object::Device(DeviceObject {
        instance: 0,
        name: Items::new(alloc),
        vendor: 0,
        data_link: LinkKind::BacnetIp,
        description: Items::new(alloc),
    })
}

/// A value object of a kind.
pub(crate) fn value_object<A: Allocator + Copy>(
    alloc: A,
    kind: ValueKind,
) -> Result<Object<A>, AllocError> {
    Ok(Object::Value(ValueObject {
        kind,
        instance: 0,
        name: Items::new(alloc),
        slots: Commands::new(alloc)?,
        default: Value::Null,
        out_of_service: false,
        description: Items::new(alloc),
    }))
}
