//! Equal copies of a site's objects, of objects and of their slots.

ghost use Rattle.std.specs.Prelude.{◌≡◌, IfOk, option_copied};

use crate::commands::Commands;
use crate::object::{DeviceObject, Object, ValueObject};
use crate::site::{SiteObject, SiteObjects};
use primitives::tags::Value;
use primitives::{CopyIn, copy_all};
use std::alloc::{AllocError, Allocator};

impl<A: Allocator + Copy> SiteObjects<A> {
    ghost use Rattle.std.specs.Prelude.{◌≡◌, IfOk};

    /// Equal objects of a site, in memory of `alloc`.
    ///
    /// # Errors
    /// Want of memory.
    pub fn copy(&self, alloc: A) -> Result<Self, AllocError>
        ensures { IfOk result (λ copy. copy ≡ self.now) }
    {
        Ok(SiteObjects {
            name: self.name.copy(alloc)?,
            instance: self.instance,
            vendor: self.vendor,
            data_link: self.data_link,
            objects: copy_all(alloc, self.objects.as_slice())?,
        })
    }
}

impl<A: Allocator + Copy> CopyIn<A> for SiteObject<A> {
    fn copy_in(&self, alloc: A) -> Result<Self, AllocError> {
        Ok(SiteObject {
            kind: self.kind,
            instance: self.instance,
            name: self.name.copy(alloc)?,
            default: self.default.copy(alloc)?,
            description: self.description.copy(alloc)?,
        })
    }
}

impl<A: Allocator + Copy> CopyIn<A> for Object<A> {
    fn copy_in(&self, alloc: A) -> Result<Self, AllocError> {
        match self {
            Object::Device(device) => Ok(Object::Device(copy_device(alloc, device)?)),
            Object::Value(value) => Ok(Object::Value(copy_value(alloc, value)?)),
        }
    }
}

/// An equal Device object.
fn copy_device<A: Allocator + Copy>(
    alloc: A,
    device: &DeviceObject<A>,
) -> Result<DeviceObject<A>, AllocError>
    ensures { IfOk result (λ copy. copy ≡ device.now) }
{
    Ok(DeviceObject {
        instance: device.instance,
        name: device.name.copy(alloc)?,
        vendor: device.vendor,
        data_link: device.data_link,
        description: device.description.copy(alloc)?,
    })
}

/// An equal value object.
fn copy_value<A: Allocator + Copy>(
    alloc: A,
    object: &ValueObject<A>,
) -> Result<ValueObject<A>, AllocError>
    ensures { IfOk result (λ copy. copy ≡ object.now) }
{
    Ok(ValueObject {
        kind: object.kind,
        instance: object.instance,
        name: object.name.copy(alloc)?,
        slots: copy_commands(alloc, &object.slots)?,
        default: object.default.copy(alloc)?,
        out_of_service: object.out_of_service,
        description: object.description.copy(alloc)?,
    })
}

/// Equal slots.
fn copy_commands<A: Allocator + Copy>(
    alloc: A,
    slots: &Commands<A>,
) -> Result<Commands<A>, AllocError>
    ensures { IfOk result (λ copy. copy ≡ slots.now) }
{
    let mut all = Commands::new(alloc)?;
    for place in 0..slots.len() as u8 {
        let value = copy_slot(alloc, slots.at(place + 1))?;
        all.put(place + 1, value);
    }
    Ok(all)
}

/// An equal slot.
fn copy_slot<A: Allocator + Copy>(
    alloc: A,
    value: Option<&Value<A>>,
) -> Result<Option<Value<A>>, AllocError>
    ensures { IfOk result (λ copy. copy ≡ option_copied value.entry) }
{
    match value {
        Some(value) => Ok(Some(value.copy(alloc)?)),
        None => Ok(None),
    }
}
