//! The device: number 10 on network 1 at 127.0.0.1:47811, with so many Binary Values.

use endpoint::Device;
use npdu::{Mac, Station};
use objects::{SiteObject, SiteObjects, Table, ValueKind};
use profile::LinkKind;
use std::alloc::{AllocError, Allocator};
use tags::{Fault, Items, Value};

/// Its address.
pub(crate) const OWN: Mac = Mac::Six([127, 0, 0, 1, 0xBA, 0xC3]);

/// A Binary Value.
fn value<A: Allocator + Copy>(alloc: A, instance: u32) -> Result<SiteObject<A>, AllocError> {
    let name = [
        b'0' + (instance / 100 % 10) as u8,
        b'0' + (instance / 10 % 10) as u8,
        b'0' + (instance % 10) as u8,
    ];
    Ok(SiteObject {
        kind: ValueKind::Binary,
        instance,
        name: Items::from_slice(alloc, name.as_slice())?,
        default: Value::Enum(1),
        description: Items::new(alloc),
    })
}

/// Its objects, of the instances from 1 on.
fn site<A: Allocator + Copy>(alloc: A, objects: u16) -> Result<SiteObjects<A>, AllocError> {
    let mut values = Items::new(alloc);
    for instance in 1..=u32::from(objects) {
        values.push(value(alloc, instance)?)?;
    }
    Ok(SiteObjects {
        name: Items::from_slice(alloc, b"device")?,
        instance: 10,
        vendor: 0,
        data_link: LinkKind::BacnetIp,
        objects: values,
    })
}

/// Its table.
///
/// # Errors
/// `BadSite` for more than 512 objects, or `Memory`.
pub(crate) fn table<A: Allocator + Copy>(alloc: A, objects: u16) -> Result<Table<A>, Fault> {
    Table::new(alloc, site(alloc, objects)?)
}

/// The device.
///
/// # Errors
/// `BadSite` for more than 512 objects, or `Memory`.
pub(crate) fn device<A: Allocator + Copy>(alloc: A, objects: u16) -> Result<Device<A>, Fault> {
    let address = Station { net: 1, mac: OWN };
    Device::new(alloc, site(alloc, objects)?, address)
}
