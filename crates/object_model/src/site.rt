//! The objects that a site gives a device.

use crate::object::ValueKind;
use primitives::tags::{Items, Octets, Value};
use profile::LinkKind;
use std::alloc::Allocator;

/// A device as its site describes it: its Device object, and its value objects in order.
#[derive(Drop)]
#[derive_where(PartialEq, Eq, Debug)]
pub struct SiteObjects<A: Allocator> {
    /// The station's name, which is the Device object's Object_Name: at most 128 octets of UTF-8.
    pub name: Octets<A>,
    /// The Device object's instance number, 0 to 4194302.
    pub instance: u32,
    /// Vendor_Identifier.
    pub vendor: u16,
    /// The kind of link that the device is on.
    pub data_link: LinkKind,
    /// The value objects, at most 512.
    pub objects: Items<SiteObject<A>, A>,
}

/// A value object as its site describes it.
#[derive(Drop)]
#[derive_where(PartialEq, Eq, Debug)]
pub struct SiteObject<A: Allocator> {
    /// Its type, and what belongs to it.
    pub kind: ValueKind,
    /// Its instance number, 0 to 4194302.
    pub instance: u32,
    /// Object_Name: at most 128 octets of UTF-8.
    pub name: Octets<A>,
    /// Relinquish_Default, a value that may be written to Present_Value.
    pub default: Value<A>,
    /// Description: at most 128 octets of UTF-8.
    pub description: Octets<A>,
}
