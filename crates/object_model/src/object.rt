//! The objects of a device: what each holds (clauses 12.8, 12.11, 12.20, 12.37 and 12.43).

use crate::commands::Commands;
use primitives::tags::{Octets, Value};
use profile::LinkKind;
use std::alloc::Allocator;

/// What sets one type of value object off from the others. It never changes.
#[derive(Clone, Copy, Debug, PartialEq, Eq)]
pub enum ValueKind {
    /// Binary Value (12.8).
    Binary,
    /// Multi-state Value (12.20), with its number of states, 1 to 65535.
    MultiState { number_of_states: u16 },
    /// CharacterString Value (12.37).
    CharacterString,
    /// Integer Value (12.43), with its units as the standard numbers them.
    Integer { units: u32 },
}

/// What may be written into a property.
#[derive(Clone, Copy, Debug, PartialEq, Eq)]
pub enum Datatype {
    /// A Boolean.
    Boolean,
    /// Enumerated 0 or 1 (21, BACnetBinaryPV).
    Binary,
    /// Unsigned, from 1 to the number of states (12.20.4).
    MultiState { number_of_states: u16 },
    /// A text of UTF-8, of at most 128 octets.
    CharacterString,
    /// Any Signed.
    Integer,
}

/// Whether and how a property is written (15.9).
#[derive(Clone, Copy, Debug, PartialEq, Eq)]
pub enum Access {
    /// Not at all.
    ReadOnly,
    /// By a value of this type; the priority is not looked at.
    Writable(Datatype),
    /// By a value of this type, or Null, at a priority (19.2).
    Commandable(Datatype),
}

/// A value object: a Binary, Multi-state, CharacterString or Integer Value.
#[derive(Drop)]
pub struct ValueObject<A: Allocator> {
    /// Its type, and what belongs to it.
    pub kind: ValueKind,
    /// Its instance number, 0 to 4194302.
    pub instance: u32,
    /// Object_Name, a text of at most 128 octets.
    pub name: Octets<A>,
    /// Priority_Array (19.2).
    pub slots: Commands<A>,
    /// Relinquish_Default, the value in force while all slots are empty.
    pub default: Value<A>,
    /// Out_Of_Service.
    pub out_of_service: bool,
    /// Description, a text of at most 128 octets.
    pub description: Octets<A>,
}

/// The Device object (12.11).
#[derive(Drop)]
pub struct DeviceObject<A: Allocator> {
    /// Its instance number, 0 to 4194302.
    pub instance: u32,
    /// Object_Name, which is the name of the station.
    pub name: Octets<A>,
    /// Vendor_Identifier.
    pub vendor: u16,
    /// The data link, which sets Max_APDU_Length_Accepted.
    pub data_link: LinkKind,
    /// Description, a text of at most 128 octets.
    pub description: Octets<A>,
}

/// An object of a device.
#[derive(Drop)]
pub enum Object<A: Allocator> {
    /// The Device object.
    Device(DeviceObject<A>),
    /// A value object.
    Value(ValueObject<A>),
}
