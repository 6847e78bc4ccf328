//! Requests and replies as plain data, without octets (clauses 15 and 18).

use crate::error::{ErrorClass, ErrorCode};
use std::alloc::Allocator;
use tags::{Items, ObjectId, Value};

/// A list of values.
pub type Values<A> = Items<Value<A>, A>;

/// What a client asks of a device (clause 15).
#[derive(Drop)]
#[derive_where(PartialEq, Eq, Debug)]
pub enum Request<A: Allocator> {
    /// ReadProperty (15.5): a property of an object, or one element of it. Index 0 is the length.
    Read {
        object: ObjectId,
        property: u32,
        index: Option<u32>,
    },
    /// ReadPropertyMultiple (15.7): one or more objects, each with one or more properties.
    ReadMany(Items<ObjectRefs<A>, A>),
    /// WriteProperty (15.9): the values for a property, at a priority from 1 to 16.
    Write {
        object: ObjectId,
        property: u32,
        index: Option<u32>,
        values: Values<A>,
        priority: Option<u8>,
    },
    /// WritePropertyMultiple (15.10): one or more objects, each with one or more writes.
    WriteMany(Items<ObjectWrites<A>, A>),
}

/// Properties of one object that are to be read (15.7.3.1, ReadAccessSpecification).
#[derive(Drop)]
#[derive_where(PartialEq, Eq, Debug)]
pub struct ObjectRefs<A: Allocator> {
    /// The object.
    pub object: ObjectId,
    /// The properties.
    pub refs: Items<PropertyReference, A>,
}

/// A property, or one element of it (21, BACnetPropertyReference).
#[derive(Clone, Copy, Debug, PartialEq, Eq)]
pub struct PropertyReference {
    /// The property's number.
    pub property: u32,
    /// The index of the element, 0 for the length of an array.
    pub index: Option<u32>,
}

/// Writes to one object (15.10.3.1, WriteAccessSpecification).
#[derive(Drop)]
#[derive_where(PartialEq, Eq, Debug)]
pub struct ObjectWrites<A: Allocator> {
    /// The object.
    pub object: ObjectId,
    /// The writes, in the order in which they are to be done.
    pub writes: Items<PropertyWrite<A>, A>,
}

/// One write to a property (21, BACnetPropertyValue).
#[derive(Drop)]
#[derive_where(PartialEq, Eq, Debug)]
pub struct PropertyWrite<A: Allocator> {
    /// The property's number.
    pub property: u32,
    /// The index of the element, 0 for the length of an array.
    pub index: Option<u32>,
    /// The values.
    pub values: Values<A>,
    /// The priority, 1 to 16, which counts for Present_Value alone; without one it is 16.
    pub priority: Option<u8>,
}

/// What a device answers.
#[derive(Drop)]
#[derive_where(PartialEq, Eq, Debug)]
pub enum Reply<A: Allocator> {
    /// The values of the property that was read.
    Values(Values<A>),
    /// What was read of each object.
    Many(Items<ObjectResults<A>, A>),
    /// All was written.
    Done,
    /// Why the request was not done.
    Error(ErrorClass, ErrorCode),
    /// Why a WritePropertyMultiple stopped, and at which write (15.10.1.3).
    ErrorAt {
        class: ErrorClass,
        code: ErrorCode,
        object: ObjectId,
        property: u32,
        index: Option<u32>,
    },
}

impl<A: Allocator> Reply<A> {
    ghost use Rattle.std.specs.Prelude.{◌≡◌, ◌↔◌, IsTrue};
    ghost use Rattle.primitives.specs.declared.plain_data.Reply.TheVariants.{Done};

    /// Whether all was written.
    pub fn is_done(&self) -> bool
        ensures { IsTrue result ↔ (self.now ≡ Done) }
    {
        match self {
            Reply::Done => true,
            _ => false,
        }
    }
}

/// What was read of one object (15.7.3.2, ReadAccessResult).
#[derive(Drop)]
#[derive_where(PartialEq, Eq, Debug)]
pub struct ObjectResults<A: Allocator> {
    /// The object.
    pub object: ObjectId,
    /// What was read of each property.
    pub results: Items<PropertyResult<A>, A>,
}

/// What was read of one property, or why nothing was (15.7.3.2).
#[derive(Drop)]
#[derive_where(PartialEq, Eq, Debug)]
pub struct PropertyResult<A: Allocator> {
    /// The property's number.
    pub property: u32,
    /// The index of the element, 0 for the length of an array.
    pub index: Option<u32>,
    /// The values, or the class and code of the error.
    pub result: Result<Values<A>, (ErrorClass, ErrorCode)>,
}
