//! What a client asks of a device and what the device answers, as plain data (ANSI/ASHRAE 135,
//! clauses 15, 18 and 21): the service primitives of the object access services.
//!
//! To the layers above it promises: classes, codes, object types and properties have the
//! standard's numbers, each in one place; whether a request or a reply has a spelling is told exactly; a copy is equal
//! to what was copied. Nothing here knows of octets or of the objects of a device.
//!
//! - `plain_data`: requests, replies and what they are made of.
//! - `soundness`: whether a request or a reply has a spelling.
//! - `copying`: equal copies.
//! - `error`: error classes and codes, with the standard's numbers.
//! - `object_type`: the object types, with the standard's numbers.
//! - `property`: the properties, with the standard's numbers.
//! - `laws`: a number has one name.
#![tactic(auto)]

mod copying;
mod error;
mod laws;
mod object_type;
mod plain_data;
mod property;
mod soundness;

pub use copying::{CopyIn, copy_all};
pub use error::{ErrorClass, ErrorCode};
pub use laws::{one_class, one_code, special_numbers};
pub use object_type::ObjectType;
pub use plain_data::{
    ObjectRefs, ObjectResults, ObjectWrites, PropertyReference, PropertyResult, PropertyWrite,
    Reply, Request, Values,
};
pub use property::{ALL_PROPERTIES, OPTIONAL_PROPERTIES, Property, REQUIRED_PROPERTIES};
pub use tags;
