//! The objects of a device: what a site gives, what each object holds, how its properties are read
//! and written (ANSI/ASHRAE 135, clauses 12, 15.5, 15.7, 15.9, 15.10 and 19.2).
//!
//! To the table above it promises: an object has the properties of its type's table; a property is
//! found, or refused with the first error that applies, and reads what it holds; a value is taken,
//! and then it has a spelling, or is refused with the first error that applies; what a write leaves
//! of an object is what the definition says; copies are equal.
//!
//! - `site`: the objects that a site gives a device.
//! - `object`: what an object holds.
//! - `identity`: what an object is called, and which properties it has.
//! - `commands`: the sixteen slots of a value object.
//! - `places`: where an object stands in the table, found in the logarithm of their number.
//! - `reading`: where a property is, and what it holds.
//! - `writing`: whether a value is taken, and what it leaves.
//! - `copying`: equal copies.
//! - `laws`: what holds of all objects, for the proofs of the layers above.
#![tactic(auto)]

mod commands;
mod copying;
mod identity;
mod laws;
mod object;
mod places;
pub mod reading;
mod site;
pub mod writing;

pub use commands::Commands;
pub use laws::types_are_supported;
pub use object::{Access, Datatype, DeviceObject, Object, ValueKind, ValueObject};
pub use places::Places;
pub use primitives;
pub use primitives::tags;
pub use profile;
pub use site::{SiteObject, SiteObjects};
