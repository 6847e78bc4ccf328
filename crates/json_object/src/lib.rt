//! An object of JSON (RFC 8259), member by member, for whoever prints one.
//!
//! To the layer above it promises that it returns. That an object has its commas, colons and escapes where they belong
//! is the promise of the library `json` that writes it.
//!
//! - `object`: the object.
#![tactic(auto)]

mod object;

pub use object::Object;
