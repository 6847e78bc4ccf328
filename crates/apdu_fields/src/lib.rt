//! What is read of an APDU by itself (ANSI/ASHRAE 135, clauses 20.1, 20.2.15 and 21).
//!
//! To APDUs and services it promises: each parameter is what the tag at the front says, and no other; where another tag
//! stands there none is read, and behind a class without its code the reader is as it was. A wrong one is refused here,
//! before any APDU is read.
//!
//! - `first_octet`: the bit that says a segment.
//! - `parameter`: one parameter of a service.
//! - `class_and_code`: class and code of an Error.
#![tactic(auto)]

mod class_and_code;
mod first_octet;
mod parameter;

pub use class_and_code::class_and_code_from;
pub use first_octet::says_segment;
pub use parameter::{
    closing_from, contents_from, contents_of, number_from, object_from, opening_from,
};
pub use primitives::tags;
