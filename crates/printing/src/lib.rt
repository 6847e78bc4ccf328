//! Objects, values, requests and replies as they are printed in words (the services of ANSI/ASHRAE 135, clause 15,
//! written for a person to read), with the standard's numbers or with its names:
//!
//! - a request: `write 45:1 85 signed 20 at 8`, or `write integer-value,1 present-value signed 20 at 8`;
//! - a value: `null`, `unsigned 7`, `enum 1`, or `enum active` where the property is known; `text 6F6E`, or
//!   `text "on"`;
//! - a reply: `many [5:1 85 = enum 1; 87/17 ! 2 42]`, or
//!   `many [binary-value,1 present-value = enum active; priority-array[17] ! property invalid-array-index]`.
//!
//! To the layers above it promises the exact text of each.
//!
//! - `spelling`: numbers of the standard, or their names.
//! - `octets`: octets as pairs of hexadecimal digits.
//! - `quoted`: texts in quotes.
//! - `reference`: objects, and properties or elements of them.
//! - `value`, `request`, `reply`: what their names say.
//! - `shown`: what is printed, for `write!`.
#![tactic(auto)]

mod octets;
mod quoted;
mod reference;
mod reply;
mod request;
mod shown;
mod spelling;
mod value;

pub use octets::Hex;
pub use quoted::Readable;
pub use reply::ReplyTo;
pub use shown::{Spelled, Words};
pub use spelling::{Named, Spelling, is_binary};
