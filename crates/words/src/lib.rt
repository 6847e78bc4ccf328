//! Requests, values and replies in words: what a script says, what a run prints, and what the
//! sheets of rows hold (the services of ANSI/ASHRAE 135, clause 15, written for a person to read).
//!
//! - a request: `read 5:1 85`, `write 45:1 85 signed 20 at 8`, `many 5:1 85,87/17 8:99 76`,
//!   `batch 45:1 85 signed 20 at 8; 45:1 28 text -; 5:1 85 null`; or with the standard's names, as
//!   `write binary-value,1 present-value active`;
//! - a value: `null`, `bool true`, `unsigned 7`, `signed -7`, `enum 1`, `active`, `object 5:1`,
//!   `text 6F6E`, `text/4 0041`, `bits 4 F0`, `other 10 7C0C1601`, `built 0901`;
//! - a reply: `done`, `error 2 40`, `error 2 40 at 5:1 77`, `values enum 1, null`,
//!   `many [5:1 85 = enum 1; 87/17 ! 2 42]`.
//!
//! Words are parted by single spaces. Numbers are decimal digits, and leading zeros are read;
//! octets are pairs of hexadecimal digits without spaces, `-` where there are none. A text in quotes
//! stands for `text` and its octets.
//!
//! To the layers above it promises: what is read is what the words say, and words that are refused,
//! but for want of memory, say nothing; a request that `parse_request` reads has a spelling in octets
//! and one value for each write. That what is printed is read again is tested and not proved.
//!
//! - `octets`: numbers and octets.
//! - `hex_text`: octets with spaces between their pairs of digits, or without.
//! - `parts`: words cut at a mark.
//! - `quoted`: texts in quotes.
//! - `reference`: objects, and properties or elements of them.
//! - `value`, `request`, `reply`: what their names say.
//! - `unread`: why words are not read.
#![tactic(auto)]

mod hex_text;
mod octets;
mod parts;
mod quoted;
mod reference;
mod reply;
mod request;
mod unread;
mod value;

pub use hex_text::parse_hex;
pub use names::{abort_reasons, reject_reasons};
pub use octets::{parse_number, parse_octets, parse_u16, parse_u32, parse_u64};
pub use printing::{Hex, Named, ReplyTo, Spelled, Spelling, Words};
pub use quoted::{parse_quoted_request, unquoted};
pub use reference::{parse_object, parse_reference};
pub use reply::parse_any_reply;
pub use request::{parse_any_request, parse_request};
pub use unread::Unread;
pub use value::{parse_value, parse_values};
