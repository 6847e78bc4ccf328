//! Octets as texts of hexadecimal digits, as `bacsite explain` and `answer` take and print them.
//!
//! To the layer above it promises: what is read is what the text says, which says no other octets, and a text that
//! isn't read says none. `read_hex` takes pairs of digits alone; `read_octets` also what other programs copy: lists, as
//! `81:0a:00` and `0x81, 0x0a`, and the lines of a hex dump.
//!
//! - `pairs`: pairs of digits, read and printed.
//! - `lists`: the pairs that a list stands for.
//! - `dumps`: the lines of a hex dump.
//! - `says`: a text in any of these forms.
#![tactic(auto)]

mod dumps;
mod lists;
mod pairs;
mod says;

pub use pairs::{push_pairs, read_hex};
pub use says::read_octets;
