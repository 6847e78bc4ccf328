//! What is wrong with a site file, told so that it can be mended: each key that is unknown, missing or of another kind
//! or range, with its line; or what the parts of a site break, with the lines that say it (ANSI/ASHRAE 135, clauses
//! 3.2, 6, 9, 12 and J, read from a text).
//!
//! To the layer above it promises: a fault is told only of a text that is no document, has a key that says no part, or
//! has parts with a fault; and none only of one whose parts are a sound site. Which messages are told, rows show.
//!
//! - `keys`: the keys of each kind of row, and what may stand under them.
//! - `row`: a row of a document, and how it is called.
//! - `judging`: the keys that are faulty.
//! - `fault`: what is wrong with a key, in words.
//! - `places`: where keys and rows stand in a text.
//! - `parts`: what the parts of a site break.
//! - `telling`: the faults of a site file.
#![tactic(auto)]

mod fault;
mod judging;
mod keys;
mod parts;
mod places;
mod row;
mod telling;

pub use telling::tell_site_faults;
