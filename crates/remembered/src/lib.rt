//! The answers that a device remembers, under who asked (ANSI/ASHRAE 135, clause 5.4.5): a repeat of a request is
//! answered from here and not executed again.
//!
//! To the layers above it promises: the content is a list in order of execution, and each call is one function on
//! it. All growths come before a request is executed; where there is no memory, records and objects are as they
//! were. Forgetting, and changing how an answer is being said, take no memory.
//!
//! - `record`: who asked, and what is remembered.
//! - `records`: the trait of what remembers, in terms of the list.
//! - `list`: the list itself, for tests; `slab`: the same under keys, as devices have it.
//! - `keys`: the map from who asked to keys, and a request that is executed under one.
//! - `laws`: what holds of lists of records, for the proofs of the layers above.
#![tactic(auto)]

mod keys;
mod laws;
mod list;
mod record;
mod records;
mod slab_records;

pub use laws::{forgotten_are_dead, full_is_64_living, newest_lives};
pub use list::ListRecords;
pub use record::{Asker, Record, RememberedAnswer};
pub use records::Records;
pub use slab_records::SlabRecords;
