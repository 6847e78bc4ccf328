//! Tagged values (ANSI/ASHRAE 135, clause 20.2), and what all crates above share: the refusals
//! and the lists that contracts see as lists.
//!
//! To the layers above it promises: what is read is spelled so, what is written is the shortest
//! spelling and is read back, each refusal comes only for its stated cause, and after one the
//! reader or buffer is as it was. No two values are spelled by the same octets.
//!
//! - `fault`: the fifteen refusals.
//! - `items`: lists and lists of octets over an allocator.
//! - `tag`, `reader`: tags, and reading them from left to right.
//! - `number`, `object_id`: numbers and object identifiers as contents octets.
//! - `value`, `value_reader`, `element`: values, reading them, and walking an element by count.
//! - `writer`: writing values and tags.
//! - `laws`: what holds of every spelling, for the proofs of the layers above.
#![tactic(auto)]

mod element;
mod fault;
mod items;
mod laws;
mod number;
mod object_id;
mod reader;
mod tag;
mod value;
mod value_reader;
mod writer;

pub use fault::Fault;
pub use items::{Items, Octets};
pub use laws::{
    built_is_itself, equality, list_is_spelled, one_list, one_tag, one_value, tag_is_refused_once,
    tag_is_shortest, tag_is_spelled, tag_reads_back, value_is_refused_once, value_is_shortest,
    value_is_spelled, value_reads_back,
};
pub use number::{signed_from_contents, unsigned_from_contents};
pub use object_id::ObjectId;
pub use reader::Reader;
pub use tag::{Class, Content, Tag};
pub use value::Value;
pub use value_reader::read_value;
pub use writer::{all_or_none, write_object, write_tag, write_unsigned, write_value};
