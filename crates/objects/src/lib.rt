//! The objects of a device and what it answers for them: the object machine (ANSI/ASHRAE 135,
//! clauses 12, 15, 18 and 19.2).
//!
//! To the layer above it promises: a table answers each request as the object machine does, with
//! the first error that applies; its reply answers the request, and has a spelling where the
//! request has one; what a request leaves is what the machine leaves; a write that is refused and
//! want of memory change nothing; a WritePropertyMultiple ends at its first failure, and what was
//! written before stays. Requests and replies are the plain data of `primitives`; what an object
//! holds, reads and takes is that of `object_model`.
//!
//! - `opening`: which objects a site may give, and how they open.
//! - `table`: the objects of a device, opening, copying and reading them.
//! - `answering`: what a table replies to a request.
//! - `applying`: what a request leaves of a table.
//! - `laws`: what holds of tables and requests, for the proofs of the layers above.
#![tactic(auto)]

mod answering;
mod applying;
mod laws;
mod opening;
mod table;

pub use laws::{
    answers_request, command_leaves_other_levels, command_reads_back, command_shows,
    done_is_written, leaves_sound, present_is_in_force, reading_changes_nothing,
    replies_first_failure, replies_sound, request_leaves_identifiers, request_leaves_names,
    request_leaves_object_list, request_leaves_shape, request_leaves_types, shape_refuses,
    write_leaves_other_objects, write_leaves_other_properties, write_leaves_other_reads,
    write_leaves_shape, write_reads_back, writes_end_at_failure,
};
pub use object_model::{SiteObject, SiteObjects, ValueKind, primitives};
pub use opening::is_site;
pub use table::Table;
