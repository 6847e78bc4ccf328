//! What `bacsite answer` and `bacsite explain` do with one datagram (ANSI/ASHRAE 135, clauses 6, 20 and Annex J).
//!
//! `answer_line` prints what the built-in device says to the datagram that words spell, and
//! `explain_line` the datagram taken apart; both answer the exit status. To the layer above they
//! promise: with status 0 the words say one datagram, and what was printed is what the device says
//! to it, or its fields and tags, each on a line, with names after a line that says what it is. `explain_datagram` and
//! `explain_npdu` print the same of octets.
//!
//! - `answer`: what is said to one datagram.
//! - `builtin`: the built-in device, from octets to octets.
//! - `explain`: one datagram taken apart, line by line.
//! - `summary`: what it is, in one line.
//! - `refusal`, `stop`: what ends a program, and a text, before its time.
#![tactic(auto)]

mod answer;
mod builtin;
mod explain;
mod refusal;
mod stop;
mod summary;

pub use answer::answer_line;
pub use builtin::{Builtin, respond};
pub use explain::{explain_datagram, explain_line, explain_npdu};
pub use printing::Spelling;
pub use refusal::{say_failed, say_refused};
