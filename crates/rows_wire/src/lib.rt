//! What rows on live sites stand on: a wire over memory, on which datagrams are lost, come twice and overtake others,
//! and a judge of histories (ANSI/ASHRAE 135, clauses 5.4 and J).
//!
//! - `checker`: whether a history is legal.
//! - `wire_in_memory`, `course`: a wire over memory, and what becomes of datagrams on it.
//! - `wire_words`: what rows say of it.
//! - `files`: the files of a row. `on_host`: sites and lines of live runs on this host.
#![tactic(auto)]

mod checker;
mod course;
mod files;
mod on_host;
mod wire_in_memory;
mod wire_words;

pub use checker::Checker;
pub use course::{Course, next_number};
pub use files::{Row, row_of, said, text_of, wanted_of};
pub use on_host::{moved, moved_back, without_moments};
pub use wire_in_memory::{Carried, WireInMemory};
pub use wire_words::{print_mac, take_word};
