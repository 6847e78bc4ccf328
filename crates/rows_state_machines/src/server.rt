//! What a server of transactions says and executes.
//!
//! - `opened`: the device of the rows, and its server.
//! - `heard`: what comes of an input, with each allocation refused in turn.
//! - `told`: what is said and executed, in words.

mod heard;
mod opened;
mod told;

pub(crate) use opened::Served;
use opened::open;
use sheets::{Counts, Given, Part, Stop, run_word, two_words};
use std::alloc::Allocator;

/// Runs a row on the server that a row opened last.
pub(crate) fn run<A: Allocator + Copy>(
    given: Given<'_>,
    memory: A,
    opened: &mut Option<Served<A>>,
    asked: &str,
    wanted: &str,
) -> Result<Counts, Stop> {
    if let ("open", link) = two_words(asked) {
        *opened = Some(open(memory, link)?);
        return run_word(given, "opened", wanted);
    }
    match opened {
        Some(server) => heard::run(given, memory, server, asked, wanted),
        None => Err(Stop::Unread(Part::Asked)),
    }
}
