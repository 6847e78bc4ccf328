//! Whether a reply answers a request: `read 5:1 85 | done -> no answer`.

use services::is_answer_to;
use sheets::{Counts, Part, Stop, reply_in, request_in, run_text};
use std::alloc::{Allocator, Global};

/// Runs a row.
pub(crate) fn run(alloc: Global, asked: &str, wanted: &str) -> Result<Counts, Stop> {
    let Some((request, reply)) = asked.split_once(" | ") else {
        return Err(Stop::Unread(Part::Asked));
    };
    let found = if is_answer(alloc, request, reply)? {
        "an answer"
    } else {
        "no answer"
    };
    run_text(String::from_str(alloc, found)?, wanted)
}

/// Whether a reply answers a request, both in words.
fn is_answer<A: Allocator + Copy>(alloc: A, request: &str, reply: &str) -> Result<bool, Stop> {
    let request = request_in(alloc, request)?;
    let reply = reply_in(alloc, reply)?;
    Ok(is_answer_to(&request, &reply))
}
