//! Requests and replies in words, for programs that need no more of them than that they are read: what exactly the
//! words say, the contracts of `words` tell.

use crate::stop::Stop;
use primitives::{Reply, Request};
use std::alloc::Allocator;
use words::{parse_any_reply, parse_any_request};

/// The request that words say.
///
/// # Errors
/// `Unread` where they say none, `Memory`.
pub fn request_in<A: Allocator + Copy>(alloc: A, words: &str) -> Result<Request<A>, Stop> {
    Ok(parse_any_request(alloc, words)?)
}

/// The reply that words say.
///
/// # Errors
/// `Unread` where they say none, `Memory`.
pub fn reply_in<A: Allocator + Copy>(alloc: A, words: &str) -> Result<Reply<A>, Stop> {
    Ok(parse_any_reply(alloc, words)?)
}
