//! What a router heard.

use npdu::{Mac, Station, Target, View};
use std::alloc::Allocator;

/// A message that came at a moment, in milliseconds, on a port, where the router is this station. Its octets stay where
/// they lie; what goes out of it takes memory of `alloc`.
#[derive(Drop)]
pub(crate) struct Heard<'a, A: Allocator> {
    pub alloc: A,
    pub moment: u64,
    pub port: usize,
    pub at: Station,
    pub from: Mac,
    pub to: Target,
    pub npdu: &'a [u8],
    pub stamp: u64,
    pub view: View<'a>,
}
