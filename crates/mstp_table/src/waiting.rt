//! What waits in a master node.

use std::alloc::Allocator;
use tags::Octets;

/// An NPDU that waits for the token. Its source is the node itself.
#[derive(Drop)]
#[derive_where(Debug, PartialEq, Eq)]
pub struct Waiting<A: Allocator> {
    /// The address of the node that it is for; 255 is all.
    pub destination: u8,
    /// The header and what stands behind it.
    pub npdu: Octets<A>,
    /// The moment at which the message was said, in milliseconds.
    pub stamp: u64,
}
