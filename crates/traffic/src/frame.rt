//! A frame that a station puts out on a bus.

use std::alloc::Allocator;
use tags::Octets;

/// A frame that a station puts out on a bus (9.3).
#[derive(Drop)]
pub struct FramePut<A: Allocator> {
    /// The number of the network.
    pub net: u16,
    /// The address of the station that puts it out.
    pub sender: u8,
    /// The whole frame.
    pub octets: Octets<A>,
    /// The moment at which the message in it was said, in milliseconds; where it carries none, that at which it is put
    /// out.
    pub stamp: u64,
    /// How many datagrams the same step puts out before it.
    pub behind: u64,
}
