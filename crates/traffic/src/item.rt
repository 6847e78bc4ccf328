//! A datagram on its way.

ghost use Rattle.std.specs.Prelude.{◌≡◌, IfOk};

use npdu::Mac;
use std::alloc::{AllocError, Allocator};
use tags::Octets;

/// A datagram that was put out on a network of BACnet/IP (J.2). It arrives any number of times, or never.
#[derive(Drop)]
#[derive_where(Debug, PartialEq, Eq)]
pub struct Item<A: Allocator> {
    /// The number of the network.
    pub net: u16,
    /// The station on it that sent the datagram.
    pub from: Mac,
    /// The station on it that it goes to.
    pub to: Mac,
    /// The whole datagram.
    pub octets: Octets<A>,
    /// The moment at which the message in it was said, in milliseconds.
    pub stamp: u64,
    /// The moment at which it was put out, in milliseconds: not before its stamp.
    pub put_out: u64,
    /// Whether it was delivered.
    pub is_delivered: bool,
}

impl<A: Allocator + Copy> Item<A> {
    /// An equal item, in memory of `alloc`.
    ///
    /// # Errors
    /// Want of memory.
    pub fn copy(&self, alloc: A) -> Result<Self, AllocError>
        ensures { IfOk result (λ copy. copy ≡ self.now) }
    {
        Ok(Item {
            net: self.net,
            from: self.from,
            to: self.to,
            octets: self.octets.copy(alloc)?,
            stamp: self.stamp,
            put_out: self.put_out,
            is_delivered: self.is_delivered,
        })
    }
}
