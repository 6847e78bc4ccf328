//! A message of the network layer on its way over one network.

ghost use Rattle.std.specs.Prelude.{◌≡◌, IfOk};

use crate::mac::{Mac, Target};
use std::alloc::{AllocError, Allocator};
use tags::Octets;

/// A message between stations of one network: whole NPDU octets, from whom and for whom on the link.
#[derive(Drop)]
#[derive_where(Debug, PartialEq, Eq)]
pub struct Parcel<A: Allocator> {
    /// The station on this network that sends it.
    pub from: Mac,
    /// For whom on this network it is.
    pub to: Target,
    /// The header and what stands behind it.
    pub npdu: Octets<A>,
    /// The moment at which the message was said, in milliseconds.
    pub stamp: u64,
}

impl<A: Allocator + Copy> Parcel<A> {
    /// An equal parcel, in memory of `alloc`.
    pub fn copy(&self, alloc: A) -> Result<Self, AllocError>
        ensures { IfOk result (λ parcel. parcel ≡ self.now) }
    {
        Ok(Parcel {
            from: self.from,
            to: self.to,
            npdu: self.npdu.copy(alloc)?,
            stamp: self.stamp,
        })
    }
}
