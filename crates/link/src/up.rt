//! A message of the network layer as it comes up from a network.

ghost use Rattle.std.specs.Prelude.{◌≡◌, IfOk};
ghost use Rattle.link.specs.Up.{parcel_of};

use npdu::{Mac, Parcel, Target};
use std::alloc::{AllocError, Allocator};
use tags::Octets;

/// A message that comes up from a network, as a `Parcel` whose NPDU is a slice of the octets that were heard.
#[derive(Clone, Copy)]
pub struct Up<'o> {
    /// The station on this network that sent it.
    pub from: Mac,
    /// For whom on this network it is.
    pub to: Target,
    /// The header and what stands behind it.
    pub npdu: &'o [u8],
    /// The moment at which the message was said, in milliseconds.
    pub stamp: u64,
}

impl<'o> Up<'o> {
    /// Returns the same message in memory of `alloc`, to be kept.
    ///
    /// # Errors
    /// Want of memory.
    pub fn to_parcel<A: Allocator>(self, alloc: A) -> Result<Parcel<A>, AllocError>
        ensures { IfOk result (λ parcel. parcel ≡ parcel_of self.entry) }
    {
        Ok(Parcel {
            from: self.from,
            to: self.to,
            npdu: Octets::from_slice(alloc, self.npdu)?,
            stamp: self.stamp,
        })
    }
}
