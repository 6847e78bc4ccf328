//! What comes of an input.

ghost use Rattle.std.specs.Prelude.{◌≡◌};
ghost use Rattle.site_node.specs.Part as spec;

use client::{ClientTold, TransactionOutcome};
use device::{DeviceTold, Executed};
use npdu::Parcel;
use std::alloc::Allocator;
use tags::Items;

/// What comes of an input.
#[derive(Drop)]
pub struct PartTold<A: Allocator> {
    /// What is said, in order.
    pub said: Items<Parcel<A>, A>,
    /// The request that a device executed, if it did: its asker, and what the objects replied.
    pub executed: Option<Executed<A>>,
    /// What came of a client's transactions, in order.
    pub outcomes: Items<TransactionOutcome<A>, A>,
}

/// Returns what a device told.
pub(crate) fn by_device<A: Allocator + Copy>(alloc: A, told: DeviceTold<A>) -> PartTold<A>
    ensures { result ≡ spec.by_device told }
{
    PartTold {
        said: told.said,
        executed: told.executed,
        outcomes: Items::new(alloc),
    }
}

/// Returns what a client told.
pub(crate) fn by_client<A: Allocator + Copy>(told: ClientTold<A>) -> PartTold<A>
    ensures { result ≡ spec.by_client told }
{
    PartTold {
        said: told.said,
        executed: None,
        outcomes: told.outcomes,
    }
}

/// Returns what is told where this is said alone.
pub(crate) fn says<A: Allocator + Copy>(alloc: A, said: Items<Parcel<A>, A>) -> PartTold<A>
    ensures { result ≡ spec.says said }
{
    PartTold {
        said,
        executed: None,
        outcomes: Items::new(alloc),
    }
}
