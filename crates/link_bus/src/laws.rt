//! What holds of every frame that a port puts out, beside the law of a link. A function without a body is a law: its
//! contract.

ghost use Rattle.link_bus.specs.Laws.{DataCarry};

use std::alloc::Allocator;

/// The data that a node puts out of a parcel that waits carry that parcel.
pub fn data_carry<A: Allocator>()
    ensures { DataCarry A }
{}
