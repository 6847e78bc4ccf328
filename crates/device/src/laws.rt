//! What holds of any device, for the proofs of the layers above. A function without a body is a law: its contract.

ghost use Rattle.device.specs.Laws.{HeardOnce, ServicesAreSupported};

use std::alloc::Allocator;

/// A parcel is heard in one way: what is said and executed, and what the device is then, is one thing.
pub fn heard_once<A: Allocator>()
    ensures { HeardOnce A }
{}

/// Protocol_Services_Supported has its bits set exactly for the services that a device executes (12.11.13): the
/// confirmed ones that have a name in this product, and Who-Is.
pub fn services_are_supported<A: Allocator>()
    ensures { ServicesAreSupported A }
{}
