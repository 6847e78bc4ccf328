//! What holds of all that a router says, for the proofs of the layers above. A function without a body is a law: its
//! contract.

ghost use Rattle.router.specs.Laws.{HeardOnce, RouterAnnounces, RouterKeeps, RouterPassesOn};

use std::alloc::Allocator;

/// Each parcel that goes out leaves from the router's own address on that port. It is made of the one that was heard,
/// with its stamp, or has nothing inside; at a wake it has nothing inside (6.2.4, 6.5.2).
pub fn passes_on<A: Allocator>()
    ensures heard { RouterPassesOn A }
    ensures woken { RouterAnnounces A }
{}

/// What comes of a parcel is one thing (6.5).
pub fn heard_once<A: Allocator>()
    ensures { HeardOnce A }
{}

/// Its ports stay, and it learns no more routes than it knows, and none to a network of its own (6.6.1).
pub fn keeps<A: Allocator>()
    ensures { RouterKeeps A }
{}
