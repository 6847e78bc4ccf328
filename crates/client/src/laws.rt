//! What holds of any client and its bindings, for the proofs of the layers above. A function without a body is a law:
//! its contract.

ghost use Rattle.client.specs.Laws as spec;

use std::alloc::Allocator;

/// An I-Am sets the binding of its instance and no other.
pub fn put_is_held()
    ensures held { spec.PutIsHeld }
    ensures others { spec.OthersStay }
{}

/// A router that has no route to a network marks just the bindings on it.
pub fn marked_alone()
    ensures { spec.MarkedAlone }
{}

/// No instance has two bindings, if none had before.
pub fn once()
    ensures put { spec.PutIsOnce }
    ensures marked { spec.MarkedIsOnce }
{}

/// A parcel is heard in one way: what is said and told, and what the client is then, is one thing.
pub fn heard_once<A: Allocator>()
    ensures { spec.HeardOnce A }
{}
