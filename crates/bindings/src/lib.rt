//! What a client knows of devices, and takes of them: their bindings, from whom it takes an answer, and how long a
//! request to one may be (ANSI/ASHRAE 135, clauses 5.2.1, 5.4.1, 6.4.4, 16.10 and 20.1.2).
//!
//! To the client and its transactions it promises: each rule is the one that its clause states, over stations,
//! bindings and lengths alone, so that a wrong one is refused here, before any other state is read. An I-Am binds its
//! device and no other; a router that has no route to a network closes the bindings on it, each until a new I-Am.
//!
//! - `station`: from whom an answer is taken.
//! - `bound`: where a device is, and what it takes.
//! - `binding`: the devices that a client is bound to.
//! - `accepts`: what a client takes of an answer.
//! - `limits`: how long a request may be, and how it is cut.
#![tactic(auto)]

mod accepts;
mod binding;
mod bound;
mod limits;
mod station;

pub use accepts::{Accepts, accepts_of};
pub use binding::{Binding, binding_of, has_place, introduced, mark_refused, put_binding};
pub use bound::Bound;
pub use limits::{apdu_limit, begun, is_too_long};
pub use station::is_same_station;
