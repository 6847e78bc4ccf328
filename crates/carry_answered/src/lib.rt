//! A request is answered, where nothing is lost (ANSI/ASHRAE 135, clauses 5.4.4, 5.4.5).
//!
//! The promise says that what comes is right; a world in which nothing is ever answered would keep it. This says the
//! other half: whatever was before, an issue to a device of the client's network that is ready, which is delivered to
//! it, and whose answer is delivered to the client, is executed and answered, once, with the reply of the device's
//! objects. It has no code. In `specs/`:
//!
//! - `Answered`: an exchange in which nothing is lost, and what it leaves of the history.
#![tactic(auto)]

ghost use Rattle.carry_answered.specs.Answered.{ExchangesAreAnswered};

use std::alloc::Allocator;

/// An exchange in which nothing is lost ends in the reply that the objects of its device give, whatever was before.
pub fn a_request_is_answered<A: Allocator>()
    ensures { ExchangesAreAnswered A }
{}
