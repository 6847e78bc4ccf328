//! A search: which events, as few as can be, lead from a world to another one where something came about (ANSI/ASHRAE
//! 135, clauses 5.4, 6, 9, 12 and J): datagrams and frames are heard, late, again or never, time comes to deadlines,
//! stations wake, and devices restart.
//!
//! To the layer above it promises: each event that it tells is sound, so that a world may be asked for it. Which ones
//! it tells, and that there are none fewer, no contract says: whoever wants a proof makes them once more. It sees a
//! world by its public calls alone.
//!
//! It goes breadth first: all continuations of one event, then those of two, and so on. Of those that differ only by
//! the order in which stations of BACnet/IP act at one moment, one is looked at. Nothing else is taken for equal,
//! since what a station remembers isn't seen from outside.
//!
//! - `goal`: what is searched for.
//! - `choice`: what may happen next, as an event.
//! - `deadlines`: the moments that something waits for.
//! - `hearing`: which frames are heard next, at which station of their bus.
//! - `last`: what happened last, and what is no use behind it.
//! - `choosing`: all that may happen next in a world.
//! - `tree`: all that was looked at, each by the choice that led there.
//! - `searching`: the search.
#![tactic(auto)]

mod choice;
mod choosing;
mod deadlines;
mod goal;
mod hearing;
mod last;
mod searching;
mod tree;

pub use goal::Goal;
pub use searching::{Outcome, search};
