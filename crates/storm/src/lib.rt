//! Storms: what happens in a world at random (ANSI/ASHRAE 135, clauses 5.4, 9, 15, 16.10 and J): which event comes
//! next, by a generator that one number seeds. Clients issue requests and ask who is there; what was put out is
//! delivered, lost, repeated, late or damaged; time comes to the moments of deadlines and one beside them; stations
//! wake, register and restart.
//!
//! To the layer above it promises: each event is sound, so that a world may be asked for it, whatever the world is.
//! Which one it is, no contract says. It sees a world by its public calls alone, and tells equal events of equal worlds
//! where the seed is equal, also of a world that forgets.
//!
//! - `chances`, `percent`: how often what happens.
//! - `dice`: what is drawn from the generator.
//! - `storm`: a storm, and its next event.
//! - `asking`: what begins: issues, Who-Is, registrations and restarts.
//! - `requests`, `writes`: sound requests of the objects that a device has, and of some that it lacks.
//! - `items`, `frames`: which datagram, and which frame at which station of its bus, comes next.
//! - `ticks`: how many milliseconds pass.
//! - `wakes`: which station wakes.
#![tactic(auto)]

mod asking;
mod chances;
mod dice;
mod frames;
mod items;
mod percent;
mod requests;
mod storm;
mod ticks;
mod wakes;
mod writes;

pub use chances::Chances;
pub use percent::Percent;
pub use simulator::{Internetwork, SaidMessage};
pub use storm::Storm;
pub use ticks::LATEST_ENTRIES;
