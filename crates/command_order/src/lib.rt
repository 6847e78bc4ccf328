//! What the words of a command line of `bacsite` ask for: the subcommand that clap finds in them, with the words behind
//! it, or why there is none.
//!
//! To the layer above it promises exactly that order, as the definitions of the command line's words have it.
//!
//! - `order`: what the command line asks for.
//! - `describing`: what the commands ask for that describe the program.
//! - `diagnosing`: what the command of a diagnosis asks for.
//! - `examples`: the examples of each command.
//! - `searching`: what the command of a search asks for.
//! - `simulating`: what the command of a simulation asks for.
//! - `starting`: what the command of a first site asks for.
//! - `storming`: what the command of a storm asks for.
//! - `words`: words that several commands have.
#![tactic(auto)]

mod describing;
mod diagnosing;
mod examples;
mod order;
mod searching;
mod simulating;
mod starting;
mod storming;
mod words;

pub use describing::Stating;
pub use diagnosing::Diagnosing;
pub use examples::EXAMPLES;
pub use order::{Checking, Explaining, LiveRun, Order, command, order_of};
pub use searching::Searching;
pub use simulating::{Outputs, Simulation};
pub use starting::Starting;
pub use storming::{Percents, Storming};
