//! The command line of `bacsite`: what is done for its words.
//!
//! `run` does what they ask for (`command_order`) and answers the exit status. To the program above it promises which
//! status comes: that of the tool that is asked for, 0 for help, 2 for a fault of the command line, 1 for want of
//! memory.
//!
//! - `faults`: what is told of texts that are none.
//! - `living`: what is done for that of a live run.
//! - `program`: what is done for a command line.
//! - `searching`: what is done for that of a search.
//! - `simulating`: what is done for that of a simulation.
//! - `sockets`: which address of a site can't be bound.
//! - `spelling`: whether the standard's numbers are printed, or its names.
//! - `storming`: what is done for that of a storm.
//! - `until`: which words of `--until` a line may begin with.
#![tactic(auto)]

mod faults;
mod living;
mod program;
mod searching;
mod simulating;
mod sockets;
mod spelling;
mod storming;
mod until;

pub use command_files::{Files, Output, say_output_failure};
pub use command_tools::ended;
pub use program::run;
