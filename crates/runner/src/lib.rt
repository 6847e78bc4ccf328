//! A site live: an internetwork at a wire (ANSI/ASHRAE 135, clauses 6 and J.1.2).
//!
//! To the layer above it promises: a turn is the step of one event, or what the datagram leads to that the wire
//! brought, and nothing else. One that a station of the site sent at most 1000 ms ago is delivered; any other is
//! dropped, or, in an open runner, heard by its station. Whatever is put out is sent, all of it also where one sending
//! fails. As long as no stranger's datagram was heard, what turns leave is what events leave, so the history is legal.
//! It hands out and forgets where it is asked to: then that is so of the whole, and the entries that were handed out
//! with those that it has behind them are legal.
//!
//! - `runner`: what it keeps, and its turn.
//! - `turned`: what a turn comes to.
//! - `seeking`: which item a datagram is.
//! - `straying`: what is done with one that nobody of the site sent.
//! - `sending`: all that was put out is sent.
//! - `laws`: what holds of any number of turns.
#![tactic(auto)]

mod hearing;
mod laws;
mod runner;
mod seeking;
mod sending;
mod straying;
mod turned;

pub use hearing::{Heard, next_hear};
pub use laws::turns_are_steps;
pub use runner::Runner;
pub use simulator::{Event, Internetwork, World, WorldEntry};
pub use turned::Turned;
