//! What can happen in a world (ANSI/ASHRAE 135, clauses 5.4, 6, 9, 12, 16.10 and J.5), by the names of its stations:
//! what a script asks for, a storm chooses and a world does. It is plain data.
//!
//! To the layers above it promises that an event is known as sound just where its request has a spelling.
//!
//! - `event`: what can happen. In `specs/Sound`: which events may be asked for.
#![tactic(auto)]

mod event;

pub use event::Event;
