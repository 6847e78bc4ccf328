//! What the stations of a world are at, as a script asks for it: the objects and remembered answers of a device, the
//! bindings and open requests of a client, the routes of a router, the tables of a broadcast manager (ANSI/ASHRAE 135,
//! clauses 5.4, 6.6.1, 12, 16.10 and J.4, written for a person to read).
//!
//! To the layer above it promises: nothing changes; what is printed begins with the moment and the name, where a
//! station has it, and is a refusal where none has it or there is no memory. What else is told of a station, rows show.
//!
//! - `showing`: what the station of a name is at.
//! - `telling`: how each line begins.
//! - `devices`, `clients`, `routers`, `managers`: what is told of each of them.
//! - `answer`: an answer that is remembered, in words.
#![tactic(auto)]

mod answer;
mod clients;
mod devices;
mod managers;
mod routers;
mod showing;
mod telling;

pub use showing::print_state;
