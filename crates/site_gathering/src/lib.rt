//! What happens in a run at a site, gathered as rows for whoever draws it: messages where they are sent and received,
//! the entries of the history, and refusals (ANSI/ASHRAE 135, clauses 5.4, 6, 9.3, 20.1 and Annex J).
//!
//! To the layer above it promises that it returns. What is gathered is shown by rows, and isn't proved.
//!
//! - `gathering`: what happens, row after row. `putting`: what is sent and received. `hearing`: received frames.
//! - `requests`: requests, and which messages belong to each.
//! - `part`: which part of a run is gathered. `finishing`: which rows of it stay.
//! - `places`: stations by their places in the site.
#![tactic(auto)]

mod finishing;
mod gathering;
mod hearing;
mod part;
mod places;
mod putting;
mod requests;

pub use gathering::{Datagram, Facts, Gathering, PutFrame, Restart};
pub use part::Part;
pub use places::{name_of, network_of, place_named};
pub use site_steps::{
    EndLine, EntryLine, Event, Spelling, Stop, Watcher, World, WorldEntry, counted, watch,
};
