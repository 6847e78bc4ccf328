//! What of a site and a script for it shows only when they run: steps that will be refused at their turn, requests that
//! come too early, and addresses that no station can have (ANSI/ASHRAE 135, clauses 5.4, 9, 16.10 and J). A text with
//! notes has no fault for them.
//!
//! To the layer above it promises that it returns, and tells whether there was a note. Which notes are told, rows show.
//!
//! - `note`: what is told, with its texts.
//! - `addresses`: addresses that no station can have.
//! - `steps`: the steps of a script.
//! - `ways`: ways between stations that lead over MS/TP networks.
//! - `telling`: both texts.
#![tactic(auto)]

mod addresses;
mod note;
mod steps;
mod telling;
mod ways;

pub use telling::tell_notes;
