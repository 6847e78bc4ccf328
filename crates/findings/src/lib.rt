//! What no plant should show, as a capture shows it: each finding with the packets that show it, the standard's clause,
//! and what to look at first (ANSI/ASHRAE 135, clauses 5, 6, 9, 12, 20 and Annex J).
//!
//! To the layer above it promises that each packet that a kept finding names was read, and that no finding leaves but
//! where all do. What is found is shown by rows, and isn't proved.
//!
//! - `kind`: what is found, with whom it is about. `name`, `meaning`: its name, its clause and what it means.
//! - `packets`, `finding`: the packets that show it. `findings`: those of a capture. `printing`: how they are printed.
#![tactic(auto)]

mod finding;
mod findings;
mod kind;
mod meaning;
mod name;
mod packets;
mod printing;

pub use finding::Finding;
pub use findings::Findings;
pub use kind::{Exchange, Kind, Layer, Milliseconds};
pub use name::{NAME_COUNT, NAMES, Name};
pub use packets::Packets;
pub use printing::{print_counts, print_kept};
