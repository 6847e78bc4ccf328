//! What a capture shows of the traffic on networks and buses (ANSI/ASHRAE 135, clauses 5.4, 6, 9 and 20.1 and Annex J):
//! each confirmed request followed to its end, the stations that speak, how long answers take, and what no plant should
//! show.
//!
//! To the layer above it promises that it takes any packet, and that each packet that a finding names was taken. What
//! is counted and found is shown by rows, and isn't proved.
//!
//! - `diagnosis`: what is known, packet by packet.
//! - `stations`: stations, and the networks of routers. `sighting`: packets that are captured twice.
//! - `summary`, `tables`: what is printed.
#![tactic(auto)]

mod diagnosis;
mod sighting;
mod stations;
mod summary;
mod tables;

pub use diagnosis::Diagnosis;
pub use diagnosis_parts::Settings;
pub use stations::Route;
pub use summary::print_summary;
pub use tables::{print_stations, print_transactions};
