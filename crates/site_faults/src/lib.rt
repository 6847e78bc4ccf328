//! What is wrong with the parts of a site, told so that it can be mended: each fact of a sound site that fails, with
//! the stations or networks that break it (ANSI/ASHRAE 135, clauses 3.2, 6, 9, 12 and J).
//!
//! To the layer above it promises: parts are judged sound exactly where they are a sound site. Which sentences tell of
//! what, and of which parts, rows show.
//!
//! - `told`: what is told, with its texts, and who is told it.
//! - `part`: the parts of a site, as faults are about them.
//! - `shown`: names, rows and addresses, as they stand in what is told.
//! - `networks`: how many, and their numbers.
//! - `names`: names of stations.
//! - `roles`: what stations have to be, and their order.
//! - `links`: each place fits its network.
//! - `devices`: how many, and their objects.
//! - `marks`: what may occur once.
//! - `managers`: broadcast managers, and the foreign devices that register there.
//! - `tree`: networks and routers as one tree.
//! - `parts`: all facts of a site.
#![tactic(auto)]

mod devices;
mod links;
mod managers;
mod marks;
mod names;
mod networks;
mod part;
mod parts;
mod roles;
mod shown;
mod told;
mod tree;

pub use part::{Part, Subject};
pub use parts::tell_faults;
pub use told::{Fault, Listener};
