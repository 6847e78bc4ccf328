//! Whether the networks and routers of a site form one tree: exactly one path is between any two stations of an
//! internetwork (ANSI/ASHRAE 135, clause 3.2).
//!
//! To the layer above it promises: networks and routers are told to form one tree exactly where whoever begins with a
//! network and follows the routers comes to all others, and no port closes a ring. It knows of stations their ports
//! alone.
//!
//! - `tree`: networks joined one after another, and ports counted.
#![tactic(auto)]

mod tree;

pub use tree::{has_no_ring, is_joined, is_one_tree};
