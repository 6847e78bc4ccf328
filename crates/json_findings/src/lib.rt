//! What a capture shows, as objects of JSON (RFC 8259), each on a line of its own: what is found, what is counted, and
//! the tables of requests and stations. Services, properties and segmentation have the standard's numbers.
//!
//! To the layer above it promises that it returns. Which members an object has is shown by rows, and isn't proved.
//!
//! - `finding`: what is found. `counts`: what is counted. `tables`: requests, stations and networks.
//! - `members`: members that several of them have.
#![tactic(auto)]

mod counts;
mod finding;
mod members;
mod tables;

pub use counts::write_counts;
pub use finding::write_finding;
pub use tables::{write_stations, write_transactions};
