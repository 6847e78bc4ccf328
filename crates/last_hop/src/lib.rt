//! The last hop of a request and of its answer: which message of which request a station receives, on the last network
//! of its way (ANSI/ASHRAE 135, clauses 5.4, 6.2, 9.3, 20.1 and J.2).
//!
//! To the layer above it promises: a message is told of exactly where the octets bring one to that station, with who
//! asks whom under which invoke ID and the segment that it is; and which issue of a history has which invoke ID.
//!
//! - `part`: a message of a request, from its APDU.
//! - `hearing`: what is in a datagram and in a frame.
//! - `issues`: the invoke IDs of issues.
#![tactic(auto)]

mod hearing;
mod issues;
mod part;

pub use hearing::{heard_in_datagram, heard_in_frame};
pub use issues::{IssueKey, issue_key};
pub use part::{HeardPart, Invocation, RequestOrAnswer};
