//! Faults of the network, as a script asks for them: messages of a request that are lost, repeated, late or damaged,
//! and stations and networks that receive nothing for a while (ANSI/ASHRAE 135, clauses 5.4, 6 and 9, written for a
//! person to read). It is plain data.
//!
//! To the layers above it promises: a fault is what the words say, and words that are refused, but for want of memory,
//! say none; exactly the text of each; and which issue of a history is meant. Whether a station or a network is there,
//! it doesn't know.
//!
//! - `fault`: what happens on the network.
//! - `issued`: which issue of a history is meant.
//! - `reading`: a fault in words.
//! - `printed`: its words.
#![tactic(auto)]

mod fault;
mod issued;
mod printed;
mod reading;

pub use fault::{FaultyMessage, IssueRef, NetworkFault};
pub use issued::issue_number;
pub use last_hop::RequestOrAnswer;
pub use printed::StationName;
pub use reading::{parse_delay, parse_issue, parse_lose, parse_message, parse_station};
