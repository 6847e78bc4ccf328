//! The parts of a diagnosis: who speaks with whom on a link, what an APDU is to the transaction that it belongs to, and
//! what is known of transactions and stations (ANSI/ASHRAE 135, clauses 5.4, 6.2, 16.10 and 20.1).
//!
//! To the layer above it promises that any octets are taken; what they are is shown by rows, and isn't proved.
//!
//! - `party`: who speaks with whom, as a link shows it. `heading`, `subject`: what an APDU is, and is about.
//! - `message`, `at`: what is told of one to whoever follows its transaction, and the packet that it stands in.
//! - `transaction`, `station`: what is known of one. `counts`, `settings`: what is counted, and what is asked.
//! - `times`: how long answers take. `digest`: a number that stands for octets. `naming`: names for what is printed.
#![tactic(auto)]

mod at;
mod counts;
mod digest;
mod heading;
mod message;
mod naming;
mod party;
mod settings;
mod station;
mod subject;
mod times;
mod transaction;

pub use at::At;
pub use counts::{PacketCounts, RequestCounts, raise};
pub use digest::digest_of;
pub use heading::{Heading, Outcome, SegmentsTaken, heading_of};
pub use message::{Answered, Asked, WentOn};
pub use naming::Named;
pub use party::{Key, LinkAddress, Party, Remote};
pub use settings::Settings;
pub use station::{Identity, Role, Station};
pub use subject::{Subject, subject_of};
pub use times::Times;
pub use transaction::{Before, FirstAnswer, Transaction};
