//! The header of the network layer's messages (ANSI/ASHRAE 135, clause 6.2).
//!
//! `View::read` gives the header that octets spell as slices of them, and refuses all others with the cause;
//! `write` appends the canonical octets of a header. A `Parcel` is such a message on its way over one network.
//! To the layer above it promises: what is read is the one header that the octets spell, each field being its
//! own slice; what is written is spelled by the octets appended, and read again to the same fields.
//! Modules: `mac` (link addresses, stations, targets, ways), `parcel`, `priority`, `message` (types of network
//! messages), `rejected` (the contents of a Reject-Message-To-Network), `view` (a header and its parts), `fields`
//! and `header` (reading and writing them), `laws`.
#![tactic(auto)]

mod fields;
mod header;
mod laws;
mod mac;
mod message;
mod parcel;
mod priority;
mod rejected;
mod view;

pub use header::write;
pub use laws::{canonical_is_shortest, initial_hop_count, one_header, one_station, station_order};
pub use mac::{Mac, Station, Target, Way};
pub use message::{Message, NetworkRejectReason};
pub use parcel::Parcel;
pub use priority::Priority;
pub use rejected::Rejected;
pub use view::{Destination, Dnet, INITIAL_HOP_COUNT, Source, View};
