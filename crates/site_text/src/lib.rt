//! Site files: texts of TOML whose arrays of tables are the parts of a site: networks, broadcast managers, routers,
//! devices with their objects, and clients (ANSI/ASHRAE 135, clauses 3.2, 6, 9, 12 and J).
//!
//! To the layers above it promises: a text is read as a site only if it is a TOML document, and then the site is sound;
//! a text is refused as no document only if it is none, and for a key only if it is one. Which parts and which site a
//! document says, rows show. A document is read in memory of `Global`, and what is kept of it in the memory given.
//!
//! - `unread`: why a text has no parts.
//! - `row`: a row of a document, what stands under its keys, and what is wrong with one.
//! - `address`: addresses, as `127.0.0.1:47808`.
//! - `place`: where a station stands.
//! - `object`: the objects of a device.
//! - `stations`: networks and stations.
//! - `document`: the parts of a site, and the site itself.
#![tactic(auto)]

mod address;
mod document;
mod object;
mod place;
mod row;
mod stations;
mod unread;

pub use address::address_of;
pub use document::{parts_of, site_of};
pub use object::{BINARY, INSTANCE, INTEGER, STATES, UNITS};
pub use place::{MAC, NETWORK, SECONDS_TO_LIVE, SUBNET};
pub use row::Range;
pub use stations::VENDOR;
pub use unread::{BadKey, KeyFault, NoParts};
