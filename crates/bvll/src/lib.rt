//! The BACnet Virtual Link Layer of BACnet/IP (ANSI/ASHRAE 135, Annex J), which carries network
//! messages in datagrams of UDP and keeps the tables of broadcast managers.
//!
//! Promised to the layer above: [`Bvll::read`] answers exactly the datagram that the whole octets
//! spell, its NPDU a slice of them, takes no memory, and names the first cause of a refusal;
//! [`Bvll::write`] appends the one spelling, refuses memory alone, and then leaves the buffer as
//! it was; what is written is read again to the same fields ([`spelling`]).
//!
//! `datagram` reads and writes, `function` and `code` number the functions and results, `address`
//! and `entry` are what tables hold, and `table` goes through a table, in octets or in a list.
#![tactic(auto)]

mod address;
mod code;
mod datagram;
mod entry;
mod function;
mod laws;
mod table;

pub use address::{ADDRESS_OCTETS, Address};
pub use code::ResultCode;
pub use datagram::{BACNET_IP, Bvll, HEADER_OCTETS};
pub use entry::{DistributionEntry, ENTRY_OCTETS, ForeignDevice, TableEntry};
pub use function::Function;
pub use laws::spelling;
pub use table::{BvllTable, Iter};
pub use tags;
