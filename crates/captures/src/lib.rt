//! Captures of what went over networks and buses: files of pcap and pcapng, as Wireshark and tcpdump write and read
//! them (ANSI/ASHRAE 135, Annex J and clause 9.3, in IP of RFC 791 and UDP of RFC 768).
//!
//! To the layer above it promises of every file, whatever its octets are: a [`Capture`] in memory and a [`ChunkReader`]
//! of one that comes in chunks lend its packets one by one and come to an end, each packet is a datagram of BACnet/IP,
//! what stands for a frame of MS/TP, or none of both for a cause; memory is taken for the list of interfaces and, in
//! chunks, for one record or block at a time; what is written is one pcapng file, and where memory is wanted the buffer
//! is as it was. What a file's octets mean is shown by rows and by an outside reader, and isn't proved.
//!
//! - `octet_order`: numbers in both orders of octets. `files`: records of pcap, blocks of pcapng.
//! - `stamp`: when packets were captured. `reading`: what is known of a file that is read.
//! - `capture`: the packets of a file in memory. `chunks`: those of one that comes in chunks.
//! - `link`, `internet`: what stands in front of a datagram. `cause`: why a packet is passed over.
//! - `checksum`, `writing`: a file that is written.
#![tactic(auto)]

mod capture;
mod cause;
mod checksum;
mod chunks;
mod files;
mod internet;
mod link;
mod octet_order;
mod reading;
mod stamp;
mod writing;

pub use capture::Capture;
pub use cause::Cause;
pub use chunks::ChunkReader;
pub use files::MAX_BLOCK_OCTETS;
pub use internet::Datagram;
pub use link::LinkType;
pub use reading::{Carried, Packet};
pub use writing::{MAX_OCTETS, MAX_WORDS, write_datagram, write_frame, write_name, write_start};
