//! A port on a network of BACnet/IP (ANSI/ASHRAE 135, Annex J): the datagrams of what a station says there, and the
//! messages in those that it hears.
//!
//! To the layers above it promises: each call puts out exactly the datagrams that the port's place asks for, to one
//! station, to each other member of its subnet, or to the manager that serves it; and hands up exactly the message
//! that a datagram carries. So it keeps the law of a `Link`. It reads no NPDU.
//!
//! - `port`: the port and its calls.
//! - `saying`: the datagrams that it puts out.
//! - `hearing`: the message that a datagram hands up.
//! - `linking`: the port as a link.
#![tactic(auto)]

mod hearing;
mod linking;
mod port;
mod saying;

pub use port::{IpPort, Reach};
