//! What sends and receives datagrams of BACnet/IP (ANSI/ASHRAE 135, clause J.1.2): the only sockets of the product.
//!
//! To the layer above it promises: each call counts, and one that fails counts as a fault besides; `Wire` (14) is the
//! only refusal; what the latest `recv` brought stays until the next one, and is none where that brought nothing or
//! failed. What the network does with a datagram is no matter of it. Inside, only the socket whose turn it is is asked,
//! and by `no_socket_starves` none that the system told of waits for ever; the socket that is found for a sender has
//! its address. Which octets the system sends or receives at a socket, no clause says.
//!
//! - `wire`: what a wire is, whatever it sends over.
//! - `udp`: one of UDP, with a socket for each address of a site. `socket`: such a socket; `ends`: its address in the
//!   system's form; `turns`: whose turn it is among them; `receiving`: what they have.
#![tactic(auto)]

mod ends;
mod receiving;
mod socket;
mod turns;
mod udp;
mod wire;

pub use turns::{Turns, no_socket_starves};
pub use udp::UdpWire;
pub use wire::{Got, Wire};
