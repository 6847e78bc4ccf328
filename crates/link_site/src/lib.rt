//! A port of a site, of either kind, as one link (ANSI/ASHRAE 135, clauses 6.1, 9 and Annex J): on a network of
//! BACnet/IP or on a bus of MS/TP. So a router may have ports of both.
//!
//! To the layers above it promises: each call is the step of the port that it is, exactly, and the port stays of its
//! kind; and the law of a `Link` holds. What goes over a network is a datagram where the sender's address has six
//! octets, and a frame where it has one. It reads neither.
//!
//! - `port`: the kinds of ports.
//! - `linking`: a port of either kind as a link.
//! - `laws`: what octets carry in the words of what is on its way, for the proofs of the layers above.
#![tactic(auto)]

mod laws;
mod linking;
mod port;

pub use laws::carried_is_borne;
pub use link_bus;
pub use port::SitePort;
