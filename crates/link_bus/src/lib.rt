//! A port on a bus of MS/TP (ANSI/ASHRAE 135, clause 9): what a station says there waits for the token, and the
//! messages in the frames that it hears.
//!
//! To the layers above it promises: what is handed down waits in the port's node, and each other call is one input of
//! that node, whose frames are put out; what is handed up are the data of a frame that the node hands up. So it keeps
//! the law of a `Link`. It refuses no octets: what is no frame is dropped. It reads no NPDU.
//!
//! - `port`: the port and its calls.
//! - `hearing`: the message in a frame.
//! - `linking`: the port as a link.
//! - `laws`: what data carry, for the proofs of the layers above.
#![tactic(auto)]

mod hearing;
mod laws;
mod linking;
mod port;

pub use laws::data_carry;
pub use port::BusPort;
