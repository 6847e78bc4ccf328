//! What a station's application hears and says through the network layer (ANSI/ASHRAE 135, clauses 5.1 and 6.1, the
//! service N-UNITDATA).
//!
//! `hear` gives what an NPDU brings to a station: who says it, how an answer goes there, whether it came to this
//! station alone, and the APDU, or that a router refused a message. What a station says (`Say`) goes out by
//! `parcels_of`, and an unconfirmed request to all stations of all networks by `announced`. `begin` begins the NPDU of
//! an APDU, and `begin_global` that of one to all; the octets of the APDU are written behind it.
//!
//! To the layer above it promises: what is heard is the one thing that the octets bring there, and nothing is heard
//! where they bring nothing; what is heard is inside the message, for each station that hears it; what is said has the
//! header that its way asks for, and is inside it. Whether a message came to one station
//! alone, whether it asks for this device and whether a reply is expected are rules of their own, so that a wrong one
//! is refused here, before any state is read.
//!
//! - `hearing`: what an NPDU brings.
//! - `asking`: whether an unconfirmed request asks who this device is.
//! - `saying`: the header that an APDU is said behind, and whether a reply is expected to it.
//! - `parcels`: what a station says, in parcels.
//! - `sizes`: the longest APDU of each kind of link.
//! - `laws`: what holds of all that is heard, for the proofs of the layers above.
#![tactic(auto)]

mod asking;
mod hearing;
mod laws;
mod parcels;
mod saying;
mod sizes;

pub use asking::asks_who;
pub use hearing::{Heard, HeardContent, hear};
pub use laws::{
    brought_once, heard_and_said_is_inside, learnt_is_spelled, longest_is_of_link,
    spoken_is_brought,
};
pub use parcels::{Say, announced, parcels_of, push_parcel};
pub use saying::{begin, begin_global, expects_reply, is_spelled};
pub use sizes::longest_apdu;
