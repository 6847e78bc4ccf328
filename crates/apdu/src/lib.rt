//! APDUs: what the network layer carries between two applications (ANSI/ASHRAE 135, clauses 16.10,
//! 18.9, 18.10, 20.1 and 21).
//!
//! To the layers above it promises: what is read is the one APDU that the octets spell, its data the
//! named slice of them, and each refusal has its cause; what is written are the shortest octets that
//! spell the APDU, and where memory is wanted the buffer is as it was. The same of the two
//! unconfirmed services, Who-Is and I-Am.
//!
//! - `apdu`: the eight types of APDUs, with what each has, both ways.
//! - `pdu_type`, `sizes`: the numbers of the types, and what a requester can take.
//! - `numbers`: confirmed services, and the reasons of a Reject and an Abort.
//! - `service_error`: why a service failed, as an Error says it.
//! - `unconfirmed`: Who-Is and I-Am.
//! - `apdu_laws`: what holds of every spelling and number, for the proofs of the layers above.
#![tactic(auto)]

mod apdu;
mod apdu_laws;
mod numbers;
mod pdu_type;
mod service_error;
mod sizes;
mod unconfirmed;

pub use apdu::{Apdu, Segment};
pub use apdu_fields::{class_and_code_from, contents_of, tags};
pub use apdu_laws::{apdu_spelling, i_am_spelling, one_number, one_size, who_is_spelling};
pub use numbers::{AbortReason, ConfirmedService, RejectReason, UnknownService};
pub use pdu_type::PduType;
pub use service_error::{ObjectPropertyReference, ServiceError, write_class_and_code};
pub use sizes::{MaxApdu, MaxSegments};
pub use unconfirmed::{
    IAm, Limits, Segmentation, UnconfirmedService, WhoIs, i_am_from, who_is_from, write_i_am,
    write_who_is,
};
