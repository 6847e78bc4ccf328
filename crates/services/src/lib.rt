//! The bodies of the confirmed services (ANSI/ASHRAE 135, clauses 15, 18.9, 20.1 and 21). The APDUs
//! that carry them are those of `apdu`; what executes requests, and in which PDU a reply goes, is
//! that of `answers`, and stands here too.
//!
//! Of the requests it promises to the layers above: what is read is the one request that the body
//! spells, what is rejected spells none and is rejected for the first fault in reading order, what
//! is written is the shortest spelling and is read back.
//!
//! Of the replies: what is read of an answer is the one reply to the request that it spells, an
//! answer that spells none is told apart, what is written is the shortest spelling and is read back.
//!
//! - `fields`, `values`, `spelled`: the fields of a body, and lists of values and of parts.
//! - `request`, `multiple`: the requests, both ways, and the parts of those with several objects.
//! - `reply`, `acknowledgement`: the replies, both ways, and the service data of ComplexACKs.
//! - `laws`, `reply_laws`: what holds of every spelling, for the proofs of the layers above.
//! - `asked`: what the names stand for that steps of transactions mention.
#![tactic(auto)]

mod acknowledgement;
mod asked;
mod fields;
mod laws;
mod multiple;
mod reply;
mod reply_laws;
mod request;
mod spelled;
mod values;

pub use answers::{Answer, Executor, ObjectExecutor, ReplyPdu, answer_of, is_answer_to, pdu_of};
pub use asked::{
    left_by_is_after, replied_is_reply, request_octets_are_canonical, service_asked_is_service,
};
pub use laws::{
    one_request, rejected_is_none, rejected_once, request_is_shortest, request_is_spelled,
    request_reads_back,
};
pub use reply::{decode_reply, encode_reply};
pub use reply_laws::{
    meaning_reads_back, one_meaning, one_reply, reply_is_shortest, reply_is_spelled,
    reply_of_contents, reply_reads_back,
};
pub use request::{decode_request, encode_request, service_of};
