//! What reading and answering a request decide (ANSI/ASHRAE 135, clauses 15, 18.9 and 20.1), and what executes
//! requests.
//!
//! To the bodies of the services, and to what keeps and says answers, it promises: each rule is the one that its clause
//! states, over a request and a reply, one reference or one reason, so that a wrong one is refused here, before any
//! octet is read; and what executes a request gives the object machine's reply, and leaves its table.
//!
//! - `answer`: in which PDU a reply goes, and whether what was read is about what was asked.
//! - `answers`: whether a reply is one to a request.
//! - `executor`: what executes requests, and the object machine that does.
//! - `stop`: why reading a body stops, and what comes of it.
#![tactic(auto)]

mod answer;
mod answers;
mod executor;
mod stop;

pub use answer::{Answer, ReplyPdu, answer_of, is_about, pdu_of};
pub use answers::is_answer_to;
pub use apdu;
pub use executor::{Executor, ObjectExecutor};
pub use stop::{Stop, reject_reason};
