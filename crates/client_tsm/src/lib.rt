//! The client of transactions (ANSI/ASHRAE 135, clauses 5.4.1 and 5.4.4): requests, their repeats, and their answers.
//!
//! To the layer above it promises: each call is one step of a function on plain data, planned before anything changes.
//! An answer counts only from the station addressed, under an open invoke ID and with its service, before the end; a
//! whole one that counts gives the reply that it means. A moment is an argument, and what is said is told with its way.
//!
//! The states of a transaction (5.4.4), and what leads from one to another:
//!
//! ```text
//!              issue, in segments                issue, whole
//!     +------------------------------ IDLE -----------------------------+
//!     |                                ^                                |
//!     |            from each other state: the answer is whole,          |
//!     |      an Error, Reject or Abort is heard, or it is too late      |
//!     v                  all segments are acknowledged                  v
//! SEGMENTED_REQUEST -----------------------------------------> AWAIT_CONFIRMATION
//!   |  ^     |      <-----------------------------------------     |     |  ^
//!   +--+     |          no answer: said again in segments          |     +--+
//! a window   |                                                     |   no answer:
//! is said    |          a segment of the answer is heard           |   said again,
//!            +----------------> SEGMENTED_CONF <-------------------+   whole
//!                                   |  ^
//!                                   +--+ another segment of it
//! ```
//!
//! Here a transaction is IDLE where none is open under its invoke ID. An open one is in SEGMENTED_REQUEST while its
//! `sending` is `Some`, in SEGMENTED_CONF while its `gathering` is `Some`, and in AWAIT_CONFIRMATION while neither is.
//!
//! - `client`: the client, and what changes of it.
//! - `issuing`, `hearing`, `waking`: an issue, an APDU that is heard, a wake: what is planned, and the whole step.
//! - `transaction`, `gathering`: a request that has no end yet, and the segments of its answer; `opened`: one that a
//!   plan opens.
//! - `asking`, `said`, `plan`: what is said of a request; what is said, told and changed.
//! - `laws`: what holds of any client, for the proofs of the layers above.
#![tactic(auto)]

mod asking;
mod client;
mod gathering;
mod hearing;
mod issuing;
mod laws;
mod opened;
mod plan;
mod said;
mod transaction;
mod waking;

pub use bindings::{Accepts, Bound};
pub use client::ClientTsm;
pub use gathering::Gathering;
pub use laws::{counted_is_told, one_plan, planned_keep_apart, told_is_open, woken_are_ended};
pub use opened::OpenedTransaction;
pub use plan::{
    ClientTsmChange, ClientTsmIssued, ClientTsmPlan, ClientTsmTold, Outcome, TransactionOutcome,
};
pub use said::ClientSaid;
pub use transaction::Transaction;
