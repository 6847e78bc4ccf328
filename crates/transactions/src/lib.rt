//! Transactions (ANSI/ASHRAE 135, clause 5.4), under one name: who asks, and who executes once and remembers.
//!
//! `client_tsm` and `server_tsm` are the two state machines; this crate gives both on with all that their calls name,
//! for the layers that are no part of them.
#![tactic(auto)]

pub use client_tsm::{
    Accepts, Bound, ClientSaid, ClientTsm, ClientTsmChange, ClientTsmIssued, ClientTsmPlan,
    ClientTsmTold, Gathering, Outcome, Transaction, TransactionOutcome,
};
pub use remembered::{Asker, Record, RememberedAnswer};
pub use server_tsm::{
    AnswerLimits, Asked, Executed, Origin, QuietChange, RequestGathering, Saying, ServerPlan,
    ServerPlanSaid, ServerSaid, ServerTold, ServerTsm, write_whole,
};
