//! The server of transactions (ANSI/ASHRAE 135, clauses 5.4.1 and 5.4.5): requests, whole or in segments, that are
//! executed once, and their answers, remembered and said again.
//!
//! To the layer above it promises: each call is one step of a function on plain data, and is planned before
//! anything changes; nothing is said, and no memory taken, after the objects changed. A request whose answer is
//! remembered is answered from there and not executed. The server knows no clock and no network: a moment is an
//! argument, and what is said is told with its way.
//!
//! - `server`: the server, and what changes of it.
//! - `hearing`, `sending`, `waking`: an APDU that is heard, an answer in segments, a wake: what is planned, and the
//!   whole step.
//! - `gatherings`: the requests of which segments came.
//! - `laws`: what holds of any server, for the proofs of the layers above.
//!
//! What is answered, and the plans, are of `server_answers`; their types are given on from here.
//!
//! The states of 5.4.5 for one asker, which is a station and an invoke ID:
//!
//! ```text
//!          +------+  the first segment   +-------------------+
//!     +--->| IDLE |--------------------->| SEGMENTED_REQUEST |
//!     |    |      |<---------------------|                   |
//!     |    +------+   too old, or Abort  +-------------------+
//!     |       | a whole request                    | the last segment
//!     |       v                                    v
//!     |    +-------------------------------------------------+
//!     |<---|                 AWAIT_RESPONSE                  |   rejected, or aborted
//!     |    +-------------------------------------------------+
//!     |       | executed: it is            | executed: it is answered
//!     |       | answered whole             | in segments
//!     |       v                            v
//!     |    +------------+   a repeat     +--------------------+
//!     |    | remembered |--------------->| SEGMENTED_RESPONSE |
//!     |    |            |<---------------|                    |   acknowledged, Abort, or no more retries
//!     |    +------------+                +--------------------+
//!     |       |                            |
//!     +-------+----------------------------+   too old: so long after its execution
//! ```
//!
//! What our state has of an asker in each:
//!
//! - IDLE: no record and no gathering.
//! - SEGMENTED_REQUEST: one of the `gatherings`.
//! - AWAIT_RESPONSE: nothing; it is passed through within one call, since objects reply at once.
//! - SEGMENTED_RESPONSE: one of the `records`, whose `sending` is `Some`.
//! - remembered, which is IDLE to the standard: one of the `records`, whose `sending` is `None`; a repeat of a request
//!   whose answer goes whole is answered from there, and leaves it so.
#![tactic(auto)]

mod gatherings;
mod hearing;
mod laws;
mod sending;
mod server;
mod waking;

pub use laws::{
    answer_is_whole, busy_is_full, dead_is_silent, deaf_does_nothing, full_is_aborted, one_plan,
    planned_stays_kept, repeat_is_said_again, stays_timely, whole_is_executed,
};
pub use server::ServerTsm;
pub use server_answers::{
    AnswerLimits, Asked, Executed, ObjectExecutor, Origin, QuietChange, RequestGathering, Saying,
    ServerPlan, ServerPlanSaid, ServerSaid, ServerTold, SlabRecords, WholeAnswer, write_whole,
};
