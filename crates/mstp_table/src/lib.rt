//! The table of a master node of MS/TP (ANSI/ASHRAE 135, clause 9.5.6, Master Node Finite State Machine): its states,
//! what each input leads to, line by line, and what holds of every step. There is no code but enums: the table is a
//! definition, which `mstp_node` carries out.
//!
//! ```text
//!                Initialize
//!                    | made
//!                    v                 a request for it
//!   +------------> Idle -------------------------------------> Answer_Data_Request
//!   |             |  ^  |                                              |
//!   |             |  +--|--------- answered, or postponed -------------+
//!   | four        |     |
//!   | octets      |     | Token to it
//!   | heard       |     v         a request said
//!   |             |  Use_Token ------------------> Wait_For_Reply
//!   |     silence |   |     ^                            |
//!   |             |   |     | the next tick,             | a reply, or none
//!   |             |   v     | as sole master             |
//!   |             |  Done_With_Token <-----------------+
//!   |             v   |     |
//!   +------ No_Token  |     | a poll is due
//!   |             |   |     v
//!   |   its slot  +---|-> Poll_For_Master --- nobody replied, as sole master ---> Use_Token
//!   |                 |     |        ^
//!   |                 v     v        |
//!   +------------- Pass_Token -------+ not taken, though given again
//! ```
//!
//! From Wait_For_Reply and Poll_For_Master any other frame leads to Idle. A poll that is replied to, or that found
//! nobody where there is a next station, leads to Pass_Token.
//!
//! - `state`: the states, and whom a frame is for.
//! - `waiting`: what waits for the token.
//! - `laws`: what holds of every step, for the proofs of the layers above.
#![tactic(auto)]

mod laws;
mod state;
mod waiting;

pub use laws::{answers_who_asks, each_is_round, idles_until_due, keeps_place, queue_is_kept};
pub use state::{State, Whom};
pub use waiting::Waiting;
