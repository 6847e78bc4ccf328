//! What a server of transactions answers (ANSI/ASHRAE 135, clauses 5.2.1, 5.4.5.3 and 20.1): an answer, how long it may
//! be, how it is cut into segments, and what is planned for an input before anything changes.
//!
//! To the layer above it promises: an answer that is remembered is that of the request's reply, or an Abort where the
//! client doesn't take so much; its octets are those of the standard; and a plan tells what is said, executed and
//! changed, before anything is. It knows neither objects nor clock.
//!
//! - `asked`, `gathering`: who asks, and the segments of a request so far.
//! - `limits`: how long an answer may be, and how it is cut.
//! - `said`, `speaking`: what a server says, and its octets; it goes out as all that a station says.
//! - `answering`: what is answered with a reply, what is remembered of it, and how it is said.
//! - `plan`: what is said, executed and changed on an input.
//! - `restarting`: what a restart leaves.
#![tactic(auto)]

mod answering;
mod asked;
mod gathering;
mod limits;
mod plan;
mod restarting;
mod said;
mod speaking;

pub use answering::{kept_answer, push_answer, push_whole, push_window, recorded};
pub use asked::{AnswerLimits, Asked, Origin};
pub use gathering::RequestGathering;
pub use limits::{answer_chunk, begun, fitted};
pub use plan::{Executed, Planned, QuietChange, Saying, ServerPlan, ServerPlanSaid, ServerTold};
pub use remembered::{Asker, Record, Records, SlabRecords};
pub use restarting::restart;
pub use said::{ServerSaid, write_whole};
pub use services::{Executor, ObjectExecutor, decode_request};
pub use speaking::WholeAnswer;
