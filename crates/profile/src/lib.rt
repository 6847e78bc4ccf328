//! The profile's own numbers, and what is too old: times in milliseconds, counts, sizes by kind of link (ANSI/ASHRAE
//! 135, clauses 5.4.1, 9.5.6, 12.11 and J). The lowest crate: it knows nothing of octets, objects or segments.
//!
//! To all crates above it promises: each number of the code is that of its definition, and each age is judged as its
//! rule says, over numbers alone, so that a wrong one is refused here.
//!
//! - `times`: waits, lifetimes, and the times of a master node.
//! - `limits`: counts and sizes.
//! - `link_kind`: the two kinds of link, and how long an APDU and an NPDU may be there.
//! - `ages`: what is too old.
#![tactic(auto)]

mod ages;
mod limits;
mod link_kind;
mod times;

pub use ages::{
    end_of_quiet, gathers_still, has_no_place, is_free, is_heard_in_time, is_in_time, lives,
};
pub use limits::{
    MAX_BINDINGS, MAX_DATAGRAM_OCTETS, MAX_DEVICES, MAX_FOREIGN_DEVICES, MAX_FRAME_DATA_OCTETS,
    MAX_GATHERINGS, MAX_LEARNED_ROUTES, MAX_NAME_OCTETS, MAX_NETWORKS, MAX_OBJECTS, MAX_PEERS,
    MAX_REMEMBERED, MAX_SEGMENTS_ACCEPTED, MAX_SERVICE_DATA_OCTETS, MAX_TEXT_OCTETS, N_MIN_OCTETS,
    N_POLL, N_RETRY_TOKEN, NUMBER_OF_APDU_RETRIES, WINDOW_SIZE, counts, sizes, token_counts,
    transaction_limits,
};
pub use link_kind::LinkKind;
pub use times::{
    APDU_SEGMENT_TIMEOUT_MS, APDU_TIMEOUT_MS, DEADLINE_MS, GATHERING_TIMEOUT_MS, GRACE_SECONDS,
    KEEP_MS, LIFE_MS, MAX_MOMENT_MS, MAX_TICK_MS, REUSE_MS, T_FRAME_ABORT_MS, T_NO_TOKEN_MS,
    T_REPLY_DELAY_MS, T_REPLY_TIMEOUT_MS, T_SLOT_MS, T_USAGE_TIMEOUT_MS, event_times, token_times,
    transaction_times,
};
