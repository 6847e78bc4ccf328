//! Moments by place, of which the first one that has come is found without a look at each: they are kept in blocks, each
//! with a moment that none of it is earlier than.
//!
//! To its callers it promises: a contract sees the list of the moments, and what is found is the first that has come from
//! a place on. Only `new` takes memory.
//!
//! - `times`: the moments and their calls.
#![tactic(auto)]

mod times;

pub use times::DueTimes;
