//! 100,000 requests at a site whose world forgets, one behind another, each with its answer (ANSI/ASHRAE 135, clauses
//! 5.4 and J). Behind each round the world hands its history out and forgets. What it keeps then, no contract says: it
//! must be no more than what a second needs, and what the tables of clients and devices do, however many requests there
//! were before. In the folder `weeks`:
//!
//! - `site.site`: the site; `meeting.script`: the client learns where the device is; `round.script`: a request, 300 ms,
//!   and the wakes of both.
//!
//! The program `rows_storm` runs them.
//!
//! - `weeks`: the requests, and what is kept.
#![tactic(auto)]

mod weeks;

pub use weeks::run_weeks;
