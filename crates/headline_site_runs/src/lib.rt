//! Worked examples of the promise over all stations: runs of fair events that compute. For tests alone; nothing stands
//! on it.
//!
//! - `specs/Small`, `Heard`: a site of one client and one device on one network, and what is said there; `Long`: the
//!   same with a long answer.
//! - `proofs/`: runs of it that compute, each a fair one: nobody answers (`Silence`), an answer is lost (`Lost`), the
//!   device restarts (`Restart`), the answer comes in segments (`Segments`); `Begins`: where they begin.
#![tactic(auto)]
