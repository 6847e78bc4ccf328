//! What is done for the command of a diagnosis: a capture is read, and what it shows is printed.
//!
//! To the layer above it promises which status comes.
//!
//! - `diagnosing`: what is done for the command line. `excerpts`: which packets it is of.
//! - `naming`: the names of a site. `reporting`: a page.
#![tactic(auto)]

mod diagnosing;
mod excerpts;
mod naming;
mod reporting;

pub use diagnosing::diagnose;
