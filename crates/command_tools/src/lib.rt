//! What is done for the commands that run no site: a datagram or a capture is taken apart, a script mended, the
//! conformance statement, completions and a man page printed, a first site written.
//!
//! To the layer above it promises which status comes, and of `explain` what is printed.
//!
//! - `describing`: what is done for those of a datagram or a capture, and of the conformance statement.
//! - `json`: what is done behind lines that are printed as JSON.
//! - `mending`: what is done for that of a script whose spaces are mended.
//! - `pages`: what is done for those of completions and of the man page.
//! - `spelling`: whether the standard's numbers are printed, or its names.
//! - `starting`: what is done for that of a first site.
#![tactic(auto)]

mod describing;
mod json;
mod mending;
mod pages;
mod spelling;
mod starting;

pub use describing::{explain, print_statement};
pub use json::ended;
pub use mending::print_mended;
pub use pages::{print_completions, print_page};
pub use spelling::spelling_of;
pub use starting::begin;
