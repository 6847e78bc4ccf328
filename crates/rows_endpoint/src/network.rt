//! What carries broadcasts through an internetwork (Annex J).
//!
//! - `addresses`: addresses in words.
//! - `managers`: what a broadcast manager says, step by step.
//! - `spreading`: who hears a broadcast that goes through managers.

mod addresses;
pub(crate) mod managers;
pub(crate) mod spreading;
