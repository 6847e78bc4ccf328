//! The ladder of a run at a site, and a page that tells of the whole run: the picture, its history, and each message
//! taken apart (ANSI/ASHRAE 135, clauses 5.4, 6, 9.3, 20.1 and Annex J, written for a person to read).
//!
//! To the layer above it promises that [`ladder`] and [`report`] return. What they show is shown by rows, and isn't
//! proved.
//!
//! - `drawing`: the two calls.
//! - `lanes`: which stations have lanes, and where. `folding`: what becomes one row, pauses and shades.
//! - `page`, `page_requests`, `page_messages`: the page, and what it says of each request and of each message, whose
//!   octets `tree` tells and `equal` tells once. `found`: where it leads into the picture.
#![tactic(auto)]

mod drawing;
mod equal;
mod folding;
mod found;
mod lanes;
mod page;
mod page_messages;
mod page_requests;
mod tree;

pub use drawing::{ladder, report};
pub use site_gathering::{Part, Stop};
