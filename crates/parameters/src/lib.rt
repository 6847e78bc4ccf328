//! What each tag of a service's data is: which parameter, and what it says in words (ANSI/ASHRAE 135, clauses 15, 16,
//! 20.2 and 21).
//!
//! To the layer above it promises: of each tag that stands where a production has a parameter, which one that is, and
//! its words: `integer-value,1`, `present-value`, `index 3`, `enum active`.
//!
//! - `within`: which opening tags a tag stands behind.
//! - `productions`: the parameters of each service, by where they stand.
//! - `position`: where a tag stands, and what was said before it.
//! - `notes`: what a tag says in words.
#![tactic(auto)]

mod notes;
mod position;
mod productions;
mod within;

pub use notes::{Known, Note};
pub use position::Position;
pub use productions::{Parameter, Row, Which, production};
pub use within::Within;
