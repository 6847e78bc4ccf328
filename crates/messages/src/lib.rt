//! What the messages on faulty texts share: the place in a file, with its line and a caret under its column; the word
//! that was meant where another was found; and a choice of words.
//!
//! To the layers above it promises that it returns. What is printed, rows show.
//!
//! - `report`: a message with its place.
//! - `excerpt`: the line of a text at an octet.
//! - `nearest`: the word that was meant.
//! - `choice`: words as a choice.
#![tactic(auto)]

mod choice;
mod excerpt;
mod nearest;
mod report;

pub use choice::Choice;
pub use excerpt::{Excerpt, excerpt_at};
pub use nearest::{Nearest, nearest_in};
pub use report::Report;
