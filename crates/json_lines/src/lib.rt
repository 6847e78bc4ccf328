//! The lines that `bacsite` prints, each as an object of JSON (RFC 8259) on a line of its own, with the same names and
//! numbers: those of a history (`sim`, `storm`, `run`), of `check` and of `explain`.
//!
//! To the layer above it promises that it returns, and that where no line is given nothing is written. Which object a
//! line becomes is shown by rows, and isn't proved; that an object has its commas, colons and escapes where they belong
//! is the promise of the library `json` that writes it. A line of a kind that isn't known here becomes `{"line":..}`,
//! so nothing is lost.
//!
//! - `writing`: line by line. `streaming`: as lines are printed.
//! - `line`: the words of a line. `stop`: why a line has no object of its own.
//! - `history`, `checking`, `explaining`: the lines of each kind.
//! - `requests`, `replies`, `values`: what lines of a history hold.
#![tactic(auto)]

mod checking;
mod explaining;
mod history;
mod line;
mod replies;
mod requests;
mod stop;
mod streaming;
mod values;
mod writing;

pub use streaming::JsonOut;
pub use writing::{Kind, write_json};
