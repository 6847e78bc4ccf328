//! The page of a capture: HTML that needs no other file and no script, with what is counted, how many requests and
//! broadcasts came and how long answers took over the capture, and each finding with a ladder of its packets.
//!
//! To the layer above it promises that it comes to an end of any file. What the page shows is shown by rows, and isn't
//! proved.
//!
//! - `page`: the page. `plot`: a picture of numbers over the capture. `rungs`: a ladder of some packets.
//! - `gathering`: what is gathered as the capture is read once more. `rates`, `answers`: numbers over the capture.
#![tactic(auto)]

mod answers;
mod gathering;
mod page;
mod plot;
mod rates;
mod rungs;

pub use page::write_report;
