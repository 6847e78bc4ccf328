//! A capture that is read to its end, and what those packets show that are asked for.
//!
//! To the layer above it promises that it comes to an end of any file, and that each packet that a finding names is in
//! the capture. Of some stations it finds what it finds of all, so that nothing seems wrong since packets of others are
//! left out. What is found and printed is shown by rows, and isn't proved.
//!
//! - `reading`: a capture that is read. `diagnosed`: what is known of it, packet by packet.
//! - `concern`: whom a finding is about. `told`: what is printed, as lines or as JSON.
#![tactic(auto)]

mod concern;
mod diagnosed;
mod reading;
mod told;

pub use diagnosed::Diagnosed;
pub use reading::{Request, Telling, diagnose};
pub use told::{Form, print_counted, print_found, print_requests, print_senders};
