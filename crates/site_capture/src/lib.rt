//! What is put out in a run of a site, of a script or live, as a capture: each datagram and each frame with its moment,
//! in one file of pcapng (ANSI/ASHRAE 135, Annex J and clause 9.3).
//!
//! To the layer above it promises that it returns. What stands in the file is shown by rows and by an outside reader,
//! and isn't proved.
//!
//! - `capturing`: the steps of a script, and what each puts out.
//! - `living`: a live run, and what each of its turns puts out.
//! - `putting`: what is written of a site's datagrams and frames. `hosts`: the names of its stations. `fate`: what
//!   becomes of a datagram.
#![tactic(auto)]

mod capturing;
mod fate;
mod hosts;
mod living;
mod putting;

pub use capturing::capture;
pub use living::LiveCapture;
pub use site_live::{Ending, Settings, Stop, run_over_udp, run_over_udp_observed, say_stop};
pub use site_steps::{
    Simulated, Spelling, Telling, Verdicts, plain_steps, simulate, simulate_judged, simulate_told,
    simulate_traced,
};
