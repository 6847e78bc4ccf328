//! A site live, from two texts to what is printed of it (ANSI/ASHRAE 135, clauses 5.4, 6 and J.1.2, written for a
//! person to read): `bacsite run` without its command line.
//!
//! To the layer above it promises: with status 0 the one text is a TOML document of a sound site, and what was printed
//! tells, line by line, what came of turns of a runner at that site, one after another, each refusal at its place. Time
//! passes only once each station woke, in the order of the site, or was passed over, since nothing was due of it; and
//! by a millisecond, or over moments at which nothing is due of any, however late a round comes. As long as no
//! stranger's datagram was heard, what these turns leave is what events leave, so the history that is told is legal.
//! Which events come, and when, is the network's and the clock's to say.
//!
//! - `timer`: what tells the time.
//! - `step`: a step of a script as a live run takes it.
//! - `reading`: the lines of a script.
//! - `turning`: a turn, and what is printed of it.
//! - `lap`: how far a run has come round its site.
//! - `observer`: who looks on at a live run, as a capture does.
//! - `live`: a live run, round by round.
//! - `running`: the two texts, and the exit status.
#![tactic(auto)]

mod lap;
mod live;
mod observer;
mod reading;
mod running;
mod step;
mod timer;
mod turning;

pub use live::Live;
pub use observer::{Nobody, Observer};
pub use reading::live_steps_of;
pub use runner::Internetwork;
pub use running::{Ending, Opened, Settings, open, run, run_over_udp, run_over_udp_observed};
pub use site_history::{Stop, say_stop};
pub use timer::{SystemTimer, Timer};
pub use wire::Got;
pub use words::Spelling;
