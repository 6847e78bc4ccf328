//! The program `bench`: how long calls take, by the clock.
//!
//! Without words it makes each call a few times and says what came of them. With `--times` it makes each one often
//! and prints the nanoseconds of one call in the best of several runs.
//!
//! - `clock`: the time of a call.
//! - `devices`: what a device decodes and answers.
//! - `flows`: a ring on a bus, and chains of networks, that are left to themselves.
//! - `frames`: the check of data, and hearing a frame, over 500 octets.
//! - `managers`: what a broadcast manager forwards.
//! - `parts`: the parts of sites.
//! - `remembered_answers`: finding and executing, with 1, 8 and 64 remembered answers.
//! - `requests`: the events of a request on one subnet, and through a router.
//! - `sites`: judging a large site.
//! - `worlds`: what is done in worlds.
#![tactic(auto)]

mod clock;
mod devices;
mod flows;
mod frames;
mod managers;
mod parts;
mod remembered_answers;
mod requests;
mod sites;
mod worlds;

use crate::clock::Clock;
use std::{env, io};

fn main(rt: HostRuntime) -> io::Result<()> {
    let words: Vec<String> = env::args(&rt)?.collect(rt.alloc())?;
    let has_times = words
        .as_slice()
        .iter()
        .any(|word| word.as_str() == "--times");
    let clock = Clock { rt: &rt, has_times };
    remembered_answers::run(clock)?;
    frames::run(clock)?;
    managers::run(clock)?;
    devices::run(clock)?;
    sites::run(clock)?;
    requests::run(clock)?;
    flows::run(clock)
}
