//! The program `rows_live`: rows on live runs (ANSI/ASHRAE 135, clauses 5.4, 9, 12, 15, 16.10 and J). It reads the
//! files of its folder `data`, and prints what comes of each. With `rows_command_line` it alone opens sockets: each at
//! a port that is free. Whatever is run, in one kind of memory: such that can be refused.
//!
//! - `udp`: scripts over UDP.
//! - `turns`: turns over memory, one by one, also where allocations are refused.
//! - `live`: live runs over memory.
//! - `captured`: captures of live runs over memory.
//! - `late`: live runs over memory whose rounds come late.
//! - `kept`: what long live runs keep of what is past.
//! - `failing`: live runs in which calls fail, datagrams are lost, and allocations are refused.
//! - `timer`: a clock that goes by its own steps.
#![tactic(auto)]

mod captured;
mod failing;
mod kept;
mod late;
mod live;
mod timer;
mod turns;
mod udp;

use std::io;

fn main(rt: HostRuntime) -> io::Result<()> {
    turns::run_all(&rt)?;
    live::run_all(&rt)?;
    captured::run_all(&rt)?;
    late::run_all(&rt)?;
    kept::run_all(&rt)?;
    failing::run_all(&rt)?;
    udp::run_all(&rt)
}
