//! The program `rows_command_line`: rows on command lines of `bacsite` (ANSI/ASHRAE 135, clauses 5.4, 6, 9, 12, 15,
//! 16.10 and J). It reads the files of its folder `data`, and prints what comes of each. Its live runs open sockets,
//! each at a port that is free.
//!
//! - `lines`: command lines, what they print, and their exit status, also where a writer fails.
//! - `files`: command lines, and what they do to files, also where a call fails.
//! - `disk`: files in memory, of which a call may fail.
//! - `hosted`: live runs on this host with an address that is taken, and with their capture in a file.
//! - `narrow`: command lines over a standard output that is full or closed.
#![tactic(auto)]

mod disk;
mod files;
mod hosted;
mod lines;
mod narrow;

use lines::CommandLines;
use std::io;

fn main(rt: HostRuntime) -> io::Result<()> {
    sheets::run_files::<CommandLines>(&rt)?;
    hosted::run_all(&rt)
}
