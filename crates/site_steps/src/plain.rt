//! The script of all that happened in a run, event by event.

use crate::watching::{Watcher, watch};
use site_run::{Event, EventLine, Spelling, Stop, World};
use std::alloc::{Allocator, Global};
use std::fmt;
use std::io::Write;
use tags::Fault;

/// The lines of all events.
#[derive(Drop)]
struct Plain<A: Allocator> {
    lines: Vec<u8, A>,
}

impl<A: Allocator + Copy> Watcher<A> for Plain<A> {
    fn begin(&mut self, _world: &World<A>) -> Result<(), Fault> {
        Ok(())
    }

    fn make(&mut self, world: &mut World<A>, event: &Event<A>) -> Result<(), Fault> {
        let spelling = Spelling::Numbers;
        put_line(&mut self.lines, &EventLine { event, spelling })?;
        // what is refused changes nothing, and is refused again
        let _ = world.step(event);
        Ok(())
    }

    fn refuse(&mut self, _world: &World<A>, n: u64, _fault: Fault) -> Result<(), Fault> {
        put_line(&mut self.lines, &format_args!("flow {n}"))
    }

    fn end(&mut self, _world: &World<A>) -> Result<(), Fault> {
        Ok(())
    }
}

/// Puts a line behind others.
fn put_line<A: Allocator, T: fmt::Display>(lines: &mut Vec<u8, A>, line: &T) -> Result<(), Fault> {
    match writeln!(lines, "{line}") {
        Ok(()) => Ok(()),
        Err(_) => Err(Fault::Memory),
    }
}

/// The script of all that happened where a script was run on a site: a line for each event, with what faults of the
/// network made of flows, and for each flow that was refused. It comes to the same history. The document is read in
/// memory of `reading`.
///
/// # Errors
/// Those of `site_run::open`, and `Memory`.
pub fn plain_steps<A: Allocator + Copy>(
    reading: Global,
    alloc: A,
    site: &[u8],
    script: &[u8],
) -> Result<Vec<u8, A>, Stop> {
    let mut plain = Plain {
        lines: Vec::new(alloc),
    };
    watch(reading, alloc, site, script, &mut plain)?;
    let Plain { lines } = plain;
    Ok(lines)
}
