//! Judging a site (ANSI/ASHRAE 135, clauses 3.2, 6, 9, 12 and J): as many networks, devices and objects as are given.

use crate::clock::{Clock, Often, Work};
use crate::parts::chain;
use site::is_sound;
use site_parts::Parts;
use std::alloc::{AllocError, Allocator};
use std::io;

/// How often a site is judged.
const OFTEN: Often = Often { few: 1, timed: 10 };

/// How many networks it has, each joined to the next by a router.
const NETWORKS: u16 = 250;

/// How many devices stand on its first network.
const DEVICES: u16 = 256;

/// How many objects each device has.
const OBJECTS: u32 = 8;

/// Judging parts.
#[derive(Drop)]
struct Judging<A: Allocator> {
    alloc: A,
    parts: Parts<A>,
}

impl<A: Allocator + Copy> Work for Judging<A> {
    fn go(&mut self, times: u64) -> Result<u64, AllocError> {
        let mut sound = 0u64;
        for _ in 0..times {
            sound = sound.saturating_add(u64::from(is_sound(self.alloc, &self.parts)?));
        }
        Ok(sound)
    }
}

/// Times judging a large site, and prints what came of it, or what it took.
///
/// # Errors
/// Those of the clock and of printing, and want of memory.
pub(crate) fn run(clock: Clock<'_>) -> io::Result<()> {
    let alloc = clock.alloc();
    let mut judging = Judging {
        alloc,
        parts: chain(alloc, NETWORKS, DEVICES, OBJECTS)?,
    };
    let name = format!(in alloc;
        "{NETWORKS} networks, {DEVICES} devices of {OBJECTS} objects judged"
    )?;
    clock.tell(OFTEN, name.as_str(), "sound", &mut judging)
}
