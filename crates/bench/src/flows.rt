//! Sites that are left to themselves: a ring of devices on a bus (ANSI/ASHRAE 135, clause 9.5), and chains of networks
//! in which each router tells the others where it leads (6.6).

use crate::clock::{Clock, Often, Work};
use crate::parts::{chain, device, networks};
use crate::worlds::{flow, open};
use profile::LinkKind;
use simulator::World;
use site_parts::{Link, Parts};
use std::alloc::{AllocError, Allocator};
use std::{io, mem};
use tags::Items;

/// How many devices the ring has.
const NODES: u8 = 5;

/// In how many milliseconds it comes about.
const SETTLING: u64 = 10_000;

/// How many networks a chain has, and how many devices stand on its first.
const CHAINS: [(u16, u16); 3] = [(2, 1), (50, 49), (250, 256)];

/// What is told of a flow.
#[derive(Clone, Copy, Debug, PartialEq, Eq)]
enum Unit {
    /// What a millisecond takes.
    Millisecond,
    /// What an event takes.
    Event,
}

impl Unit {
    /// How many milliseconds pass.
    fn often(self) -> Often {
        let few = match self {
            Unit::Millisecond => 100,
            Unit::Event => 3,
        };
        Often { few, timed: 1_000 }
    }
}

/// A world that goes on, each time from the same on. It is not dropped: its world is closed.
struct Flowing<'w, A: Allocator + Copy> {
    opened: &'w World<A>,
    world: World<A>,
    unit: Unit,
}

impl<A: Allocator + Copy> Work for Flowing<'_, A> {
    fn prepare(&mut self, _times: u64) -> Result<(), AllocError> {
        let anew = self.opened.copy().map_err(|_| AllocError)?;
        mem::replace(&mut self.world, anew).close();
        Ok(())
    }

    fn go(&mut self, times: u64) -> Result<u64, AllocError> {
        flow(&mut self.world, times).map_err(|_| AllocError)
    }

    fn calls(&self, times: u64, came: u64) -> u64 {
        match self.unit {
            Unit::Millisecond => times,
            Unit::Event => came,
        }
    }
}

/// Times how a world goes on, and prints how many events that was, or what it took.
fn run_from<A: Allocator + Copy>(
    clock: Clock<'_>,
    name: &str,
    unit: Unit,
    opened: &World<A>,
) -> io::Result<()> {
    let world = opened.copy().map_err(|_| AllocError)?;
    let mut flowing = Flowing {
        opened,
        world,
        unit,
    };
    let run = clock.tell(unit.often(), name, "events", &mut flowing);
    let Flowing {
        world,
        opened: _,
        unit: _,
    } = flowing;
    world.close();
    run
}

/// So many devices on a bus.
fn ring<A: Allocator + Copy>(alloc: A) -> Result<Parts<A>, AllocError> {
    let mut stations = Items::new(alloc);
    for mac in 1..=NODES {
        let link = Link::Bus { network: 1, mac };
        stations.push(device(alloc, u16::from(mac), link, 1)?)?;
    }
    let networks = networks(alloc, 1, LinkKind::MsTp)?;
    Ok(Parts { networks, stations })
}

/// Times a millisecond of a ring once it has come about.
fn run_settled<A: Allocator + Copy>(clock: Clock<'_>, world: &mut World<A>) -> io::Result<()> {
    flow(world, SETTLING).map_err(|_| AllocError)?;
    let name = format!(in clock.alloc(); "a millisecond of a ring of {NODES} devices")?;
    run_from(clock, name.as_str(), Unit::Millisecond, world)
}

/// Times a ring.
fn run_ring(clock: Clock<'_>) -> io::Result<()> {
    let alloc = clock.alloc();
    let mut world = open(alloc, ring(alloc)?).map_err(|_| AllocError)?;
    let run = run_settled(clock, &mut world);
    world.close();
    run
}

/// Times an event of a chain of so many networks, with devices on the first, from its opening on.
fn run_chain(clock: Clock<'_>, count: u16, devices: u16) -> io::Result<()> {
    let alloc = clock.alloc();
    let name = format!(in alloc; "an event of a chain of {count} networks that opens")?;
    let parts = chain(alloc, count, devices, 1)?;
    let world = open(alloc, parts).map_err(|_| AllocError)?;
    let run = run_from(clock, name.as_str(), Unit::Event, &world);
    world.close();
    run
}

/// Times what passes in sites that are left to themselves, and prints what came of it, or what it took.
///
/// # Errors
/// Those of the clock and of printing, and want of memory.
pub(crate) fn run(clock: Clock<'_>) -> io::Result<()> {
    run_ring(clock)?;
    for (count, devices) in CHAINS {
        run_chain(clock, count, devices)?;
    }
    Ok(())
}
