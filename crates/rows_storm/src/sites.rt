//! The files of sites: how each is opened, and what is printed of its storms.

use crate::events::Line;
use crate::storms::{Broken, Told, run_storms};
use refusing::Refusing;
use script::{Step, script_of};
use simulator::{Flow, World};
use site_text::site_of;
use std::alloc::{AllocError, Allocator, Global};
use std::{fs, io};
use tags::{Fault, Items};
use words::parse_u64;

/// The file of the storms: lines `NAME FIRST LAST`, the name of a site, and its first seed and its last.
const STORMS: &str = "storm/storms.list";

/// The seeds of the storms at a site.
#[derive(Clone, Copy)]
struct Seeds<'t> {
    name: &'t str,
    first: u64,
    last: u64,
}

/// Lets storms go over the sites of the file, and prints what there was of all.
///
/// # Errors
/// Those of reading and of printing, and want of memory.
pub fn run_sites(rt: &HostRuntime) -> io::Result<()> {
    let text = fs::read_to_string(rt, STORMS)?;
    for line in text.lines() {
        match seeds_in(line) {
            Some(seeds) => {
                let said = run_site(rt, seeds)?;
                rt.print(said.as_str())?;
            }
            None => println!(rt; "{STORMS}: no line of storms: {line}")?,
        }
    }
    Ok(())
}

/// The seeds that a line says.
fn seeds_in(line: &str) -> Option<Seeds<'_>> {
    let (name, seeds) = line.split_once(' ')?;
    let (first, last) = seeds.split_once(' ')?;
    match (parse_u64(first), parse_u64(last)) {
        (Ok(first), Ok(last)) => Some(Seeds { name, first, last }),
        (Err(_), _) | (_, Err(_)) => None,
    }
}

/// Lets storms go over a site, and answers what is printed of them.
fn run_site(rt: &HostRuntime, seeds: Seeds<'_>) -> io::Result<String> {
    let alloc = rt.alloc();
    let name = seeds.name;
    let file = format!(in alloc; "storm/{name}.site")?;
    let site = fs::read(rt, file.as_str())?;
    let file = format!(in alloc; "storm/{name}.script")?;
    let script = fs::read(rt, file.as_str())?;
    let memory = Refusing::new(alloc);
    let mut said = String::new(alloc);
    match storms_at(alloc, &memory, site.as_slice(), script.as_slice(), seeds) {
        Ok(told) => push_told(name, &told, &mut said)?,
        Err(fault) => writeln!(said, "{name}: {fault}")?,
    }
    Ok(said)
}

/// Opens a site by the steps of a script, and lets storms go over it.
fn storms_at<A: Allocator + Copy>(
    reading: Global,
    alloc: A,
    site: &[u8],
    script: &[u8],
    seeds: Seeds<'_>,
) -> Result<Told<A>, Fault> {
    let Ok(site) = site_of(reading, alloc, site) else {
        return Err(Fault::BadSite);
    };
    let Ok(steps) = script_of(alloc, script) else {
        return Err(Fault::NoSuch);
    };
    let mut world = World::new(alloc, site)?;
    let told = storms_behind(alloc, &mut world, steps, seeds);
    world.close();
    told
}

/// Takes steps in a world, and lets storms go over it.
fn storms_behind<A: Allocator + Copy>(
    alloc: A,
    world: &mut World<A>,
    steps: Items<Step<A>, A>,
    seeds: Seeds<'_>,
) -> Result<Told<A>, Fault> {
    for step in steps.into_vec() {
        take_step(world, step)?;
    }
    run_storms(alloc, world, seeds.first, seeds.last)
}

/// Takes a step in a world.
fn take_step<A: Allocator + Copy>(world: &mut World<A>, step: Step<A>) -> Result<(), Fault> {
    match step {
        Step::Happens(event) => {
            if event.is_sound() {
                world.step(&event)
            } else {
                Err(Fault::NoSuch)
            }
        }
        Step::Flow(n) => flow(world, n),
        Step::Disturbs(_) | Step::Expects(_) | Step::Shows(_) => Err(Fault::NoSuch),
    }
}

/// Lets so many milliseconds pass in a world, in which all that is put out is delivered.
fn flow<A: Allocator + Copy>(world: &mut World<A>, n: u64) -> Result<(), Fault> {
    let mut flow = Flow::new(n)?;
    for _ in 0..u64::MAX {
        let Some(event) = world.next_of(&mut flow)? else {
            break;
        };
        // What is refused is lost: it changes nothing.
        let _ = world.step(&event);
    }
    Ok(())
}

/// Appends what there was of all at a site.
fn push_told<A: Allocator>(name: &str, told: &Told<A>, out: &mut String) -> Result<(), AllocError> {
    write!(out, "{name}: {}", told.counts)?;
    if let Some(beside) = &told.beside {
        writeln!(out, "  {beside}")?;
    }
    match &told.broken {
        Some(broken) => push_broken(name, broken, out),
        None => Ok(()),
    }
}

/// Appends what is wrong in a storm, and the events that bring it about.
fn push_broken<A: Allocator>(
    name: &str,
    broken: &Broken<A>,
    out: &mut String,
) -> Result<(), AllocError> {
    let Broken {
        seed,
        events,
        wrong,
    } = broken;
    writeln!(
        out,
        "{name}: the storm of seed {seed}: {wrong}; behind {name}.script:"
    )?;
    for event in events {
        writeln!(out, "{}", Line(event))?;
    }
    Ok(())
}
