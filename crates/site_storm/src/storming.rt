//! A site, a script and a storm behind it, from their texts to what is printed, and the exit status.

ghost use Rattle.std.specs.Prelude.{◌≡◌, ◌≤◌, None, OnOk};
ghost use Rattle.std.specs.List.{AllByRecursion};
ghost use Rattle.script.specs.Steps.{IsSoundStep};
ghost use Rattle.site_run.specs.Running.{PrintsSteps, entries_in};
ghost use Rattle.site_run.specs.simulator.Laws.{IsLed};
ghost use Rattle.site_storm.specs.Storming.{CountsStorm, PrintsCounts, PrintsCountsFrom, PrintsStorm, Storms};
ghost use Rattle.site_storm.specs.Storming.{StormsOver};

use crate::counted::Counted;
use crate::raging::{Weather, rage};
use crate::unwritten::Unwritten;
use script::Step;
use site_run::{
    LineNumbers, Opened, Spelling, Telling, World, open, print_end, say_failed, say_stop,
    take_steps,
};
use std::alloc::{Allocator, Global};
use std::io;
use std::io::Write;
use storm::Internetwork;
use tags::Items;

/// Takes the steps of a script in a world of a site, as their texts describe them, and then the events of a storm, and
/// prints on `out` each entry of its history, with the standard's numbers or its names, each refusal at its place, and
/// at last what there was of all. Puts down the lines of the storm's events on `lines`: behind those of the script
/// they are a script of all that happened. Answers the exit status: 0; or 1 for a text that is none, which is told on
/// `err` and nothing runs then, for want of memory where it ends the program, and for a failed write. The document is
/// read in memory of `reading`.
pub fn storm<A: Allocator + Copy, L: Write, W: Write, E: Write>(
    reading: Global,
    alloc: A,
    site: &[u8],
    script: &[u8],
    weather: Weather,
    spelling: Spelling,
    lines: &mut L,
    out: &mut W,
    err: &mut E,
) -> u8
    ensures status { result ≤ 1 }
    ensures storms { result ≡ 0 → Storms A spelling site.now script.now weather.steps
        (L.contents lines.old) (L.contents lines.new) (W.contents out.old) (W.contents out.new) }
{
    match open(reading, alloc, site, script) {
        Ok(opened) => match run(alloc, opened, weather, spelling, lines, out) {
            Ok(()) => 0,
            Err(error) => say_failed(&error, err),
        },
        Err(stop) => say_stop(stop, err),
    }
}

/// The same, but nothing is printed of what comes of steps and events: behind them one line tells how many there were
/// of what, for sums over many seeds. What was counted and can no longer matter is forgotten: a storm of any length
/// runs in the memory of a short one.
pub fn storm_counted<A: Allocator + Copy, L: Write, W: Write, E: Write>(
    reading: Global,
    alloc: A,
    site: &[u8],
    script: &[u8],
    weather: Weather,
    lines: &mut L,
    out: &mut W,
    err: &mut E,
) -> u8
    ensures status { result ≤ 1 }
    ensures counts { result ≡ 0 → CountsStorm A site.now script.now weather.steps
        (L.contents lines.old) (L.contents lines.new) (W.contents out.old) (W.contents out.new) }
{
    match open(reading, alloc, site, script) {
        Ok(opened) => match run_counted(alloc, opened, weather, lines, out) {
            Ok(()) => 0,
            Err(error) => say_failed(&error, err),
        },
        Err(stop) => say_stop(stop, err),
    }
}

/// Takes the steps, and then the events of a storm, and prints what comes of them, and what there was of all.
fn run<A: Allocator + Copy, L: Write, W: Write>(
    alloc: A,
    opened: Opened<'_, A>,
    weather: Weather,
    spelling: Spelling,
    lines: &mut L,
    out: &mut W,
) -> io::Result<()>
    requires sound { AllByRecursion IsSoundStep opened.steps }
    ensures { OnOk result (PrintsStorm spelling opened.entry.lines opened.entry.steps weather.steps opened.entry.world
        (L.contents lines.old) (L.contents lines.new) (W.contents out.old) (W.contents out.new)) }
{
    let Opened {
        world,
        steps,
        lines: numbers,
    } = opened;
    let mut world = world;
    let printed = print_all(
        alloc, &mut world, steps, numbers, weather, spelling, lines, out,
    );
    world.close();
    printed
}

/// Takes the steps in a world, and then the events, and prints what comes of them, and what there was of all.
fn print_all<A: Allocator + Copy, L: Write, W: Write>(
    alloc: A,
    world: &mut World<A>,
    steps: Items<Step<A>, A>,
    numbers: LineNumbers<'_>,
    weather: Weather,
    spelling: Spelling,
    lines: &mut L,
    out: &mut W,
) -> io::Result<()>
    requires sound { AllByRecursion IsSoundStep steps }
    ensures { OnOk result (PrintsStorm spelling numbers.entry steps weather.steps world.old
        (L.contents lines.old) (L.contents lines.new) (W.contents out.old) (W.contents out.new)) }
{
    take_all(alloc, world, steps, numbers, weather, spelling, lines, out)?;
    print_end(world, out)
}

/// Takes the steps in a world, and then the events, and prints what comes of them.
fn take_all<A: Allocator + Copy, L: Write, W: Write>(
    alloc: A,
    world: &mut World<A>,
    steps: Items<Step<A>, A>,
    numbers: LineNumbers<'_>,
    weather: Weather,
    spelling: Spelling,
    lines: &mut L,
    out: &mut W,
) -> io::Result<()>
    requires sound { AllByRecursion IsSoundStep steps }
    ensures { OnOk result (StormsOver spelling numbers.entry steps weather.steps world.old world.new
        (L.contents lines.old) (L.contents lines.new) (W.contents out.old) (W.contents out.new)) }
{
    take_steps(world, steps, numbers, Telling::entries(spelling), out)?;
    rage(alloc, world, weather, spelling, lines, out)
}

/// Takes the steps of a script in a world, and prints nothing.
fn take_script<A: Allocator + Copy>(
    world: &mut World<A>,
    steps: Items<Step<A>, A>,
    numbers: LineNumbers<'_>,
) -> io::Result<()>
    requires sound { AllByRecursion IsSoundStep steps }
    ensures { OnOk result
        (PrintsSteps (entries_in Spelling.Numbers) numbers.entry steps world.old world.new None None) }
{
    let mut unwritten = Unwritten;
    let telling = Telling::entries(Spelling::Numbers);
    take_steps(world, steps, numbers, telling, &mut unwritten)
}

/// Takes the steps, and then the events of a storm, and prints how many there were of what.
#[tactic(auto, using(crate::proofs::CountedLaws::counted_rules))]
fn run_counted<A: Allocator + Copy, L: Write, W: Write>(
    alloc: A,
    opened: Opened<'_, A>,
    weather: Weather,
    lines: &mut L,
    out: &mut W,
) -> io::Result<()>
    requires sound { AllByRecursion IsSoundStep opened.steps }
    ensures { OnOk result (PrintsCounts opened.entry.lines opened.entry.steps weather.steps opened.entry.world
        (L.contents lines.old) (L.contents lines.new) (W.contents out.old) (W.contents out.new)) }
{
    let Opened {
        world,
        steps,
        lines: numbers,
    } = opened;
    let mut world = world;
    match take_script(&mut world, steps, numbers) {
        Ok(()) => count_storm(alloc, world.into_internetwork(), weather, lines, out),
        Err(error) => {
            world.close();
            Err(error)
        }
    }
}

/// Lets a storm go over a world that forgets, and prints how many there were of what.
fn count_storm<A: Allocator + Copy, L: Write, W: Write>(
    alloc: A,
    world: Internetwork<A>,
    weather: Weather,
    lines: &mut L,
    out: &mut W,
) -> io::Result<()>
    requires led { IsLed world }
    ensures { OnOk result (PrintsCountsFrom weather.steps world
        (L.contents lines.old) (L.contents lines.new) (W.contents out.old) (W.contents out.new)) }
{
    let mut counted = Counted::new(alloc, world);
    let printed = counted.print_storm(alloc, weather, lines, out);
    counted.close();
    printed
}
