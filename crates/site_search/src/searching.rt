//! The texts of a site and a script, and the script that is written.

ghost use Rattle.std.specs.Prelude.{◌≡◌, true, IfOk, OnOk};
ghost use Rattle.std.specs.Io.KnownBytes.{Appends};
ghost use Rattle.std.specs.List.{AllByRecursion};
ghost use Rattle.site_storm.specs.site_run.script.Steps.{IsSoundStep};
ghost use Rattle.site_storm.specs.site_run.simulator.world.Step.{IsSoundEvent};
ghost use Rattle.site_search.specs.Searching.{Begins, Continues, Happen, IsWritten, Leads, Searches};
ghost use Rattle.site_search.specs.Searching.{WritesFound, WritesNothingIfNone};
ghost use Rattle.site_storm.specs.Lines.{event_text, events_text, line};

use crate::failure::Failure;
use crate::until::{Until, behind_moment, has_entry, has_words};
use search::Outcome;
use site_storm::{
    Event, EventLine, LineNumbers, Opened, Spelling, Step, Telling, World, end_missing, open,
    take_steps,
};
use std::alloc::{Allocator, Global};
use std::io;
use std::io::Write;
use tags::{Fault, Items};

/// What came of a search.
#[derive(Clone, Copy, Debug, PartialEq, Eq)]
pub enum Found {
    /// A script was written.
    Written,
    /// No events that are so many, or fewer, lead there. It is less than was asked for where there are too many to look
    /// at.
    NoneWithin(u64),
}

/// Takes the steps of a script in a world of a site, as their texts describe them, and searches for the fewest
/// events, at most so many, behind which the history has a new entry of these words: behind its moment it has them,
/// or begins with them. Writes the script on `out`, and a line for each of these events, with the
/// standard's numbers or its names. The document is read in
/// memory of `reading`.
///
/// # Errors
/// Those of `site_storm::open`, want of memory, and those of writing.
pub fn search<W: Write, A: Allocator + Copy>(
    reading: Global,
    alloc: A,
    site: &[u8],
    script: &[u8],
    until: &[u8],
    depth: u64,
    spelling: Spelling,
    out: &mut W,
) -> Result<Found, Failure>
    ensures written { IfOk result (λ found. found ≡ Found.Written →
        Searches A spelling site.now script.now until.now depth (W.contents out.old) (W.contents out.new)) }
    ensures none { IfOk result (WritesNothingIfNone (W.contents out.old) (W.contents out.new)) }
{
    let Opened {
        world,
        steps,
        lines: _,
    } = open(reading, alloc, site, script)?;
    let mut world = world;
    let found = search_in(
        alloc, &mut world, steps, script, until, depth, spelling, out,
    );
    world.close();
    found
}

/// Takes steps in a world, searches from there, and writes what was found behind the script.
fn search_in<W: Write, A: Allocator + Copy>(
    alloc: A,
    world: &mut World<A>,
    steps: Items<Step<A>, A>,
    script: &[u8],
    until: &[u8],
    depth: u64,
    spelling: Spelling,
    out: &mut W,
) -> Result<Found, Failure>
    requires sound { AllByRecursion IsSoundStep steps }
    ensures written { IfOk result (λ found. found ≡ Found.Written →
        Continues spelling script.now until.now depth steps world.old (W.contents out.old) (W.contents out.new)) }
    ensures none { IfOk result (WritesNothingIfNone (W.contents out.old) (W.contents out.new)) }
{
    begin(alloc, world, script, steps)?;
    search_on(alloc, world, script, until, depth, spelling, out)
}

/// Takes the steps of a script in a world. What is printed of them is looked at for a refusal of memory alone.
fn begin<A: Allocator + Copy>(
    alloc: A,
    world: &mut World<A>,
    script: &[u8],
    steps: Items<Step<A>, A>,
) -> Result<(), Failure>
    requires sound { AllByRecursion IsSoundStep steps }
    ensures taken { OnOk result (Begins script.now steps world.old world.new) }
{
    let mut text = Vec::new(alloc);
    let telling = Telling::entries(Spelling::Numbers);
    let lines = LineNumbers::of(script);
    take_steps(world, steps, lines, telling, &mut text)?;
    match std::str::from_utf8(text.as_slice()) {
        Ok(text) if !is_any_short(text) => Ok(()),
        Ok(_) | Err(_) => Err(Failure::from(Fault::Memory)),
    }
}

/// Whether one of these lines tells that an event was refused memory.
fn is_any_short(text: &str) -> bool {
    for line in text.lines() {
        if has_words(behind_moment(line.as_bytes()), b"refused 1 Memory") {
            return true;
        }
    }
    false
}

/// Searches from a world, lets happen in it what was found, and writes that behind the script.
fn search_on<W: Write, A: Allocator + Copy>(
    alloc: A,
    world: &mut World<A>,
    script: &[u8],
    until: &[u8],
    depth: u64,
    spelling: Spelling,
    out: &mut W,
) -> Result<Found, Failure>
    ensures written { IfOk result (λ found. found ≡ Found.Written →
        WritesFound spelling script.now until.now depth world.old (W.contents out.old) (W.contents out.new)) }
    ensures none { IfOk result (WritesNothingIfNone (W.contents out.old) (W.contents out.new)) }
{
    let goal = Until {
        alloc,
        words: until,
        entries: world.history().len(),
    };
    match search::search(alloc, world, &goal, depth)? {
        Outcome::Found(events) => {
            // what was found is made once more, so that it is certain
            if !leads(alloc, world, events.as_slice(), until, depth)? {
                return Ok(Found::NoneWithin(0));
            }
            write_script(script, events.as_slice(), spelling, out)?;
            Ok(Found::Written)
        }
        Outcome::NoneWithin(depth) => Ok(Found::NoneWithin(depth)),
    }
}

/// Whether these are at most so many events and lead to a new entry of these words. They happen in the world.
fn leads<A: Allocator + Copy>(
    alloc: A,
    world: &mut World<A>,
    events: &[Event<A>],
    words: &[u8],
    depth: u64,
) -> Result<bool, Fault>
    requires sound { AllByRecursion IsSoundEvent events.now }
    ensures leads { IfOk result (λ b. b ≡ true → Leads words.now depth events.now world.old world.new) }
{
    let entries = world.history().len();
    make_all(world, events)?;
    if events.len() as u64 > depth {
        return Ok(false);
    }
    let history = world.history();
    Ok(has_entry(alloc, world.site().stations(), history, entries, words)?)
}

/// Makes events in a world, one after another.
///
/// # Errors
/// The first refusal.
#[tactic(auto, using(crate::proofs::SearchLaws::search_rules))]
fn make_all<A: Allocator + Copy>(world: &mut World<A>, events: &[Event<A>]) -> Result<(), Fault>
    requires sound { AllByRecursion IsSoundEvent events.now }
    ensures happen { OnOk result (Happen events.now world.old world.new) }
{
    let mut left = events;
    while let [event, rest @ ..] = left {
        world.step(event)?;
        left = rest;
    }
    Ok(())
}

/// Writes a script, with the end that its last line lacks, and a line for each of these events.
fn write_script<A: Allocator, W: Write>(
    script: &[u8],
    events: &[Event<A>],
    spelling: Spelling,
    out: &mut W,
) -> io::Result<()>
    ensures { OnOk result
        (IsWritten script.now (events_text spelling events.now) (W.contents out.old) (W.contents out.new)) }
{
    out.write_all(script)?;
    out.write_all(end_missing(script))?;
    write_events(events, spelling, out)
}

/// Writes a line for each of these events.
#[tactic(auto, using(crate::proofs::SearchLaws::search_rules))]
fn write_events<A: Allocator, W: Write>(
    events: &[Event<A>],
    spelling: Spelling,
    out: &mut W,
) -> io::Result<()>
    ensures { OnOk result (Appends (W.contents out.old) (W.contents out.new) (events_text spelling events.now)) }
{
    let mut left = events;
    while let [event, rest @ ..] = left {
        write_event(event, spelling, out)?;
        left = rest;
    }
    Ok(())
}

/// Writes the line of an event.
fn write_event<A: Allocator, W: Write>(
    event: &Event<A>,
    spelling: Spelling,
    out: &mut W,
) -> io::Result<()>
    ensures { OnOk result (Appends (W.contents out.old) (W.contents out.new) (line (event_text spelling event.now))) }
{
    writeln!(out, "{}", EventLine { event, spelling })
}
