//! So many events of a storm in a world, one after another, and what is printed of each.

ghost use Rattle.std.specs.Prelude.{OnOk};
ghost use Rattle.std.specs.Io.KnownBytes.{Appends};
ghost use Rattle.site_storm.specs.Lines.{event_text, line};
ghost use Rattle.site_storm.specs.Raging.{Rages, RagesOnce};
ghost use Rattle.words.specs.printing.declared.spelling.Spelling.TheVariants.{Numbers};

use site_run::{Event, EventLine, Spelling, Telling, World, make};
use std::alloc::Allocator;
use std::io;
use std::io::Write;
use storm::{Chances, Storm};

/// Which storm, and for how long.
#[derive(Clone, Copy, Debug, PartialEq, Eq)]
pub struct Weather {
    /// What seeds it: equal seeds, chances and worlds give equal events.
    pub seed: u64,
    /// How many events there are.
    pub steps: u64,
    pub chances: Chances,
}

/// Puts down the line of an event.
pub(crate) fn put_down<A: Allocator, L: Write>(event: &Event<A>, lines: &mut L) -> io::Result<()>
    ensures { OnOk result
        (Appends (L.contents lines.old) (L.contents lines.new) (line (event_text Numbers event.now))) }
{
    let spelling = Spelling::Numbers;
    writeln!(lines, "{}", EventLine { event, spelling })
}

/// Makes the next event of a storm, prints what comes of it on `out`, and puts its line down on `lines`.
///
/// # Errors
/// Those of writing, and want of memory for the event.
fn rage_once<A: Allocator + Copy, L: Write, W: Write>(
    alloc: A,
    world: &mut World<A>,
    storm: &mut Storm,
    spelling: Spelling,
    lines: &mut L,
    out: &mut W,
) -> io::Result<()>
    ensures { OnOk result (RagesOnce spelling world.old world.new
        (L.contents lines.old) (L.contents lines.new) (W.contents out.old) (W.contents out.new)) }
{
    let event = storm.next_event(alloc, world)?;
    put_down(&event, lines)?;
    make(world, &event, Telling::entries(spelling), out)
}

/// Makes so many events of a storm, prints what comes of each on `out`, and puts its line down on `lines`.
///
/// # Errors
/// Those of writing, and want of memory for the next event.
pub(crate) fn rage<A: Allocator + Copy, L: Write, W: Write>(
    alloc: A,
    world: &mut World<A>,
    weather: Weather,
    spelling: Spelling,
    lines: &mut L,
    out: &mut W,
) -> io::Result<()>
    ensures { OnOk result (Rages spelling weather.steps world.old world.new
        (L.contents lines.old) (L.contents lines.new) (W.contents out.old) (W.contents out.new)) }
{
    let mut storm = Storm::new(weather.seed, weather.chances);
    let mut left = weather.steps;
    while left > 0 {
        rage_once(alloc, world, &mut storm, spelling, lines, out)?;
        left -= 1;
    }
    Ok(())
}
