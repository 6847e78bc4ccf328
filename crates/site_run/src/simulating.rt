//! A site and a script, from their texts to what is printed, and the exit status.

ghost use Rattle.std.specs.Prelude.{◌≡◌, ◌≤◌, ◌⊎◌, IfOk, OnErr, OnOk, false, true, if◌then◌else◌};
ghost use Rattle.std.specs.Io.KnownBytes.{Appends};
ghost use Rattle.std.specs.List.{AllByRecursion};
ghost use Rattle.site_history.specs.simulator.carry_world.Laws.{IsLegal};
ghost use Rattle.script.specs.Expecting.{ExpectNothing, HasNoExpectation};
ghost use Rattle.script.specs.Numbers.{line_numbers};
ghost use Rattle.script.specs.Steps.{IsSoundStep};
ghost use Rattle.site_history.specs.simulator.Judged.{instances_of, judged_of};
ghost use Rattle.site_history.specs.Counting.{counts_of};
ghost use Rattle.site_history.specs.Printed.{end_text, line};
ghost use Rattle.site_run.specs.Running.{all_in, entries_in};
ghost use Rattle.site_run.specs.Simulate.{IsOpened, PrintsRun, Simulates};

use crate::course::Course;
use crate::running::{Telling, take_all};
use script::{LineNumbers, Step, script_of};
use site_history::{EndLine, Stop, World, counted, say_failed, say_stop};
use site_text::site_of;
use site_verdicts::Verdicts;
use std::alloc::{Allocator, Global};
use std::io;
use std::io::Write;
use tags::Items;
use words::Spelling;

/// Takes the steps of a script in a world of a site, as their texts describe them, and prints on `out` each entry of
/// its history, each refusal at its place, and at last what there was of all. Answers the exit status: 0; 4 where
/// something that the script expects didn't hold, which is told on `err` with what there was instead; or 1 for a text
/// that is none, which is told on `err` and nothing runs then, for want of memory where it ends the program, and for a
/// failed write. The document is read in memory of `reading`.
pub fn simulate<A: Allocator + Copy, W: Write, E: Write>(
    reading: Global,
    alloc: A,
    site: &[u8],
    script: &[u8],
    out: &mut W,
    err: &mut E,
) -> u8
    ensures status { (result ≤ 1) ⊎ (result ≡ 4) }
    ensures plain { HasNoExpectation A script.now → result ≤ 1 }
    ensures simulates { result ≡ 0
        → Simulates A (entries_in Spelling.Numbers) false site.now script.now
        (W.contents out.old) (W.contents out.new) }
    ensures unmet { result ≡ 4
        → Simulates A (entries_in Spelling.Numbers) true site.now script.now (W.contents out.old) (W.contents out.new) }
{
    let telling = Telling::entries(Spelling::Numbers);
    simulate_told(reading, alloc, site, script, telling, out, err)
}

/// The same; before the entries of an event each item and each frame is printed that was put out, with its number.
pub fn simulate_traced<A: Allocator + Copy, W: Write, E: Write>(
    reading: Global,
    alloc: A,
    site: &[u8],
    script: &[u8],
    out: &mut W,
    err: &mut E,
) -> u8
    ensures status { (result ≤ 1) ⊎ (result ≡ 4) }
    ensures plain { HasNoExpectation A script.now → result ≤ 1 }
    ensures simulates { result ≡ 0
        → Simulates A (all_in Spelling.Numbers) false site.now script.now (W.contents out.old) (W.contents out.new) }
    ensures unmet { result ≡ 4
        → Simulates A (all_in Spelling.Numbers) true site.now script.now (W.contents out.old) (W.contents out.new) }
{
    let telling = Telling::all(Spelling::Numbers);
    simulate_told(reading, alloc, site, script, telling, out, err)
}

/// The same, with what is told of an event, and with the standard's numbers or its names.
pub fn simulate_told<A: Allocator + Copy, W: Write, E: Write>(
    reading: Global,
    alloc: A,
    site: &[u8],
    script: &[u8],
    telling: Telling,
    out: &mut W,
    err: &mut E,
) -> u8
    ensures status { (result ≤ 1) ⊎ (result ≡ 4) }
    ensures plain { HasNoExpectation A script.now → result ≤ 1 }
    ensures simulates { result ≡ 0
        → Simulates A telling false site.now script.now (W.contents out.old) (W.contents out.new) }
    ensures unmet { result ≡ 4
        → Simulates A telling true site.now script.now (W.contents out.old) (W.contents out.new) }
{
    let judged = simulate_judged(reading, alloc, site, script, telling, out, err);
    let _ = judged.verdicts.tell_unmet(None, err);
    judged.status
}

/// The exit status of a simulation, and what came of all that its script expects.
#[derive(Drop)]
pub struct Simulated<A: Allocator> {
    pub status: u8,
    pub verdicts: Verdicts<A>,
}

/// The same; what didn't hold is told by whoever calls it.
#[tactic(auto, using(crate::proofs::SimulateLaws::open_laws))]
pub fn simulate_judged<A: Allocator + Copy, W: Write, E: Write>(
    reading: Global,
    alloc: A,
    site: &[u8],
    script: &[u8],
    telling: Telling,
    out: &mut W,
    err: &mut E,
) -> Simulated<A>
    ensures status { (result.status ≤ 1) ⊎ (result.status ≡ 4) }
    ensures plain { HasNoExpectation A script.now → result.status ≤ 1 }
    ensures simulates { result.status ≡ 0
        → Simulates A telling false site.now script.now (W.contents out.old) (W.contents out.new) }
    ensures unmet { result.status ≡ 4
        → Simulates A telling true site.now script.now (W.contents out.old) (W.contents out.new) }
{
    match open(reading, alloc, site, script) {
        Ok(opened) => run(alloc, opened, telling, out, err),
        Err(stop) => Simulated {
            status: say_stop(stop, err),
            verdicts: Verdicts::new(alloc),
        },
    }
}

/// A world as it opens, and the steps that are to be taken in it. It is not dropped: its world is closed.
pub struct Opened<'s, A: Allocator + Copy> {
    pub world: World<A>,
    pub steps: Items<Step<A>, A>,
    /// The numbers of the lines that ask for the steps.
    pub lines: LineNumbers<'s>,
}

/// The world of a site and the steps of a script, as their texts describe them. The site is judged first.
///
/// # Errors
/// `BadSite` for a text that describes no site; the first line that asks for no step; or `Memory`.
pub fn open<'s, A: Allocator + Copy>(
    reading: Global,
    alloc: A,
    site: &[u8],
    script: &'s [u8],
) -> Result<Opened<'s, A>, Stop>
    ensures opened { IfOk result (λ o. IsOpened site.now script.now o.world o.steps) }
    ensures lines { IfOk result (λ o. o.lines ≡ line_numbers script.now) }
{
    let site = site_of(reading, alloc, site)?;
    let world = World::new(alloc, site)?;
    match script_of(alloc, script) {
        Ok(steps) => Ok(Opened {
            world,
            steps,
            lines: LineNumbers::of(script),
        }),
        Err(stop) => {
            world.close();
            Err(Stop::from(stop))
        }
    }
}

/// Takes the steps, prints what comes of them, tells which faults of the network took nothing, and answers the exit
/// status and what came of expectations.
fn run<A: Allocator + Copy, W: Write, E: Write>(
    alloc: A,
    opened: Opened<'_, A>,
    telling: Telling,
    out: &mut W,
    err: &mut E,
) -> Simulated<A>
    requires sound { AllByRecursion IsSoundStep opened.steps }
    ensures status { (result.status ≤ 1) ⊎ (result.status ≡ 4) }
    ensures plain { ExpectNothing opened.entry.steps → result.status ≤ 1 }
    ensures runs { result.status ≡ 0
        → PrintsRun telling opened.entry.lines opened.entry.steps false opened.entry.world
        (W.contents out.old) (W.contents out.new) }
    ensures unmet { result.status ≡ 4
        → PrintsRun telling opened.entry.lines opened.entry.steps true opened.entry.world
        (W.contents out.old) (W.contents out.new) }
{
    let mut course = Course::new(alloc);
    let printed = print_run(opened, telling, &mut course, out);
    let status = status_of(printed, &course, err);
    let Course {
        verdicts,
        faults: _,
        refusals: _,
    } = course;
    Simulated { status, verdicts }
}

/// Tells which faults of the network took nothing, or why nothing was printed on, and answers the exit status.
fn status_of<A: Allocator + Copy, E: Write>(
    printed: io::Result<()>,
    course: &Course<A>,
    err: &mut E,
) -> u8
    ensures few { (result ≤ 1) ⊎ (result ≡ 4) }
    ensures done { OnOk printed (result ≡ (if course.now.verdicts then 4 else 0)) }
    ensures failed { OnErr printed (result ≡ 1) }
{
    match printed {
        Ok(()) => {
            let _ = course.faults.tell_unmet(err);
            if course.verdicts.is_unmet() { 4 } else { 0 }
        }
        Err(error) => say_failed(&error, err),
    }
}

/// Takes the steps, and prints what comes of them.
fn print_run<A: Allocator + Copy, W: Write>(
    opened: Opened<'_, A>,
    telling: Telling,
    course: &mut Course<A>,
    out: &mut W,
) -> io::Result<()>
    requires sound { AllByRecursion IsSoundStep opened.steps }
    requires fresh { course.old.verdicts ≡ false }
    ensures { OnOk result (PrintsRun telling opened.entry.lines opened.entry.steps course.new.verdicts
        opened.entry.world (W.contents out.old) (W.contents out.new)) }
{
    let Opened {
        world,
        steps,
        lines,
    } = opened;
    let mut world = world;
    let printed = print_all(&mut world, steps, lines, telling, course, out);
    world.close();
    printed
}

/// Takes the steps in a world, and prints what comes of them.
fn print_all<A: Allocator + Copy, W: Write>(
    world: &mut World<A>,
    steps: Items<Step<A>, A>,
    lines: LineNumbers<'_>,
    telling: Telling,
    course: &mut Course<A>,
    out: &mut W,
) -> io::Result<()>
    requires sound { AllByRecursion IsSoundStep steps }
    requires fresh { course.old.verdicts ≡ false }
    ensures { OnOk result (PrintsRun telling lines.entry steps course.new.verdicts world.old
        (W.contents out.old) (W.contents out.new)) }
{
    take_all(world, steps, lines, telling, course, out)?;
    print_end(world, out)
}

/// Prints what there was of all.
///
/// # Errors
/// Those of writing.
pub fn print_end<A: Allocator + Copy, W: Write>(world: &World<A>, out: &mut W) -> io::Result<()>
    ensures printed { OnOk result (Appends (W.contents out.old) (W.contents out.new)
        (line (end_text (counts_of world.now.history) world.now.moment))) }
    ensures legal { IsLegal (instances_of world.now.site) world.now.history (judged_of world.now) }
{
    let moment = world.moment();
    let counts = counted(world.history());
    writeln!(out, "{}", EndLine { counts, moment })
}
