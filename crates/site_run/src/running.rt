//! The steps of a script in a world, one after another, and what is printed of each.

ghost use Rattle.std.specs.Prelude.{◌≡◌, OnOk, drop};
ghost use Rattle.std.specs.Io.KnownBytes.{Appends};
ghost use Rattle.std.specs.List.{AllByRecursion};
ghost use Rattle.script.specs.Steps.{IsSoundStep};
ghost use Rattle.script.specs.declared.step.Step.TheVariants as step;
ghost use Rattle.site_history.specs.simulator.world.Step.{IsSoundEvent};
ghost use Rattle.site_history.specs.Asked.{refused_time_text};
ghost use Rattle.site_history.specs.Printed as printed;
ghost use Rattle.site_run.specs.Judged.{IsJudged};
ghost use Rattle.site_run.specs.Running.{PrintsAll, PrintsDisturbed, PrintsEvent, PrintsGrowth, PrintsStep};
ghost use Rattle.site_run.specs.Running.{PrintsSteps, TakesStep, TakesSteps, told};
ghost use Rattle.site_run.specs.Running.{trace_text};
ghost use Rattle.site_run.specs.Running as spec;
ghost use Rattle.site_states.specs.Shown.{PrintsShown};

use crate::course::Course;
use crate::judging::judge;
use script::{LineNumbers, NetworkFault, Step};
use site_history::{
    Event, FaultsInForce, FaultyFlow, World, print_entries, print_refusal, print_refused_event,
    print_refused_time,
};
use site_states::print_state;
use site_trace::{print_frames, print_items};
use site_verdicts::{Expectation, Refusals};
use std::alloc::{AllocError, Allocator};
use std::io;
use std::io::{ErrorKind, Write};
use tags::{Fault, Items, Octets};
use words::Spelling;

/// What is told of an event.
#[derive(Clone, Copy, Debug, PartialEq, Eq)]
pub enum Told {
    /// The entries of the history.
    Entries,
    /// Before them each item and each frame that was put out.
    All,
}

/// What is told of an event, and how.
#[derive(Clone, Copy, Debug, PartialEq, Eq)]
pub struct Telling {
    pub told: Told,
    /// The standard's numbers, or its names.
    pub spelling: Spelling,
    /// The number of the script's line that asks for it, if one does.
    pub line: Option<u64>,
}

impl Telling {
    /// The entries of the history alone.
    pub fn entries(spelling: Spelling) -> Telling
        ensures { result ≡ spec.entries_in spelling }
    {
        Telling {
            told: Told::Entries,
            spelling,
            line: None,
        }
    }

    /// Before them each item and each frame that was put out.
    pub fn all(spelling: Spelling) -> Telling
        ensures { result ≡ spec.all_in spelling }
    {
        Telling {
            told: Told::All,
            spelling,
            line: None,
        }
    }

    /// The same of what a line of a script asks for.
    pub fn at(self, line: Option<u64>) -> Telling
        ensures { result ≡ spec.at_line line self }
    {
        Telling {
            told: self.told,
            spelling: self.spelling,
            line,
        }
    }
}

/// Takes the steps in their order, which lines of a script ask for that have these numbers, and prints what comes of
/// each. What is expected is judged, and isn't told.
///
/// # Errors
/// Those of writing, and want of memory for what is expected.
pub fn take_steps<A: Allocator + Copy, W: Write>(
    world: &mut World<A>,
    steps: Items<Step<A>, A>,
    lines: LineNumbers<'_>,
    telling: Telling,
    out: &mut W,
) -> io::Result<()>
    requires sound { AllByRecursion IsSoundStep steps }
    ensures { OnOk result
        (PrintsSteps telling lines.entry steps world.old world.new (W.contents out.old) (W.contents out.new)) }
{
    let steps = steps.into_vec();
    let mut course = Course::new(*steps.allocator());
    take_all(
        world,
        Items::from_vec(steps),
        lines,
        telling,
        &mut course,
        out,
    )?;
    Ok(())
}

/// The same; what is expected is judged, and the faults of the network that steps ask for stay in force.
///
/// # Errors
/// Those of writing, and want of memory for what is expected.
#[tactic(auto, using(crate::proofs::RunLaws::run_rules))]
pub(crate) fn take_all<A: Allocator + Copy, W: Write>(
    world: &mut World<A>,
    steps: Items<Step<A>, A>,
    lines: LineNumbers<'_>,
    telling: Telling,
    course: &mut Course<A>,
    out: &mut W,
) -> io::Result<()>
    requires sound { AllByRecursion IsSoundStep steps }
    ensures { OnOk result
        (TakesSteps telling lines.entry steps course.old.verdicts course.new.verdicts
        world.old world.new (W.contents out.old) (W.contents out.new)) }
{
    let mut lines = lines;
    for step in steps.into_vec() {
        let line = lines.next();
        take_step(world, step, telling.at(line), course, out)?;
    }
    Ok(())
}

/// Takes a step: an event, a flow of them, a fault of the network, which acts in flows, what is expected, or what is
/// shown.
fn take_step<A: Allocator + Copy, W: Write>(
    world: &mut World<A>,
    step: Step<A>,
    telling: Telling,
    course: &mut Course<A>,
    out: &mut W,
) -> io::Result<()>
    requires sound { IsSoundStep step }
    ensures { OnOk result (TakesStep telling step course.old.verdicts course.new.verdicts
        world.old world.new (W.contents out.old) (W.contents out.new)) }
{
    match step {
        Step::Happens(event) => {
            make_counted(world, &event, telling, &mut course.refusals, out)?;
            Ok(())
        }
        Step::Flow(n) => {
            flow(world, n, telling, course, out)?;
            Ok(())
        }
        Step::Disturbs(fault) => {
            disturb(world, fault, telling.line, course, out)?;
            Ok(())
        }
        Step::Expects(expected) => {
            expect(world, &expected, telling.line, course)?;
            Ok(())
        }
        Step::Shows(name) => {
            show(world, name, telling, course, out)?;
            Ok(())
        }
    }
}

/// Judges what is expected of the run so far.
fn expect<A: Allocator + Copy>(
    world: &World<A>,
    expected: &Expectation<A>,
    line: Option<u64>,
    course: &mut Course<A>,
) -> io::Result<()>
    ensures { OnOk result
        (IsJudged expected.now world.now course.old.verdicts course.new.verdicts) }
{
    match judge(world, expected, line, course.refusals, &mut course.verdicts) {
        Ok(()) => Ok(()),
        Err(AllocError) => Err(ErrorKind::OutOfMemory.into()),
    }
}

/// Prints what the station of a name is at, or that it is refused.
fn show<A: Allocator + Copy, W: Write>(
    world: &World<A>,
    name: Octets<A>,
    telling: Telling,
    course: &mut Course<A>,
    out: &mut W,
) -> io::Result<()>
    ensures printed { OnOk result (PrintsShown name world.now (W.contents out.old) (W.contents out.new)) }
    ensures verdicts { course.new.verdicts ≡ course.old.verdicts }
{
    let name = name.into_vec();
    let alloc = *name.allocator();
    let refused = print_state(alloc, world, name.as_slice(), telling.spelling, out)?;
    if let Some(fault) = refused {
        course.refusals.put(fault, world.moment(), telling.line);
    }
    Ok(())
}

/// A fault of the network is in force from here on, unless there is no memory for it, which is printed.
fn disturb<A: Allocator + Copy, W: Write>(
    world: &World<A>,
    fault: NetworkFault<A>,
    line: Option<u64>,
    course: &mut Course<A>,
    out: &mut W,
) -> io::Result<()>
    ensures printed { OnOk result (PrintsDisturbed world.now world.now (W.contents out.old) (W.contents out.new)) }
    ensures verdicts { course.new.verdicts ≡ course.old.verdicts }
{
    let moment = world.moment();
    match course.faults.put(fault, line, world.history(), moment) {
        Ok(()) => Ok(()),
        Err(AllocError) => {
            course.refusals.put(Fault::Memory, moment, line);
            print_refusal(Fault::Memory, moment, out)
        }
    }
}

/// Makes the events of a flow, each of which may be refused.
fn flow<A: Allocator + Copy, W: Write>(
    world: &mut World<A>,
    n: u64,
    telling: Telling,
    course: &mut Course<A>,
    out: &mut W,
) -> io::Result<()>
    ensures printed { OnOk result
        (PrintsStep telling (step.Flow n) world.old world.new (W.contents out.old) (W.contents out.new)) }
    ensures verdicts { course.new.verdicts ≡ course.old.verdicts }
{
    match FaultyFlow::new(n, world, &mut course.faults) {
        Ok(flow) => make_all(
            world,
            n,
            flow,
            telling,
            &mut course.faults,
            &mut course.refusals,
            out,
        ),
        Err(fault) => refuse_time(world, n, fault, telling, &mut course.refusals, out),
    }
}

/// Makes the events of a flow of so many milliseconds, one after another, up to its end, or until there is no memory
/// for the next one.
#[tactic(auto, using(crate::proofs::RunLaws::run_rules))]
fn make_all<A: Allocator + Copy, W: Write>(
    world: &mut World<A>,
    n: u64,
    flow: FaultyFlow<A>,
    telling: Telling,
    faults: &mut FaultsInForce<A>,
    refusals: &mut Refusals,
    out: &mut W,
) -> io::Result<()>
    requires whole { flow.left ≡ n }
    ensures { OnOk result
        (PrintsAll telling n world.old world.new (W.contents out.old) (W.contents out.new)) }
{
    let mut flow = flow;
    let mut next = flow.next_of(world, faults);
    while let Ok(Some(event)) = next {
        make_counted(world, &event, telling, refusals, out)?;
        next = flow.next_of(world, faults);
    }
    match next {
        Ok(_) => Ok(()),
        Err(fault) => refuse_time(world, n, fault, telling, refusals, out),
    }
}

/// Prints that so many milliseconds are refused.
fn refuse_time<A: Allocator + Copy, W: Write>(
    world: &World<A>,
    n: u64,
    fault: Fault,
    telling: Telling,
    refusals: &mut Refusals,
    out: &mut W,
) -> io::Result<()>
    ensures { OnOk result (Appends (W.contents out.old) (W.contents out.new)
        (printed.line (refused_time_text telling.spelling telling.line n fault world.now.moment))) }
{
    let moment = world.moment();
    refusals.put(fault, moment, telling.line);
    print_refused_time(telling.spelling, telling.line, n, fault, moment, out)
}

/// Makes an event, and prints what comes of it.
///
/// # Errors
/// Those of writing.
pub fn make<A: Allocator + Copy, W: Write>(
    world: &mut World<A>,
    event: &Event<A>,
    telling: Telling,
    out: &mut W,
) -> io::Result<()>
    requires sound { IsSoundEvent event.now }
    ensures { OnOk result
        (PrintsEvent telling event.now world.old world.new (W.contents out.old) (W.contents out.new)) }
{
    let mut refusals = Refusals::none();
    make_counted(world, event, telling, &mut refusals, out)
}

/// The same; a refusal is counted.
fn make_counted<A: Allocator + Copy, W: Write>(
    world: &mut World<A>,
    event: &Event<A>,
    telling: Telling,
    refusals: &mut Refusals,
    out: &mut W,
) -> io::Result<()>
    requires sound { IsSoundEvent event.now }
    ensures { OnOk result
        (PrintsEvent telling event.now world.old world.new (W.contents out.old) (W.contents out.new)) }
{
    let items = world.items().len();
    let frames = world.buses().frames;
    let entries = world.history().len();
    match world.step(event) {
        Ok(()) => print_growth(world, items, frames, entries, telling, out),
        Err(fault) => {
            let moment = world.moment();
            refusals.put(fault, moment, telling.line);
            print_refused_event(telling.spelling, telling.line, event, fault, moment, out)
        }
    }
}

/// Prints what a world grew by behind so many items, frames and entries.
#[tactic(auto, using(crate::proofs::RunLaws::run_rules))]
fn print_growth<A: Allocator + Copy, W: Write>(
    world: &World<A>,
    items: usize,
    frames: u64,
    entries: usize,
    telling: Telling,
    out: &mut W,
) -> io::Result<()>
    ensures { OnOk result
        (PrintsGrowth telling items frames entries world.now (W.contents out.old) (W.contents out.new)) }
{
    print_told(world, items, frames, telling.told, out)?;
    let history = world.history();
    print_entries(
        telling.spelling,
        world.site().stations(),
        history,
        behind(history, entries),
        out,
    )
}

/// What stands behind so many of a list.
fn behind<T>(all: &[T], count: usize) -> &[T]
    ensures { result.now ≡ drop count all.now }
{
    match all.get(count..) {
        Some(rest) => rest,
        None => &[],
    }
}

/// Prints what was put out behind so many items and frames, where that is told.
fn print_told<A: Allocator + Copy, W: Write>(
    world: &World<A>,
    items: usize,
    frames: u64,
    what: Told,
    out: &mut W,
) -> io::Result<()>
    ensures { OnOk result (Appends (W.contents out.old) (W.contents out.new) (told what items frames world.now)) }
{
    match what {
        Told::Entries => Ok(()),
        Told::All => print_trace(world, items, frames, out),
    }
}

/// Prints what was put out behind so many items and frames.
#[tactic(auto, using(crate::proofs::RunLaws::run_rules))]
fn print_trace<A: Allocator + Copy, W: Write>(
    world: &World<A>,
    items: usize,
    frames: u64,
    out: &mut W,
) -> io::Result<()>
    ensures { OnOk result (Appends (W.contents out.old) (W.contents out.new) (trace_text items frames world.now)) }
{
    let stations = world.site().stations();
    let moment = world.moment();
    print_items(stations, items, behind(world.items(), items), moment, out)?;
    print_frames(
        stations,
        frames,
        world.buses().buses.as_slice(),
        moment,
        out,
    )
}
