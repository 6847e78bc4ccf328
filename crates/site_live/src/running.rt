//! A site and a script, from their texts to what is printed of a live run, and the exit status.

ghost use Rattle.std.specs.Prelude.{◌≡◌, ◌≤◌, ◌⊎◌, [], IfOk, OnOk, false};
ghost use Rattle.std.specs.Io.KnownBytes.{Appends};
ghost use Rattle.std.specs.List.{AllByRecursion};
ghost use Rattle.runner.specs.simulator.Laws.{IsLed};
ghost use Rattle.site_live.specs.Running.{Lives};
ghost use Rattle.site_live.specs.Runs.{IsOpened, PrintsLiveRun, RunsLive, begun};
ghost use Rattle.script.specs.Expecting.{ExpectNothing, HasNoExpectation};
ghost use Rattle.script.specs.Steps.{IsSoundStep};
ghost use Rattle.site_live.specs.Steps.{SaysLive, asked_of};
ghost use Rattle.site_live.specs.Steps as spec;
ghost use Rattle.site_history.specs.Counting.{counted_on};
ghost use Rattle.site_history.specs.Printed.{or_else, end_text, line};

use crate::live::Live;
use crate::observer::{Nobody, Observer};
use crate::reading::live_steps_of;
use crate::timer::{SystemTimer, Timer};
use bvll::Address;
use console::{say_failed, say_refused};
use npdu::Mac;
use runner::{Runner, World};
use script::{LineNumbers, Step};
use site_history::{Counts, EndLine, Stop, say_stop};
use site_parts::Station;
use site_text::site_of;
use site_verdicts::Verdicts;
use site_views::addresses;
use std::alloc::{Allocator, Global};
use std::io;
use std::io::{ErrorKind, Write};
use std::net::Net;
use std::time::Clock;
use tags::{Fault, Items};
use wire::{UdpWire, Wire};
use words::Spelling;

/// When a live run ends.
#[derive(Clone, Copy, Debug, PartialEq, Eq)]
pub enum Ending {
    /// With its script.
    WithScript,
    /// So many seconds behind it.
    After { seconds: u64 },
    /// Where it is ended from outside.
    Never,
}

/// How a site is run live.
#[derive(Clone, Copy, Debug, PartialEq, Eq)]
pub struct Settings {
    /// Whether stations hear what nobody of the site sent.
    pub is_open: bool,
    pub ending: Ending,
    /// The standard's numbers, or its names.
    pub spelling: Spelling,
}

/// A world as it opens, the steps that are to be taken in it, and the addresses of its stations. It is not dropped: its
/// world is closed.
pub struct Opened<'s, A: Allocator + Copy> {
    pub world: World<A>,
    pub steps: Items<Step<A>, A>,
    /// The numbers of the lines that ask for the steps.
    pub lines: LineNumbers<'s>,
    pub addresses: Items<Address, A>,
}

impl<A: Allocator + Copy> Opened<'_, A> {
    /// Lets go of it.
    fn close(self) {
        let Opened {
            world,
            steps: _steps,
            lines: _lines,
            addresses: _addresses,
        } = self;
        world.close()
    }
}

/// The world of a site and the steps of a script, as their texts describe them. The site is judged first.
///
/// # Errors
/// `BadSite` for a text that describes no site; the first line that asks for nothing that a live run takes; or
/// `Memory`.
pub fn open<'s, A: Allocator + Copy>(
    reading: Global,
    alloc: A,
    site: &[u8],
    script: &'s [u8],
) -> Result<Opened<'s, A>, Stop>
    ensures opened { IfOk result (λ o. IsOpened site.now o.world) }
    ensures said { IfOk result (λ o. SaysLive script.now o.steps) }
    ensures sound { IfOk result (λ o. AllByRecursion IsSoundStep o.steps) }
{
    let site = site_of(reading, alloc, site)?;
    let addresses = addresses_of(alloc, site.stations())?;
    let world = World::new(alloc, site)?;
    match live_steps_of(alloc, script) {
        Ok(steps) => Ok(Opened {
            world,
            steps,
            lines: LineNumbers::of(script),
            addresses,
        }),
        Err(stop) => {
            world.close();
            Err(Stop::from(stop))
        }
    }
}

/// The addresses of stations on BACnet/IP, in their order.
fn addresses_of<A: Allocator + Copy>(
    alloc: A,
    stations: &[Station<A>],
) -> Result<Items<Address, A>, Fault> {
    let mut all = Items::new(alloc);
    for station in addresses(alloc, stations)?.into_vec() {
        if let Mac::Six(octets) = station.mac {
            all.push(Address::from_octets(&octets))?;
        }
    }
    Ok(all)
}

/// Takes steps at a site live, over a wire, and prints on `out` each entry of its history, each stray that was heard,
/// each refusal at its place, and at last what there was of all. The observer sees each turn. Hands out what came of
/// all that is expected.
///
/// # Errors
/// Those of writing, of the observer and of the clock, and want of memory at the beginning and for what is expected.
#[tactic(auto, using(crate::proofs::LiveLaws::run_laws))]
pub fn run<W: Wire + Drop, T: Timer + Drop, S: Observer<A> + Drop, A: Allocator + Copy, O: Write>(
    alloc: A,
    opened: Opened<'_, A>,
    settings: Settings,
    wire: W,
    timer: T,
    observer: S,
    out: &mut O,
) -> io::Result<Verdicts<A>>
    requires sound { AllByRecursion IsSoundStep opened.steps }
    ensures { OnOk result (PrintsLiveRun settings.spelling settings.is_open opened.entry.steps opened.entry.world
        (O.contents out.old) (O.contents out.new)) }
{
    let Opened {
        world,
        steps,
        lines,
        addresses: _addresses,
    } = opened;
    let looks_back = expect_something(&steps);
    let is_open = settings.is_open;
    let mut live = Live::new(alloc, world, is_open, looks_back, wire, timer, observer)?;
    let printed = print_all(&mut live, steps, lines, settings, out);
    let verdicts = live.close();
    printed?;
    Ok(verdicts)
}

/// Takes steps at a site that has just begun to live, and prints at last what there was of all.
#[tactic(auto, using(crate::proofs::LiveLaws::run_laws))]
fn print_all<W: Wire + Drop, T: Timer + Drop, S: Observer<A> + Drop, A: Allocator + Copy, O: Write>(
    live: &mut Live<W, T, S, A>,
    steps: Items<Step<A>, A>,
    lines: LineNumbers<'_>,
    settings: Settings,
    out: &mut O,
) -> io::Result<()>
    requires sound { AllByRecursion IsSoundStep steps }
    requires begins { live.old ≡ begun live.old.runner.is_open live.old.runner.world }
    requires led { IsLed live.old.runner.world }
    ensures { OnOk result (PrintsLiveRun settings.spelling live.old.runner.is_open steps live.old.runner.world
        (O.contents out.old) (O.contents out.new)) }
{
    take_all(live, steps, lines, settings, out)?;
    print_end(live.runner(), live.counts(), out)
}

/// The first round, the steps of a script, and what comes behind them.
fn take_all<W: Wire + Drop, T: Timer + Drop, S: Observer<A> + Drop, A: Allocator + Copy, O: Write>(
    live: &mut Live<W, T, S, A>,
    steps: Items<Step<A>, A>,
    lines: LineNumbers<'_>,
    settings: Settings,
    out: &mut O,
) -> io::Result<()>
    requires sound { AllByRecursion IsSoundStep steps }
    ensures { OnOk result
        (Lives settings.spelling (asked_of steps) live.old live.new (O.contents out.old) (O.contents out.new)) }
{
    live.take_round(settings.spelling, out)?;
    take_steps(live, steps, lines, settings.spelling, out)?;
    go_on(live, settings, out)
}

/// Takes steps in their order, which lines of a script ask for that have these numbers.
#[tactic(auto, using(crate::proofs::LiveLaws::step_laws))]
fn take_steps<
    W: Wire + Drop,
    T: Timer + Drop,
    S: Observer<A> + Drop,
    A: Allocator + Copy,
    O: Write,
>(
    live: &mut Live<W, T, S, A>,
    steps: Items<Step<A>, A>,
    lines: LineNumbers<'_>,
    spelling: Spelling,
    out: &mut O,
) -> io::Result<()>
    requires sound { AllByRecursion IsSoundStep steps }
    ensures { OnOk result
        (Lives spelling (asked_of steps) live.old live.new (O.contents out.old) (O.contents out.new)) }
{
    let mut lines = lines;
    for step in steps.into_vec() {
        let line = lines.next();
        live.take_step(step, line, spelling, out)?;
    }
    Ok(())
}

/// Goes on behind the last step, for so long as is asked for.
#[tactic(auto, using(crate::proofs::LiveLaws::live_laws))]
fn go_on<W: Wire + Drop, T: Timer + Drop, S: Observer<A> + Drop, A: Allocator + Copy, O: Write>(
    live: &mut Live<W, T, S, A>,
    settings: Settings,
    out: &mut O,
) -> io::Result<()>
    ensures { OnOk result (Lives settings.spelling [] live.old live.new (O.contents out.old) (O.contents out.new)) }
{
    let spelling = settings.spelling;
    match settings.ending {
        Ending::WithScript => Ok(()),
        Ending::After { seconds } => { live.let_pass(seconds.saturating_mul(1000), spelling, out) },
        Ending::Never => live.let_pass(u64::MAX, spelling, out),
    }
}

/// Prints what there was of all: of the entries that were handed out, which these counts are of, and of those that are
/// kept.
fn print_end<A: Allocator + Copy, W: Write>(
    runner: &Runner<A>,
    counts: Counts,
    out: &mut W,
) -> io::Result<()>
    ensures { OnOk result (Appends (W.contents out.old) (W.contents out.new)
        (line (end_text (counted_on counts runner.now.world.history) runner.now.world.moment))) }
{
    let moment = runner.world().moment();
    let Some(counts) = counts.with(runner.history()) else {
        return Err(ErrorKind::OutOfMemory.into());
    };
    writeln!(out, "{}", EndLine { counts, moment })
}

/// Runs a site live over UDP, with a script, as their texts describe them: a socket is opened for each address of the
/// site (J.1.2). Answers the exit status: 0; 4 where something that the script expects didn't hold, which is told on
/// `err` with the name of the script, where it has one; or 1 for a text that is none and for an address that can't be
/// opened, which is told on `err` and nothing runs then, for want of memory where it ends the program, and for a failed
/// write. The document is read in memory of `reading`.
pub fn run_over_udp<R: Net + Clock, A: Allocator + Copy, O: Write, E: Write>(
    rt: &R,
    reading: Global,
    alloc: A,
    site: &[u8],
    script: &[u8],
    script_name: Option<&str>,
    settings: Settings,
    out: &mut O,
    err: &mut E,
) -> u8
    ensures status { (result ≤ 1) ⊎ (result ≡ 4) }
    ensures plain { HasNoExpectation A script.now → result ≤ 1 }
    ensures runs { (result ≡ 0) ⊎ (result ≡ 4)
        → RunsLive A settings.spelling settings.is_open site.now script.now (O.contents out.old) (O.contents out.new) }
{
    run_over_udp_observed(
        rt,
        reading,
        alloc,
        site,
        script,
        script_name,
        settings,
        Nobody,
        out,
        err,
    )
}

/// The same, where the observer sees each turn.
pub fn run_over_udp_observed<
    R: Net + Clock,
    S: Observer<A> + Drop,
    A: Allocator + Copy,
    O: Write,
    E: Write,
>(
    rt: &R,
    reading: Global,
    alloc: A,
    site: &[u8],
    script: &[u8],
    script_name: Option<&str>,
    settings: Settings,
    observer: S,
    out: &mut O,
    err: &mut E,
) -> u8
    ensures status { (result ≤ 1) ⊎ (result ≡ 4) }
    ensures plain { HasNoExpectation A script.now → result ≤ 1 }
    ensures runs { (result ≡ 0) ⊎ (result ≡ 4)
        → RunsLive A settings.spelling settings.is_open site.now script.now (O.contents out.old) (O.contents out.new) }
{
    match open(reading, alloc, site, script) {
        Ok(opened) => run_opened(rt, alloc, opened, script_name, settings, observer, out, err),
        Err(stop) => say_stop(stop, err),
    }
}

/// The wire of UDP of a site, and the clock of the system, from now on.
fn wire_of<'a, R: Net + Clock, A: Allocator + Copy>(
    rt: &'a R,
    alloc: A,
    addresses: &[Address],
) -> Result<(UdpWire<A>, SystemTimer<'a, R>), Fault> {
    let wire = UdpWire::new(rt, alloc, addresses)?;
    match SystemTimer::new(rt) {
        Ok(timer) => Ok((wire, timer)),
        Err(_) => Err(Fault::Wire),
    }
}

/// Whether a script's steps expect something.
fn expect_something<A: Allocator>(steps: &Items<Step<A>, A>) -> bool
    ensures { ExpectNothing steps.now → result ≡ false }
{
    match mark_in(steps.as_slice()) {
        Some(_) => true,
        None => false,
    }
}

/// A mark where one of these steps does.
#[tactic(auto, using(crate::proofs::ExpectLaws::mark_laws))]
fn mark_in<A: Allocator>(steps: &[Step<A>]) -> Option<u64>
    ensures { result ≡ spec.mark_in steps.now }
{
    let mut mark = None;
    let mut left = steps;
    while let [first, rest @ ..] = left {
        mark = mark_after(mark, first);
        left = rest;
    }
    mark
}

/// The mark behind a step, where this is the one before it.
#[tactic(auto, unfolding(crate::specs::Steps::mark_of))]
fn mark_after<A: Allocator>(mark: Option<u64>, step: &Step<A>) -> Option<u64>
    ensures { result ≡ or_else (spec.mark_of step.now) mark }
{
    match step {
        Step::Expects(_) => Some(0),
        Step::Happens(_) | Step::Flow(_) | Step::Disturbs(_) | Step::Shows(_) => mark,
    }
}

/// The exit status of a run that came to its end, whose script expects something or nothing, and where that is unmet or
/// not.
fn status_of(expects: bool, is_unmet: bool) -> u8
    ensures few { (result ≤ 1) ⊎ (result ≡ 4) }
    ensures plain { expects ≡ false → result ≡ 0 }
{
    if expects && is_unmet { 4 } else { 0 }
}

/// Runs what was opened, and answers the exit status.
fn run_opened<R: Net + Clock, S: Observer<A> + Drop, A: Allocator + Copy, O: Write, E: Write>(
    rt: &R,
    alloc: A,
    opened: Opened<'_, A>,
    script_name: Option<&str>,
    settings: Settings,
    observer: S,
    out: &mut O,
    err: &mut E,
) -> u8
    requires sound { AllByRecursion IsSoundStep opened.steps }
    ensures status { (result ≤ 1) ⊎ (result ≡ 4) }
    ensures plain { ExpectNothing opened.entry.steps → result ≤ 1 }
    ensures runs { (result ≡ 0) ⊎ (result ≡ 4)
        → PrintsLiveRun settings.spelling settings.is_open opened.entry.steps opened.entry.world (O.contents out.old)
        (O.contents out.new) }
{
    match wire_of(rt, alloc, opened.addresses.as_slice()) {
        Ok((wire, timer)) => {
            let expects = expect_something(&opened.steps);
            match run(alloc, opened, settings, wire, timer, observer, out) {
                Ok(verdicts) => {
                    let _ = verdicts.tell_unmet(script_name, err);
                    status_of(expects, verdicts.is_unmet())
                }
                Err(error) => say_failed(&error, err),
            }
        }
        Err(fault) => {
            opened.close();
            say_refused(fault, err)
        }
    }
}
