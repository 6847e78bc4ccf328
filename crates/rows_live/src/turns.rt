//! Rows of turns over memory: `SITE-NAME.turns` has a line for each turn: a step of a script, or `receive`. Before it
//! may stand `come FROM TO HEX`, a datagram that comes, and `fail N`: the call of this number from there on fails, the
//! next being 1. Where the first line is `open`, the runner is. What is wanted is a line for each turn, with what it
//! answers and whether it had a stray that was heard, behind it `sent FROM TO HEX` for each datagram that it sent, and
//! at last the history.
//!
//! Each row runs again with each allocation refused in turn: a turn that is refused so has changed nothing, so that all
//! is as it was once it is taken again.

ghost use Rattle.std.specs.Prelude.{IfSome, Some};
ghost use Rattle.runner.specs.world.Step.{IsSoundIfAny};

use refusing::Refusing;
use rows_wire::{
    Carried, Course, Row, WireInMemory, print_mac, row_of, said, take_word, text_of, wanted_of,
};
use runner::{Event, Runner, Turned, World};
use script::{Step, step_of};
use sheets::names;
use site_history::print_entries;
use site_text::site_of;
use std::alloc::Global;
use std::io;
use std::io::Write;
use tags::Fault;
use words::{Hex, Spelling};

/// Memory that can be refused.
type Memory<'m> = &'m Refusing<Global>;

/// How the name of a row of turns ends.
const TURNS: &str = ".turns";

/// How many turns a row has at most.
const MANY_TURNS: u64 = 100;

/// How many allocations a turn makes at most.
const MANY: u64 = 2000;

/// Which allocation of which turn is refused, the first being 1; with 0 none is.
#[derive(Clone, Copy)]
struct Refusal {
    turn: u64,
    number: u64,
}

/// No allocation is refused.
const NONE: Refusal = Refusal { turn: 0, number: 0 };

/// A runner over memory, and its turns.
#[derive(Drop)]
struct Run<'m> {
    memory: Memory<'m>,
    runner: Runner<Memory<'m>>,
    wire: WireInMemory,
    /// How many turns were taken.
    turns: u64,
    refusal: Refusal,
    /// Whether that allocation was asked for.
    was_refused: bool,
}

/// Runs each row of turns, and prints a line for each.
///
/// # Errors
/// Those of reading and of printing, and want of memory.
pub(crate) fn run_all(rt: &HostRuntime) -> io::Result<()> {
    for name in names(rt, TURNS)?.as_slice() {
        let row = row_of(rt, name.as_str(), TURNS)?;
        let wanted = wanted_of(rt, name.as_str())?;
        let line = line_of(rt.alloc(), &row, wanted.as_str())?;
        rt.print(line.as_str())?;
    }
    Ok(())
}

/// The line of a row: what is found with no allocation refused, and with each refused in turn.
fn line_of(alloc: Global, row: &Row, wanted: &str) -> io::Result<String> {
    let name = row.name.as_str();
    let (found, _) = found_of(alloc, row, NONE)?;
    if found.as_str() != wanted {
        return Ok(said(alloc, name, found.as_str(), wanted, "")?);
    }
    let mut refused = 0u64;
    for turn in 1..MANY_TURNS {
        let (found, count) = refused_in(alloc, row, turn, wanted)?;
        refused = refused.saturating_add(count);
        if let Some(found) = found {
            return Ok(said(alloc, name, found.as_str(), wanted, "")?);
        }
    }
    let more = format!(in alloc; ", and so with each of {refused} allocations refused")?;
    Ok(said(alloc, name, wanted, wanted, more.as_str())?)
}

/// What is found that isn't wanted where an allocation of a turn is refused, if anything is, and how many were.
fn refused_in(
    alloc: Global,
    row: &Row,
    turn: u64,
    wanted: &str,
) -> io::Result<(Option<String>, u64)> {
    for number in 1..MANY {
        let (found, was_refused) = found_of(alloc, row, Refusal { turn, number })?;
        if found.as_str() != wanted {
            return Ok((Some(found), number));
        }
        if !was_refused {
            return Ok((None, number - 1));
        }
    }
    let found = format!(in alloc; "more than {MANY} allocations\n")?;
    Ok((Some(found), MANY))
}

/// What is found where this allocation is refused, and whether it was asked for.
fn found_of(alloc: Global, row: &Row, refusal: Refusal) -> io::Result<(String, bool)> {
    let memory = Refusing::new(alloc);
    let mut out = Vec::new(alloc);
    let mut was_refused = false;
    match run_of(alloc, &memory, row, refusal) {
        Ok(run) => was_refused = take_all(alloc, run, row.happens.as_str(), &mut out)?,
        Err(fault) => writeln!(out, "refused {} {fault}", u8::from(fault))?,
    }
    Ok((text_of(alloc, out.as_slice())?, was_refused))
}

/// The runner of a row's site, at a wire on which nothing waits.
fn run_of<'m>(
    alloc: Global,
    memory: Memory<'m>,
    row: &Row,
    refusal: Refusal,
) -> Result<Run<'m>, Fault> {
    let site = site_of(alloc, memory, row.site.as_slice())?;
    let world = World::new(memory, site)?;
    Ok(Run {
        memory,
        runner: Runner::new(world, row.happens.starts_with("open\n")),
        wire: WireInMemory::new(alloc, Course::InOrder),
        turns: 0,
        refusal,
        was_refused: false,
    })
}

/// Takes the lines of a row, and prints what comes of them. Tells whether the allocation that is refused was asked for.
fn take_all(alloc: Global, run: Run<'_>, lines: &str, out: &mut Vec<u8>) -> io::Result<bool> {
    let mut run = run;
    for line in lines.lines() {
        take_line(alloc, &mut run, line, out)?;
    }
    let world = run.runner.world();
    let stations = world.site().stations();
    let history = run.runner.history();
    print_entries(Spelling::Numbers, stations, history, history, out)?;
    Ok(run.was_refused)
}

/// Takes a line of a row.
fn take_line(alloc: Global, run: &mut Run<'_>, line: &str, out: &mut Vec<u8>) -> io::Result<()> {
    if take_word(alloc, &mut run.wire, line)? {
        return Ok(());
    }
    take_turn(run, line, out)
}

/// Takes a turn, and once more where it was refused memory, and prints what it answers and sends.
fn take_turn(run: &mut Run<'_>, line: &str, out: &mut Vec<u8>) -> io::Result<()> {
    let Some(answer) = answer_of(run, line) else {
        return writeln!(out, "unread {line}");
    };
    if run.runner.strayed() {
        write!(out, "strayed, ")?;
    }
    match answer {
        Ok(turned) => writeln!(out, "{}", word_of(turned))?,
        Err(fault) => writeln!(out, "refused {} {fault}", u8::from(fault))?,
    }
    for carried in run.wire.take_sent().as_slice() {
        print_sent(carried, out)?;
    }
    Ok(())
}

/// What a turn answers, taken once more where it was refused memory.
fn answer_of(run: &mut Run<'_>, line: &str) -> Option<Result<Turned, Fault>> {
    let next = event_in(run.memory, line)?;
    run.turns = run.turns.saturating_add(1);
    let number = if run.turns == run.refusal.turn {
        run.refusal.number
    } else {
        0
    };
    run.memory.refuse_only(number);
    let answer = run.runner.turn(&mut run.wire, next);
    let was_refused = number != 0 && !run.memory.is_waiting();
    run.memory.refuse_only(0);
    if !was_refused || answer != Err(Fault::Memory) {
        return Some(answer);
    }
    run.was_refused = true;
    if receives(line) {
        run.wire.take_back();
    }
    let next = event_in(run.memory, line)?;
    Some(run.runner.turn(&mut run.wire, next))
}

/// Whether the turn of a line receives.
fn receives(line: &str) -> bool {
    line == "receive"
}

/// The event of a line, or none where a turn receives.
fn event_in<'m>(memory: Memory<'m>, line: &str) -> Option<Option<Event<Memory<'m>>>>
    ensures { IfSome result IsSoundIfAny }
{
    if receives(line) {
        return Some(None);
    }
    let event = event_of(step_of(memory, line).ok()?)?;
    Some(Some(event))
}

/// The event that a step is, if it is one.
fn event_of<'m>(step: Step<Memory<'m>>) -> Option<Event<Memory<'m>>>
    ensures { IfSome result (λ event. IsSoundIfAny (Some event)) }
{
    match step {
        Step::Happens(Event::Deliver(_) | Event::Hear { .. })
        | Step::Flow(_)
        | Step::Disturbs(_)
        | Step::Expects(_)
        | Step::Shows(_) => None,
        Step::Happens(event) => { if event.is_sound() { Some(event) } else { None } }
    }
}

/// What a turn comes to, in a word.
fn word_of(turned: Turned) -> &'static str {
    match turned {
        Turned::Stepped => "stepped",
        Turned::Stray => "stray",
        Turned::Dropped => "dropped",
        Turned::Nothing => "nothing",
    }
}

/// Prints a datagram that was sent.
fn print_sent(carried: &Carried, out: &mut Vec<u8>) -> io::Result<()> {
    write!(out, "sent ")?;
    print_mac(carried.from, out)?;
    write!(out, " ")?;
    print_mac(carried.to, out)?;
    writeln!(out, " {}", Hex(carried.octets.as_slice()))
}
