//! Events of a world with each allocation refused: `SITE: STEP; STEP; ..`, the site of the file `SITE.site` and the
//! steps of a script. `64 * tick 1` stands for as many steps, `deliver 2..65` for one with each of these numbers, and
//! `many 5:1 800 x 85` for a line with as many words.
//!
//! Two worlds take the steps. In one of them no allocation is ever refused. In the other one the first allocation of
//! an event is refused, then the second one, and so on without gaps, until the event meets no refusal: each try says
//! want of memory, and leaves all as it was; then the event happens there as in the first world, and so does all that
//! comes behind it.

ghost use Rattle.simulator.specs.world.Step.{IsSoundEvent};

use crate::worlds::{history_from, is_same_run, opened, tables};
use refusing::Refusing;
use script::{Step, script_of};
use sheets::{
    Counts, Given, Part, Report, Stop, compare, differs, first_and_last, number, rows, two_words,
};
use simulator::{Event, Flow, World};
use std::alloc::{Allocator, Global};
use std::{fs, io};
use tags::Fault;

/// The file of the rows.
const FILE: &str = "memory.rows";

/// How many allocations of an event are refused at most.
const MANY: u64 = 100_000;

/// Two worlds, and how many allocations were refused in the second one. They are not dropped, but closed.
struct Worlds<A: Allocator + Copy> {
    plain: World<A>,
    tried: World<A>,
    refused: u64,
}

/// Runs each row of a file, each at the site that it names, and prints what comes of them.
///
/// # Errors
/// Those of reading and of printing, and want of memory.
pub(crate) fn run_file(rt: &HostRuntime) -> io::Result<()> {
    let alloc = rt.alloc();
    let text = fs::read_to_string(rt, FILE)?;
    let mut report = Report::new(alloc, FILE);
    for row in rows(alloc, text.as_str())?.as_slice() {
        let (name, steps) = match row.asked.split_once(": ") {
            Some(parts) => parts,
            None => (row.asked, ""),
        };
        let file = format!(in alloc; "{name}.site")?;
        let site = fs::read(rt, file.as_str())?;
        report.add(row, run_row(alloc, site.as_slice(), steps))?;
    }
    let said = report.text()?;
    rt.print(said.as_str())
}

/// Runs a row in memory that can be refused.
fn run_row(alloc: Global, site: &[u8], steps: &str) -> Result<Counts, Stop> {
    let memory = Refusing::new(alloc);
    let other = Refusing::new(alloc);
    let given = Given {
        alloc,
        memory: &memory,
        other: &other,
    };
    run(given, given.memory, site, steps)
}

/// Runs a row at a site, in this memory, that of `given`.
///
/// # Errors
/// `Differs` where one of this does not hold; those of reading it.
fn run<A: Allocator + Copy>(
    given: Given<'_>,
    memory: A,
    site: &[u8],
    steps: &str,
) -> Result<Counts, Stop> {
    let script = script_in(given.alloc, steps)?;
    let mut worlds = opened_twice(given, memory, site)?;
    let taken = take_steps(given, memory, &mut worlds, script.as_bytes());
    let Worlds {
        plain,
        tried,
        refused,
    } = worlds;
    plain.close();
    tried.close();
    taken?;
    Ok(Counts {
        rows: 1,
        refused,
        changed: 0,
    })
}

/// Two worlds of a site.
fn opened_twice<A: Allocator + Copy>(
    given: Given<'_>,
    memory: A,
    site: &[u8],
) -> Result<Worlds<A>, Stop> {
    let plain = opened(given.alloc, memory, site)?;
    match plain.copy() {
        Ok(tried) => Ok(Worlds {
            plain,
            tried,
            refused: 0,
        }),
        Err(fault) => {
            plain.close();
            Err(Stop::from(fault))
        }
    }
}

/// Takes the steps of a script in two worlds.
fn take_steps<A: Allocator + Copy>(
    given: Given<'_>,
    memory: A,
    worlds: &mut Worlds<A>,
    script: &[u8],
) -> Result<(), Stop> {
    let Ok(steps) = script_of(memory, script) else {
        return Err(Stop::Unread(Part::Asked));
    };
    for step in steps.into_vec() {
        take_step(given, memory, worlds, step)?;
    }
    Ok(())
}

/// Takes a step in two worlds.
fn take_step<A: Allocator + Copy>(
    given: Given<'_>,
    memory: A,
    worlds: &mut Worlds<A>,
    step: Step<A>,
) -> Result<(), Stop> {
    match step {
        Step::Happens(event) => make(given, memory, worlds, &event),
        Step::Flow(n) => flow(given, memory, worlds, n),
        Step::Disturbs(_) | Step::Expects(_) | Step::Shows(_) => Err(Stop::Unread(Part::Asked)),
    }
}

/// The lines that steps stand for.
fn script_in(alloc: Global, steps: &str) -> Result<String, Stop> {
    let mut out = String::new(alloc);
    for step in steps.split("; ") {
        let (count, step) = match step.split_once(" * ") {
            Some((count, step)) => (number(count)?, step),
            None => (1, step),
        };
        for _ in 0..count {
            push_step(step, &mut out)?;
        }
    }
    Ok(out)
}

/// Appends the lines of a step.
fn push_step(step: &str, out: &mut String) -> Result<(), Stop> {
    match (step.split_once(" x "), two_words(step)) {
        (Some((front, word)), _) => push_listed(front, word, out),
        (None, ("deliver", range)) => push_deliveries(range, out),
        (None, _) => {
            writeln!(out, "{step}")?;
            Ok(())
        }
    }
}

/// Appends a line for each item of a range, or of one number.
fn push_deliveries(range: &str, out: &mut String) -> Result<(), Stop> {
    let (first, last) = first_and_last(range)?;
    for item in first..=last {
        writeln!(out, "deliver {item}")?;
    }
    Ok(())
}

/// Appends a line that ends with a word as often as the words before it say, with commas.
fn push_listed(front: &str, word: &str, out: &mut String) -> Result<(), Stop> {
    let Some((front, count)) = front.rsplit_once(' ') else {
        return Err(Stop::Unread(Part::Asked));
    };
    out.push_str(front)?;
    let mut mark = ' ';
    for _ in 0..number(count)? {
        write!(out, "{mark}{word}")?;
        mark = ',';
    }
    out.push('\n')?;
    Ok(())
}

/// Makes an event in both worlds, in the second one with each allocation refused before.
fn make<A: Allocator + Copy>(
    given: Given<'_>,
    memory: A,
    worlds: &mut Worlds<A>,
    event: &Event<A>,
) -> Result<(), Stop> {
    if !event.is_sound() {
        return Err(Stop::Unread(Part::Words));
    }
    let entries = worlds.plain.history().len();
    let came = refuse_each(given, memory, worlds, event)?;
    if worlds.plain.step(event) != came || !is_same_run(&worlds.plain, &worlds.tried) {
        return Err(differs(
            given.alloc,
            "another event behind those that were refused memory",
        ));
    }
    let plain = history_from(given.alloc, &worlds.plain, entries)?;
    compare(
        history_from(given.alloc, &worlds.tried, entries)?,
        plain.as_str(),
    )?;
    let plain = tables(given.alloc, memory, &worlds.plain)?;
    compare(tables(given.alloc, memory, &worlds.tried)?, plain.as_str())
}

/// Makes an event in the second world with each allocation refused in turn, until it meets no refusal, and answers
/// what came of it then. Each try leaves the world as the first one is.
fn refuse_each<A: Allocator + Copy>(
    given: Given<'_>,
    memory: A,
    worlds: &mut Worlds<A>,
    event: &Event<A>,
) -> Result<Result<(), Fault>, Stop>
    requires { IsSoundEvent event.now }
{
    for n in 1..MANY {
        given.memory.refuse_only(n);
        let came = worlds.tried.step(event);
        let is_waiting = given.memory.is_waiting();
        given.memory.refuse_only(0);
        if is_waiting {
            return Ok(came);
        }
        if came != Err(Fault::Memory) || !is_same_run(&worlds.plain, &worlds.tried) {
            return Err(differs(given.alloc, "a change, or none, where memory was refused"));
        }
        worlds.refused = worlds.refused.saturating_add(1);
    }
    Err(differs(
        given.alloc,
        "an event that is refused memory again and again",
    ))
}

/// Lets milliseconds pass in both worlds: each event of the flow is asked for and made with each allocation refused
/// before.
fn flow<A: Allocator + Copy>(
    given: Given<'_>,
    memory: A,
    worlds: &mut Worlds<A>,
    n: u64,
) -> Result<(), Stop> {
    let mut plain = Flow::new(n)?;
    let mut tried = Flow::new(n)?;
    for _ in 0..u64::MAX {
        let is_more = worlds.plain.next_of(&mut plain)?.is_some();
        if !advance(given, memory, worlds, &mut tried, is_more)? {
            break;
        }
    }
    Ok(())
}

/// Makes the next event of a flow, if there is more, and answers whether there was.
fn advance<A: Allocator + Copy>(
    given: Given<'_>,
    memory: A,
    worlds: &mut Worlds<A>,
    flow: &mut Flow,
    is_more: bool,
) -> Result<bool, Stop> {
    let event = next_event(given, worlds, flow)?;
    if event.is_some() != is_more {
        return Err(differs(given.alloc, "a flow that ends at another place"));
    }
    if let Some(event) = &event {
        make(given, memory, worlds, event)?;
    }
    Ok(is_more)
}

/// The next event of a flow in the second world, asked for with each allocation refused in turn, until none is.
fn next_event<A: Allocator + Copy>(
    given: Given<'_>,
    worlds: &mut Worlds<A>,
    flow: &mut Flow,
) -> Result<Option<Event<A>>, Stop> {
    for n in 1..MANY {
        given.memory.refuse_only(n);
        let came = worlds.tried.next_of(flow);
        let is_waiting = given.memory.is_waiting();
        given.memory.refuse_only(0);
        match came {
            Ok(event) if is_waiting => return Ok(event),
            Err(Fault::Memory) if !is_waiting => {
                worlds.refused = worlds.refused.saturating_add(1);
            }
            _ => return Err(differs(given.alloc, "a flow where memory was refused, or none")),
        }
    }
    Err(differs(given.alloc, "a flow that is refused memory again and again"))
}
