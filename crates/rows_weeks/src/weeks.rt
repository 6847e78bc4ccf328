//! The requests, and what is kept.

use history::Entry;
use refusing::Refusing;
use script::{Step, script_of};
use simulator::{Event, Flow, Internetwork, LATEST_ITEMS, World, WorldEntry};
use site_text::site_of;
use std::alloc::{Allocator, Global};
use std::{fs, io};
use tags::{Fault, Items};

/// How many requests there are.
const REQUESTS: u64 = 100_000;

/// A datagram may be heard for 1000 ms, a request is issued every 300 ms, and takes two: those of four requests are
/// young, and the last `LATEST_ITEMS` are never forgotten. Of what is older no more is kept.
const MOST_ITEMS: usize = 2 * (4 * 2 + LATEST_ITEMS);

/// One client has 256 invoke IDs: so many issues are the last ones. Of what they replaced no more is kept.
const MOST_ISSUES: usize = 2 * 256 + 1;

/// What came of the requests, and how much was kept at most.
#[derive(Clone, Copy, Debug, Default)]
struct Kept {
    issued: u64,
    executed: u64,
    answered: u64,
    others: u64,
    items: usize,
    issues: usize,
    entries: usize,
    messages: usize,
}

/// One more.
fn raise(count: &mut u64) {
    *count = count.saturating_add(1);
}

impl Kept {
    /// Counts entries that were handed out.
    fn count<A: Allocator>(&mut self, told: &[WorldEntry<A>]) {
        for entry in told {
            match entry {
                Entry::Issue { .. } => raise(&mut self.issued),
                Entry::Executed { .. } => raise(&mut self.executed),
                Entry::Answered { .. } => raise(&mut self.answered),
                Entry::Ended { .. } | Entry::Restarted { .. } => raise(&mut self.others),
            }
        }
    }

    /// Looks at what a world keeps.
    fn look<A: Allocator + Copy>(&mut self, world: &Internetwork<A>) {
        self.items = self.items.max(world.items().len());
        self.issues = self.issues.max(world.issues_kept());
        self.entries = self.entries.max(world.history().len());
        self.messages = self.messages.max(world.said().len());
    }
}

/// Runs the requests at the site of the folder `weeks`, and prints what came of them.
///
/// # Errors
/// Those of reading and of printing, and want of memory.
pub fn run_weeks(rt: &HostRuntime) -> io::Result<()> {
    let site = fs::read(rt, "weeks/site.site")?;
    let meeting = fs::read(rt, "weeks/meeting.script")?;
    let round = fs::read(rt, "weeks/round.script")?;
    let alloc = rt.alloc();
    let memory = Refusing::new(alloc);
    match weeks_at(
        alloc,
        &memory,
        site.as_slice(),
        meeting.as_slice(),
        round.as_slice(),
    ) {
        Ok(kept) => print(rt, kept),
        Err(fault) => println!(rt; "weeks: {fault}"),
    }
}

/// Prints what came of the requests, and whether what was kept is within its bounds.
fn print(rt: &HostRuntime, kept: Kept) -> io::Result<()> {
    println!(rt;
        "weeks: {} issued, {} executed, {} answered, {} others",
        kept.issued, kept.executed, kept.answered, kept.others
    )?;
    println!(rt;
        "weeks: at most {MOST_ITEMS} datagrams kept: {}",
        kept.items <= MOST_ITEMS
    )?;
    println!(rt;
        "weeks: at most {MOST_ISSUES} issues kept: {}",
        kept.issues <= MOST_ISSUES
    )?;
    println!(rt; "weeks: no entry kept: {}", kept.entries == 0)?;
    println!(rt; "weeks: no message kept: {}", kept.messages == 0)
}

/// Opens a site by the steps of one script, and goes through those of another again and again.
fn weeks_at<A: Allocator + Copy>(
    reading: Global,
    alloc: A,
    site: &[u8],
    meeting: &[u8],
    round: &[u8],
) -> Result<Kept, Fault> {
    let Ok(site) = site_of(reading, alloc, site) else {
        return Err(Fault::BadSite);
    };
    let (Ok(meeting), Ok(round)) = (script_of(alloc, meeting), script_of(alloc, round)) else {
        return Err(Fault::NoSuch);
    };
    let mut world = World::new(alloc, site)?;
    let met = meet(&mut world, meeting);
    let mut world = world.into_internetwork();
    let kept = match met {
        Ok(()) => go_on(alloc, &mut world, round),
        Err(fault) => Err(fault),
    };
    world.close();
    kept
}

/// An event happens in a world, if it is sound.
fn happen<A: Allocator + Copy>(world: &mut World<A>, event: &Event<A>) -> Result<(), Fault> {
    if !event.is_sound() {
        return Err(Fault::NoSuch);
    }
    world.step(event)
}

/// Takes the steps of a script in a world.
fn meet<A: Allocator + Copy>(world: &mut World<A>, steps: Items<Step<A>, A>) -> Result<(), Fault> {
    for step in steps.as_slice() {
        match step {
            Step::Happens(event) => happen(world, event)?,
            Step::Disturbs(_) | Step::Expects(_) | Step::Shows(_) => return Err(Fault::NoSuch),
            Step::Flow(n) => flow(world, *n)?,
        }
    }
    Ok(())
}

/// Lets so many milliseconds pass in a world, in which all that is put out is delivered.
fn flow<A: Allocator + Copy>(world: &mut World<A>, n: u64) -> Result<(), Fault> {
    let mut flow = Flow::new(n)?;
    for _ in 0..u64::MAX {
        let Some(event) = world.next_of(&mut flow)? else {
            break;
        };
        // What is refused is lost: it changes nothing.
        let _ = world.step(&event);
    }
    Ok(())
}

/// Goes through the events of a round so many times, each with all that it puts out. Behind each round the history is
/// handed out, and what can no longer matter is forgotten.
fn go_on<A: Allocator + Copy>(
    alloc: A,
    world: &mut Internetwork<A>,
    round: Items<Step<A>, A>,
) -> Result<Kept, Fault> {
    let mut kept = Kept::default();
    let mut told = Vec::new(alloc);
    let mut from = world.item_count();
    for _ in 0..REQUESTS {
        for step in round.as_slice() {
            make(world, step)?;
            from = deliver(world, from)?;
        }
        world.hand_out(&mut told)?;
        kept.count(told.as_slice());
        told.clear();
        world.forget();
        kept.look(world);
    }
    Ok(kept)
}

/// Makes the event that a step asks for.
fn make<A: Allocator + Copy>(world: &mut Internetwork<A>, step: &Step<A>) -> Result<(), Fault> {
    let Step::Happens(event) = step else {
        return Err(Fault::NoSuch);
    };
    if !event.is_sound() {
        return Err(Fault::NoSuch);
    }
    world.step(event)
}

/// Delivers all that is put out from the datagram of a number on, one behind another. Answers from which number on the
/// next ones are.
fn deliver<A: Allocator + Copy>(world: &mut Internetwork<A>, from: usize) -> Result<usize, Fault> {
    let mut from = from;
    for _ in 0..u64::MAX {
        let Some(number) = world.next_waiting(from, usize::MAX) else {
            break;
        };
        world.step(&Event::Deliver(number as u64))?;
        from = number.saturating_add(1);
    }
    Ok(from)
}
