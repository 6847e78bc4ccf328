//! The storms at a site.

use crate::counts::Counts;
use crate::ears::Ears;
use crate::fewest::fewest;
use crate::forgetting::{Beside, run_beside};
use crate::weather::{Wrong, judge_end, make};
use simulator::{Event, World};
use std::alloc::{AllocError, Allocator};
use storm::{Chances, Percent, Storm};
use tags::Fault;

/// How many events a storm has.
const EVENTS: u32 = 100;

/// How often what happens: much, so that little is enough to break what can be broken.
pub(crate) const CHANCES: Chances = Chances {
    issue: Percent { tenths: 150 },
    lose: Percent { tenths: 150 },
    repeat: Percent { tenths: 200 },
    reorder: Percent { tenths: 200 },
    damage: Percent { tenths: 50 },
    restart: Percent { tenths: 50 },
};

/// A storm in which something is wrong: its seed, few of its events that still bring that about, none of which can be
/// left out, and what it is.
#[derive(Drop)]
pub(crate) struct Broken<A: Allocator> {
    pub(crate) seed: u64,
    pub(crate) events: Vec<Event<A>, A>,
    pub(crate) wrong: Wrong,
}

/// The storms at a site: what there was of all, up to the first that isn't as it should be, if there is one; and what
/// came of a world that forgets, where there is none.
#[derive(Drop)]
pub(crate) struct Told<A: Allocator> {
    pub(crate) counts: Counts,
    pub(crate) beside: Option<Beside>,
    pub(crate) broken: Option<Broken<A>>,
}

/// Lets storms of the seeds from one to another go over a world that stays as it is, each over a copy, up to the
/// first that isn't as it should be; and where there is none, the first one over a world that forgets.
///
/// # Errors
/// Want of memory.
pub(crate) fn run_storms<A: Allocator + Copy>(
    alloc: A,
    opened: &World<A>,
    first: u64,
    last: u64,
) -> Result<Told<A>, Fault> {
    let mut counts = Counts::default();
    for seed in first..=last {
        let broken = run_storm(alloc, opened, seed, &mut counts)?;
        if broken.is_some() {
            return Ok(Told {
                counts,
                beside: None,
                broken,
            });
        }
    }
    Ok(Told {
        counts,
        beside: Some(run_beside(alloc, opened, first)?),
        broken: None,
    })
}

/// Lets a storm go over a copy of a world.
fn run_storm<A: Allocator + Copy>(
    alloc: A,
    opened: &World<A>,
    seed: u64,
    counts: &mut Counts,
) -> Result<Option<Broken<A>>, Fault> {
    counts.begin();
    let mut world = opened.copy()?;
    let mut events = Vec::new(alloc);
    let came = blow(alloc, &mut world, seed, &mut events, counts);
    world.close();
    let Some(_) = came? else {
        return Ok(None);
    };
    let (events, wrong) = fewest(alloc, opened, events)?;
    Ok(Some(Broken {
        seed,
        events,
        wrong,
    }))
}

/// Lets a storm go over a world, keeps its events, and judges what came of it.
fn blow<A: Allocator + Copy>(
    alloc: A,
    world: &mut World<A>,
    seed: u64,
    events: &mut Vec<Event<A>, A>,
    counts: &mut Counts,
) -> Result<Option<Wrong>, Fault> {
    let mut storm = Storm::new(seed, CHANCES);
    let mut ears = Ears::new(alloc);
    for _ in 0..EVENTS {
        let wrong = next(alloc, world, &mut storm, &mut ears, events, counts)?;
        if wrong.is_some() {
            return Ok(wrong);
        }
    }
    judge_end(alloc, world, counts)
}

/// Makes the next event of a storm in a world, and keeps it.
fn next<A: Allocator + Copy>(
    alloc: A,
    world: &mut World<A>,
    storm: &mut Storm,
    ears: &mut Ears<A>,
    events: &mut Vec<Event<A>, A>,
    counts: &mut Counts,
) -> Result<Option<Wrong>, AllocError> {
    let event = storm.next_event(alloc, world)?;
    let wrong = make(alloc, world, ears, &event, counts)?;
    events.push(event)?;
    Ok(wrong)
}
