//! The search, breadth first.

ghost use Rattle.std.specs.Prelude.{IfOk};
ghost use Rattle.std.specs.List.{AllByRecursion};
ghost use Rattle.search.specs.Searching.{IsSoundOutcome};
ghost use Rattle.simulator.specs.world.Step.{IsSoundEvent};

use crate::choice::{Choice, event_of};
use crate::choosing::choices;
use crate::goal::Goal;
use crate::last::Last;
use crate::tree::Tree;
use simulator::{Event, World};
use std::alloc::Allocator;
use tags::{Fault, Items};

/// What came of a search.
#[derive(Drop)]
pub enum Outcome<A: Allocator> {
    /// These events lead there, and no fewer do.
    Found(Items<Event<A>, A>),
    /// No events that are so many, or fewer, lead there. It is less than was asked for where all of those would be too
    /// many to keep in mind.
    NoneWithin(u64),
}

/// What came of one choice.
#[derive(Clone, Copy, Debug, PartialEq, Eq)]
enum Tried {
    /// The world refuses it.
    Refused,
    /// It happens.
    Happens,
    /// It happens, and leads to what is searched for.
    Leads,
}

/// What came of all choices in a world, or in several.
#[derive(Clone, Copy, Debug, PartialEq, Eq)]
enum Looked {
    /// This one, in the world at this place of the tree, leads to what is searched for.
    Leads { place: usize, choice: Choice },
    /// None does.
    Further,
    /// None of them did when there was no place for more.
    Full,
}

/// Makes a choice happen in a world where it may, and answers what there was before it.
fn make<A: Allocator + Copy>(
    alloc: A,
    world: &mut World<A>,
    choice: Choice,
) -> Result<Last, Fault> {
    let Some(event) = event_of(alloc, world, choice)? else {
        return Err(Fault::NoSuch);
    };
    let (items, frames, entries) = (
        world.items().len(),
        world.buses().frames,
        world.history().len(),
    );
    world.step(&event)?;
    Ok(Last {
        choice,
        items: items as u64,
        is_silent: world.items().len() == items
            && world.buses().frames == frames
            && world.history().len() == entries,
    })
}

/// Makes choices happen in a world, one after another, and answers the last one.
fn make_all<A: Allocator + Copy>(
    alloc: A,
    world: &mut World<A>,
    way: &[Choice],
) -> Result<Option<Last>, Fault> {
    let mut last = None;
    for choice in way {
        last = Some(make(alloc, world, *choice)?);
    }
    Ok(last)
}

/// What comes of a choice in a world that is there for it alone.
fn try_in<G: Goal<A>, A: Allocator + Copy>(
    alloc: A,
    world: &mut World<A>,
    choice: Choice,
    goal: &G,
) -> Result<Tried, Fault> {
    match make(alloc, world, choice) {
        Err(Fault::Memory) => Err(Fault::Memory),
        Err(_) => Ok(Tried::Refused),
        Ok(_) if goal.is_met(world)? => Ok(Tried::Leads),
        Ok(_) => Ok(Tried::Happens),
    }
}

/// What comes of a choice in a world, which stays as it is.
fn try_choice<G: Goal<A>, A: Allocator + Copy>(
    alloc: A,
    world: &World<A>,
    choice: Choice,
    goal: &G,
) -> Result<Tried, Fault> {
    let mut next = world.copy()?;
    let tried = try_in(alloc, &mut next, choice, goal);
    next.close();
    tried
}

/// Looks at each choice in a world, which has a place in the tree, and keeps those in mind that happen, unless they
/// come last.
fn look_in<G: Goal<A>, A: Allocator + Copy>(
    alloc: A,
    world: &World<A>,
    last: Option<&Last>,
    goal: &G,
    tree: &mut Tree<A>,
    place: usize,
    is_last: bool,
) -> Result<Looked, Fault> {
    for choice in choices(alloc, world, last)? {
        match try_choice(alloc, world, choice, goal)? {
            Tried::Leads => return Ok(Looked::Leads { place, choice }),
            Tried::Happens if !is_last => {
                if tree.is_full() {
                    return Ok(Looked::Full);
                }
                tree.push(place, choice)?;
            }
            Tried::Happens | Tried::Refused => {}
        }
    }
    Ok(Looked::Further)
}

/// Looks at each choice in the world at a place of the tree, which is made once more for that.
fn look_at<G: Goal<A>, A: Allocator + Copy>(
    alloc: A,
    begun: &World<A>,
    goal: &G,
    tree: &mut Tree<A>,
    place: usize,
    is_last: bool,
) -> Result<Looked, Fault> {
    let way = tree.way_to(place)?;
    let mut world = begun.copy()?;
    let looked = match make_all(alloc, &mut world, way.as_slice()) {
        Ok(last) => look_in(alloc, &world, last.as_ref(), goal, tree, place, is_last),
        Err(fault) => Err(fault),
    };
    world.close();
    looked
}

/// Looks at each choice in the worlds from one place of the tree on and before another.
fn look_at_all<G: Goal<A>, A: Allocator + Copy>(
    alloc: A,
    begun: &World<A>,
    goal: &G,
    tree: &mut Tree<A>,
    first: usize,
    before: usize,
    is_last: bool,
) -> Result<Looked, Fault> {
    for place in first..before {
        let looked = look_at(alloc, begun, goal, tree, place, is_last)?;
        if looked != Looked::Further {
            return Ok(looked);
        }
    }
    Ok(Looked::Further)
}

/// Makes choices happen in a world, one after another, and puts down their events.
#[tactic(auto, using(crate::proofs::SoundLaws::sound_rules))]
fn put_events<A: Allocator + Copy>(
    alloc: A,
    world: &mut World<A>,
    way: &[Choice],
    events: &mut Items<Event<A>, A>,
) -> Result<(), Fault>
    requires sound { AllByRecursion IsSoundEvent events.old }
    ensures sound { AllByRecursion IsSoundEvent events.new }
{
    for choice in way {
        let Some(event) = event_of(alloc, world, *choice)? else {
            return Err(Fault::NoSuch);
        };
        world.step(&event)?;
        events.push(event)?;
    }
    Ok(())
}

/// The events that choices are, one after another from where a search begins.
fn events_of<A: Allocator + Copy>(
    alloc: A,
    begun: &World<A>,
    way: &[Choice],
) -> Result<Items<Event<A>, A>, Fault>
    ensures sound { IfOk result (λ events. AllByRecursion IsSoundEvent events) }
{
    let mut events = Items::new(alloc);
    let mut world = begun.copy()?;
    let put = put_events(alloc, &mut world, way, &mut events);
    world.close();
    put?;
    Ok(events)
}

/// Searches for the fewest events, at most so many, that lead from a world to one where something came about. What came
/// about in the world itself counts for nothing: there is one event at least.
///
/// # Errors
/// `Memory`; and what is never told, `NoSuch` where a world has no such thing a second time.
pub fn search<G: Goal<A>, A: Allocator + Copy>(
    alloc: A,
    begun: &World<A>,
    goal: &G,
    depth: u64,
) -> Result<Outcome<A>, Fault>
    ensures sound { IfOk result IsSoundOutcome }
{
    let mut tree = Tree::new(alloc)?;
    let mut first = 0;
    for level in 0..depth {
        let before = tree.len();
        let is_last = depth - level == 1;
        match look_at_all(alloc, begun, goal, &mut tree, first, before, is_last)? {
            Looked::Leads { place, choice } => {
                let mut way = tree.way_to(place)?;
                way.push(choice)?;
                return Ok(Outcome::Found(events_of(alloc, begun, way.as_slice())?));
            }
            Looked::Full => return Ok(Outcome::NoneWithin(level)),
            Looked::Further if tree.len() == before => break,
            Looked::Further => first = before,
        }
    }
    Ok(Outcome::NoneWithin(depth))
}
