//! A caller of `simulator`: a site is run over a list of events, and left to itself for a while.
#![tactic(auto)]

ghost use Rattle.std.specs.Prelude.{IfOk, OnOk};
ghost use Rattle.std.specs.List.{AllByRecursion};
ghost use Rattle.simulator.specs.carry_world.Laws.{IsLegal};
ghost use Rattle.simulator.specs.Judged.{instances_of, judged_of};
ghost use Rattle.simulator.specs.world.Step.{IsSoundEvent};
ghost use Rattle.simulator.specs.world.World.{fresh_world};
ghost use Rattle.simulator.specs.Runs.{Runs};

use simulator::{Event, Flow, World};
use site::Site;
use std::alloc::Allocator;
use tags::Fault;

/// The world of a site once these events happened, one after another.
///
/// # Errors
/// `Memory` alone.
pub fn once_run<A: Allocator + Copy>(
    alloc: A,
    site: Site<A>,
    events: &[Event<A>],
) -> Result<World<A>, Fault>
    requires sound { AllByRecursion IsSoundEvent events.now }
    ensures runs { IfOk result (λ world. Runs events.now (fresh_world site) world) }
{
    let mut world = World::new(alloc, site)?;
    world.run(events);
    Ok(world)
}

/// Lets so many milliseconds pass, in which all is delivered and each station wakes, and answers how many entries the
/// history has then, which is legal.
///
/// # Errors
/// `NoSuch` where they aren't 1 to 60000; or `Memory`.
pub fn entries_after<A: Allocator + Copy>(world: &mut World<A>, n: u64) -> Result<usize, Fault>
    ensures legal { OnOk result
        (IsLegal (instances_of world.new.site) world.new.history (judged_of world.new)) }
{
    let mut flow = Flow::new(n)?;
    while let Some(event) = world.next_of(&mut flow)? {
        let _ = world.step(&event);
    }
    Ok(world.history().len())
}
