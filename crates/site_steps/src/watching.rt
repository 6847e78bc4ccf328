//! The steps of a script in a world, one after another, each event made by who looks at it.

ghost use Rattle.std.specs.List.{AllByRecursion};
ghost use Rattle.site_run.specs.script.Steps.{IsSoundStep};
ghost use Rattle.site_run.specs.simulator.world.Step.{IsSoundEvent};

use site_run::{Event, FaultsInForce, FaultyFlow, Opened, Step, Stop, World, open};
use std::alloc::{Allocator, Global};
use tags::{Fault, Items};

/// What looks at a run.
pub trait Watcher<A: Allocator + Copy> {
    /// Looks at a world as it opens.
    ///
    /// # Errors
    /// Why it can't go on.
    fn begin(&mut self, world: &World<A>) -> Result<(), Fault>;

    /// Makes an event in a world, which may refuse it, and looks at what comes of it.
    ///
    /// # Errors
    /// Why it can't go on. That the event is refused need not be such a cause.
    fn make(&mut self, world: &mut World<A>, event: &Event<A>) -> Result<(), Fault>
        requires sound { IsSoundEvent event.now };

    /// Looks at a world in which a flow of `n` milliseconds is refused: of none, or of over 60000.
    ///
    /// # Errors
    /// Why it can't go on.
    fn refuse(&mut self, world: &World<A>, n: u64, fault: Fault) -> Result<(), Fault>;

    /// Looks at a world as it is at the end.
    ///
    /// # Errors
    /// Why it can't go on.
    fn end(&mut self, world: &World<A>) -> Result<(), Fault>;
}

/// Takes the steps of a script in a world of a site, as their texts describe them. The document is read in memory of
/// `reading`.
///
/// # Errors
/// Those of `site_run::open`, those of the watcher, and `Memory`.
pub fn watch<A: Allocator + Copy, V: Watcher<A>>(
    reading: Global,
    alloc: A,
    site: &[u8],
    script: &[u8],
    watcher: &mut V,
) -> Result<(), Stop> {
    let Opened {
        world,
        steps,
        lines: _,
    } = open(reading, alloc, site, script)?;
    let mut world = world;
    let mut faults = FaultsInForce::new(alloc);
    let watched = watch_all(&mut world, steps, &mut faults, watcher);
    world.close();
    match watched {
        Ok(()) => Ok(()),
        Err(fault) => Err(Stop::from(fault)),
    }
}

/// Takes the steps, between the beginning and the end.
fn watch_all<A: Allocator + Copy, V: Watcher<A>>(
    world: &mut World<A>,
    steps: Items<Step<A>, A>,
    faults: &mut FaultsInForce<A>,
    watcher: &mut V,
) -> Result<(), Fault>
    requires sound { AllByRecursion IsSoundStep steps }
{
    watcher.begin(world)?;
    take_steps(world, steps, faults, watcher)?;
    watcher.end(world)
}

/// Takes the steps in their order.
fn take_steps<A: Allocator + Copy, V: Watcher<A>>(
    world: &mut World<A>,
    steps: Items<Step<A>, A>,
    faults: &mut FaultsInForce<A>,
    watcher: &mut V,
) -> Result<(), Fault>
    requires sound { AllByRecursion IsSoundStep steps }
{
    for step in steps.into_vec() {
        take_step(world, step, faults, watcher)?;
    }
    Ok(())
}

/// Takes a step: an event, a flow of them, or a fault of the network, which acts in flows. What is expected
/// or shown changes nothing.
fn take_step<A: Allocator + Copy, V: Watcher<A>>(
    world: &mut World<A>,
    step: Step<A>,
    faults: &mut FaultsInForce<A>,
    watcher: &mut V,
) -> Result<(), Fault>
    requires sound { IsSoundStep step }
{
    match step {
        Step::Happens(event) => watcher.make(world, &event),
        Step::Flow(n) => flow(world, n, faults, watcher),
        Step::Disturbs(fault) => {
            faults.put(fault, None, world.history(), world.moment())?;
            Ok(())
        }
        Step::Expects(_) | Step::Shows(_) => Ok(()),
    }
}

/// Makes the events of a flow, unless it is refused.
fn flow<A: Allocator + Copy, V: Watcher<A>>(
    world: &mut World<A>,
    n: u64,
    faults: &mut FaultsInForce<A>,
    watcher: &mut V,
) -> Result<(), Fault> {
    match FaultyFlow::new(n, world, faults) {
        Ok(flow) => make_all(world, flow, faults, watcher),
        Err(fault) => watcher.refuse(world, n, fault),
    }
}

/// Makes the events of a flow, one after another, up to its end.
fn make_all<A: Allocator + Copy, V: Watcher<A>>(
    world: &mut World<A>,
    flow: FaultyFlow<A>,
    faults: &mut FaultsInForce<A>,
    watcher: &mut V,
) -> Result<(), Fault> {
    let mut flow = flow;
    while let Some(event) = flow.next_of(world, faults)? {
        watcher.make(world, &event)?;
    }
    Ok(())
}
