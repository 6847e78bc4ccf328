//! What a node of a world does: planned by it, and then done with all that grows by it.

ghost use Rattle.std.specs.Prelude.{◌≡◌, ◌<◌, ◌≤◌, IfErr, OnErr, OnOk, length};
ghost use Rattle.buses.specs.Buses as on_buses;
ghost use Rattle.buses.specs.Puts.{put_on};
ghost use Rattle.profile.specs.Times.{MAX_MOMENT_MS};
ghost use Rattle.world_log.specs.site_node.Node.{IsBefore, node_places};
ghost use Rattle.world_log.specs.site_node.Plan.{left_by};
ghost use Rattle.world_log.specs.site_node.Steps.{IsQuiet, NodeWakes, nothing_told};
ghost use Rattle.world.specs.Doing.{HasRested, IsDone, Logs, MayBeDone, told_of};
ghost use Rattle.world.specs.Dues.{IsDueFrom};
ghost use Rattle.world.specs.Refusals.{Of};
ghost use Rattle.world_log.specs.Growing.{frames_at};
ghost use Rattle.world_log.specs.Log.{GoesOn, caused, log_of};
ghost use Rattle.world_log.specs.node_laws.Stands.{Stands};

use crate::internetwork::Internetwork;
use buses::Buses;
use due_times::DueTimes;
use std::alloc::Allocator;
use std::mem;
use tags::{Fault, Items};
use world_log::{Cause, Draft, PartPlan, SiteNode, WorldLog};

/// A node does what it planned at the moment `now`, in milliseconds, once what the event is was written down; and all
/// grows by what comes of it: items, what goes out on buses, what was said, and the history. What takes memory comes
/// first.
///
/// # Errors
/// `Memory` alone. Node and buses are then as they were, and the log goes on from what it was.
#[tactic(auto, using(crate::proofs::ActingLaws::doing_rules))]
fn append_and_commit<A: Allocator + Copy>(
    alloc: A,
    log: &mut WorldLog<A>,
    buses: &mut Buses<A>,
    node: &mut SiteNode<A>,
    plan: PartPlan<A>,
    draft: &mut Draft<A>,
    cause: Cause<A>,
    now: u64,
) -> Result<(), Fault>
    requires greatest { now ≤ MAX_MOMENT_MS }
    requires stands { Stands now node.old }
    requires planned { MayBeDone now plan draft.old node.old }
    ensures left { OnOk result (node.new ≡ left_by now plan draft.old.changes.items node.old) }
    ensures logs { OnOk result
        (Logs now node.old (told_of plan draft.old) (caused cause (log_of log.old)) (log_of log.new)) }
    ensures puts { OnOk result (on_buses.buses_of buses.new ≡ put_on now (length log.old.items.items)
        (frames_at (node_places node.old) draft.old.out) (on_buses.buses_of buses.old)) }
    ensures cause { IfErr result (λ fault. fault ≡ Fault.Memory) }
    ensures unchanged { OnErr result (node.new ≡ node.old) }
    ensures on { OnErr result (GoesOn (log_of log.old) (log_of log.new)) }
    ensures quiet { OnErr result (on_buses.buses_of buses.new ≡ on_buses.buses_of buses.old) }
{
    let home = node.part().home();
    let behind = log.items.len() as u64;
    log.begin(&cause)?;
    let out = mem::replace(&mut draft.out, Items::new(alloc));
    let frames = log.grow(
        alloc,
        node,
        out,
        plan.said().len(),
        plan.outcome_count(),
        now,
    )?;
    let puts = buses.prepare(alloc, frames, behind)?;
    let told = node.commit(plan, now, draft)?;
    buses.put(puts, now);
    log.tell(cause, home, told, now);
    Ok(())
}

/// The same, where a refusal changes nothing: what the log has grown by is cut off.
///
/// # Errors
/// `Memory` alone. All is then as it was.
#[tactic(auto, using(crate::proofs::ActingLaws::undoing_rules))]
fn act<A: Allocator + Copy>(
    alloc: A,
    log: &mut WorldLog<A>,
    buses: &mut Buses<A>,
    node: &mut SiteNode<A>,
    plan: PartPlan<A>,
    draft: &mut Draft<A>,
    cause: Cause<A>,
    now: u64,
) -> Result<(), Fault>
    requires greatest { now ≤ MAX_MOMENT_MS }
    requires stands { Stands now node.old }
    requires planned { MayBeDone now plan draft.old node.old }
    ensures left { OnOk result (node.new ≡ left_by now plan draft.old.changes.items node.old) }
    ensures logs { OnOk result
        (Logs now node.old (told_of plan draft.old) (caused cause (log_of log.old)) (log_of log.new)) }
    ensures puts { OnOk result (on_buses.buses_of buses.new ≡ put_on now (length log.old.items.items)
        (frames_at (node_places node.old) draft.old.out) (on_buses.buses_of buses.old)) }
    ensures cause { IfErr result (λ fault. fault ≡ Fault.Memory) }
    ensures unchanged { OnErr result (node.new ≡ node.old) }
    ensures same { OnErr result (log_of log.new ≡ log_of log.old) }
    ensures quiet { OnErr result (on_buses.buses_of buses.new ≡ on_buses.buses_of buses.old) }
{
    let mark = log.mark();
    let done = append_and_commit(alloc, log, buses, node, plan, draft, cause, now);
    if done.is_err() {
        log.cut(mark);
    }
    done
}

/// The same, and from then on it is known when anything is due of the node at its place.
///
/// # Errors
/// `Memory` alone. All is then as it was.
fn act_at<A: Allocator + Copy>(
    alloc: A,
    log: &mut WorldLog<A>,
    buses: &mut Buses<A>,
    node: &mut SiteNode<A>,
    dues: &mut DueTimes<A>,
    place: usize,
    plan: PartPlan<A>,
    draft: &mut Draft<A>,
    cause: Cause<A>,
    now: u64,
) -> Result<(), Fault>
    requires greatest { now ≤ MAX_MOMENT_MS }
    requires stands { Stands now node.old }
    requires planned { MayBeDone now plan draft.old node.old }
    requires there { place < length dues.old }
    ensures left { OnOk result (node.new ≡ left_by now plan draft.old.changes.items node.old) }
    ensures logs { OnOk result
        (Logs now node.old (told_of plan draft.old) (caused cause (log_of log.old)) (log_of log.new)) }
    ensures puts { OnOk result (on_buses.buses_of buses.new ≡ put_on now (length log.old.items.items)
        (frames_at (node_places node.old) draft.old.out) (on_buses.buses_of buses.old)) }
    ensures due { OnOk result (IsDueFrom place node.new dues.old dues.new) }
    ensures cause { IfErr result (λ fault. fault ≡ Fault.Memory) }
    ensures unchanged { OnErr result (node.new ≡ node.old) }
    ensures same { OnErr result (log_of log.new ≡ log_of log.old) }
    ensures quiet { OnErr result (on_buses.buses_of buses.new ≡ on_buses.buses_of buses.old) }
    ensures kept { OnErr result (dues.new ≡ dues.old) }
{
    act(alloc, log, buses, node, plan, draft, cause, now)?;
    put_due(node, dues, place);
    Ok(())
}

/// The node of a place wakes, where nothing is due of it, and from then on it is known when anything is.
fn rest_at<A: Allocator + Copy>(
    node: &mut SiteNode<A>,
    dues: &mut DueTimes<A>,
    place: usize,
    now: u64,
)
    requires greatest { now ≤ MAX_MOMENT_MS }
    requires before { IsBefore now node.old }
    requires quiet { IsQuiet now node.old }
    requires there { place < length dues.old }
    ensures wakes { NodeWakes now node.old nothing_told node.new }
    ensures due { IsDueFrom place node.new dues.old dues.new }
{
    node.wake_quietly(now);
    put_due(node, dues, place);
}

/// Keeps when anything is due of the node of a place.
fn put_due<A: Allocator + Copy>(node: &SiteNode<A>, dues: &mut DueTimes<A>, place: usize)
    requires there { place < length dues.old }
    ensures { IsDueFrom place node.now dues.old dues.new }
{
    dues.set(place, node.next_due());
}

impl<A: Allocator + Copy> Internetwork<A> {
    /// The node at a place wakes, where nothing is due of it. It takes no memory.
    pub(crate) fn rest(&mut self, place: usize)
        requires quiet { Of place self.old (IsQuiet self.old.moment) }
        ensures rested { Of place self.old (HasRested self.old self.new place) }
    {
        let now = self.moment;
        rest_at(&mut self.nodes[place], &mut self.dues, place, now);
    }

    /// The node at a place does what it planned, once what the event is was written down.
    ///
    /// # Errors
    /// `Memory` alone. All is then as it was.
    pub(crate) fn carry_out(
        &mut self,
        place: usize,
        plan: PartPlan<A>,
        draft: &mut Draft<A>,
        cause: Cause<A>,
    ) -> Result<(), Fault>
        requires planned { Of place self.old (MayBeDone self.old.moment plan draft.old) }
        ensures done { OnOk result (Of place self.old (IsDone self.old self.new place plan draft.old cause)) }
        ensures cause { IfErr result (λ fault. fault ≡ Fault.Memory) }
        ensures unchanged { OnErr result (self.new ≡ self.old) }
    {
        let (alloc, now) = (self.alloc, self.moment);
        act_at(
            alloc,
            &mut self.log,
            &mut self.buses,
            &mut self.nodes[place],
            &mut self.dues,
            place,
            plan,
            draft,
            cause,
            now,
        )
    }
}
