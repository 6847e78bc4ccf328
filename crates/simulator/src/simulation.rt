//! The world: what came about from a site's opening by events.

ghost use Rattle.std.specs.Prelude.{◌≡◌, [], IfOk, IfErr, IfNone, IfSome, OnOk, OnErr};
ghost use Rattle.std.specs.List.{AllByRecursion};
ghost use Rattle.buses.specs.Buses.{buses_of};
ghost use Rattle.carry.specs.Things.{AreCarried};
ghost use Rattle.world.specs.carry_ends.Ends.{IssuesAreAccountedFor, OpenAreUnclosed};
ghost use Rattle.world.specs.carry_world.Answers.{WholeIsExecuted};
ghost use Rattle.world.specs.carry_world.Laws.{IsLegal, WholeIsIssued};
ghost use Rattle.simulator.specs.Ended.{OverdueAreEnded};
ghost use Rattle.simulator.specs.Flows.{Gives, IsLess, left_of};
ghost use Rattle.simulator.specs.Heard.{AnswersAreWhole, ExecutedWasIssued, HeardWasSaid, OutcomesHaveIssues};
ghost use Rattle.simulator.specs.Heard.{RequestsAreWhole};
ghost use Rattle.simulator.specs.Judged.{instances_of, judged_of};
ghost use Rattle.simulator.specs.Runs.{Runs};
ghost use Rattle.world.specs.Refusals.{IsRefused};
ghost use Rattle.world.specs.Step.{IsSoundEvent, IsSoundIfAny, Steps};
ghost use Rattle.world.specs.Tables.{HasNoTable, HasNode, HasTable};
ghost use Rattle.world.specs.World.{fresh_world, plain};
ghost use Rattle.world.specs.world_log.Kept.{all_said};
ghost use Rattle.world.specs.world_sites.Finding.{IsNobody};

use crate::flow::{Flow, next_of};
use buses::Buses;
use objects::Table;
use std::alloc::Allocator;
use std::marker::Model;
use tags::Fault;
use traffic::Item;
use world::{Event, Internetwork, SaidMessage, Site, SiteNode, WorldEntry};

/// A site with its stations, all that is on its way between them, and what happened: it came about from the site's
/// opening by events alone.
#[derive(Drop)]
pub struct World<A: Allocator + Copy> {
    internetwork: Internetwork<A>,
}

impl<A: Allocator + Copy> Model for World<A> {
    ghost use Rattle.simulator.specs.Laws.{IsLed};
    ghost use Rattle.world.specs.World.{WorldState};

    ghost Value = { WorldState A };

    ghost view = { λ w. w.internetwork };

    ghost invariant = { λ w. IsLed w.internetwork };
}

impl<A: Allocator + Copy> World<A> {
    ghost use Rattle.simulator.specs.Laws.{IsLed};

    /// The world of a site as it opens: the moment is 0, each device has the objects that the site gives it, no client
    /// has asked anything, no router and no manager has heard anything, no node has heard a token, and nothing is on
    /// its way (6.6, 9.5.6, J).
    ///
    /// # Errors
    /// `Memory` alone.
    #[tactic(auto, using(crate::proofs::FreshLaws::fresh_rules))]
    pub fn new(alloc: A, site: Site<A>) -> Result<Self, Fault>
        ensures fresh { IfOk result (λ world. world ≡ fresh_world site) }
        ensures opens { IfOk result (λ world. (world.site ≡ site) × ((world.moment ≡ 0) × (world.history ≡ []))) }
        ensures cause { IfErr result (λ fault. fault ≡ Fault.Memory) }
    {
        let internetwork = Internetwork::new(alloc, site)?;
        Ok(World { internetwork })
    }

    /// The site, as it was given.
    pub fn site(&self) -> &Site<A>
        ensures { result.now ≡ self.now.site }
    {
        self.internetwork.site()
    }

    /// The moment, in milliseconds: the sum of all ticks.
    pub fn moment(&self) -> u64
        ensures { result ≡ self.now.moment }
    {
        self.internetwork.moment()
    }

    /// All that was put out, in order: an item has its place in it as its number. Whatever is inside of it was said.
    #[tactic(auto, using(crate::proofs::LedLaws::carried_rules))]
    pub fn items(&self) -> &[Item<A>]
        ensures items { result.now ≡ self.now.items }
        ensures carried { AreCarried self.now.said (plain self.now).things }
    {
        self.internetwork.items()
    }

    /// The buses, in the order of the site: what may still be heard on each, and how many frames were put out on all of
    /// them (9.3).
    pub fn buses(&self) -> &Buses<A>
        ensures { buses_of result.now ≡ self.now.buses }
    {
        self.internetwork.buses()
    }

    /// What was issued, executed, answered and ended, in order. It is legal: each answer is the reply of one execution
    /// of that very issue at the device that it names, no issue is executed twice, and the objects of each device are
    /// what its executions leave. None is forgotten: each issue has its one closing entry, or is open at its client,
    /// under the last issue of its invoke ID, and no transaction is open whose issue has a closing entry (5.4.4).
    pub fn history(&self) -> &[WorldEntry<A>]
        ensures history { result.now ≡ self.now.history }
        ensures legal { IsLegal (instances_of self.now.site) result.now (judged_of self.now) }
        ensures accounted { IssuesAreAccountedFor (plain self.now) }
        ensures unclosed { OpenAreUnclosed (plain self.now) }
    {
        self.internetwork.history()
    }

    /// The station of a name with all that it is, or none where no station has it.
    pub fn node(&self, name: &[u8]) -> Option<&SiteNode<A>>
        ensures node { IfSome result (λ node. HasNode name.now self.now node.now) }
        ensures none { IfNone result (IsNobody name.now self.now.nodes) }
    {
        self.internetwork.node_of(name)
    }

    /// The objects of the device of a name, or none where no device has it.
    pub fn table(&self, name: &[u8]) -> Option<&Table<A>>
        ensures table { IfSome result (λ table. HasTable name.now self.now table.now) }
        ensures none { IfNone result (HasNoTable name.now self.now) }
    {
        self.internetwork.table(name)
    }

    /// What is inside each message that a device or a client said, in order (6.2).
    pub fn said(&self) -> &[SaidMessage<A>]
        ensures { all_said result.now ≡ self.now.said }
    {
        self.internetwork.said()
    }

    /// An event happens: the station that it is for makes its own step, no other changes, and what is on its way, what
    /// was said and the history grow by exactly what comes of it. What is heard by it was said, what is executed was
    /// issued, what is told is of its issue, and what comes whole, now or later, is the whole of one. A client that
    /// wakes leaves none of its issues open that is DEADLINE_MS old. Its request, where it has one, must be sound.
    ///
    /// # Errors
    /// `NoSuch` for a name, an item or a tick that isn't there; `Expired` for an item that is too old; what the station
    /// refuses; or `Memory`. The world is then as it was.
    #[tactic(auto, using(crate::proofs::LedLaws::step_rules))]
    pub fn step(&mut self, event: &Event<A>) -> Result<(), Fault>
        requires sound { IsSoundEvent event.now }
        ensures steps { OnOk result (Steps event.now self.old self.new) }
        ensures cause { IfErr result (λ fault. IsRefused event.now self.old fault) }
        ensures unchanged { OnErr result (self.new ≡ self.old) }
        ensures site { self.new.site ≡ self.old.site }
        ensures heard { HeardWasSaid event.now self.old self.new }
        ensures executed { ExecutedWasIssued event.now self.old self.new }
        ensures outcomes { OutcomesHaveIssues event.now self.old self.new }
        ensures requests { RequestsAreWhole event.now self.old self.new }
        ensures answers { AnswersAreWhole event.now self.old self.new }
        ensures ended { OnOk result (OverdueAreEnded event.now self.old self.new) }
        ensures whole { WholeIsIssued (plain self.new) }
        ensures whole_answers { WholeIsExecuted (plain self.new) }
    {
        self.internetwork.step(event)
    }

    /// The next event of a flow, or none where all of its milliseconds have passed. It is made by `step` before the
    /// next one is asked for.
    ///
    /// # Errors
    /// `Memory` alone. The flow is then as it was.
    pub fn next_of(&self, flow: &mut Flow) -> Result<Option<Event<A>>, Fault>
        ensures sound { IfOk result IsSoundIfAny }
        ensures gives { IfOk result (Gives flow.old flow.new) }
        ensures less { IfOk result (IsLess (left_of flow.old) flow.new) }
        ensures cause { IfErr result (λ fault. fault ≡ Fault.Memory) }
        ensures unchanged { OnErr result (flow.new ≡ flow.old) }
    {
        next_of(&self.internetwork, flow)
    }

    /// Events happen, one after another: none is left out but those that are refused, and these change nothing.
    /// Whatever they are, what each brings was said, issued and whole, and the history is legal then: the promise. Each
    /// issue of it has its one closing entry, or is open at its client.
    pub fn run(&mut self, events: &[Event<A>])
        requires sound { AllByRecursion IsSoundEvent events.now }
        ensures runs { Runs events.now self.old self.new }
        ensures legal { IsLegal (instances_of self.new.site) self.new.history (judged_of self.new) }
        ensures accounted { IssuesAreAccountedFor (plain self.new) }
        ensures unclosed { OpenAreUnclosed (plain self.new) }
        ensures carried { AreCarried self.new.said (plain self.new).things }
        ensures whole { WholeIsIssued (plain self.new) }
        ensures whole_answers { WholeIsExecuted (plain self.new) }
    {
        for event in events {
            let _ = self.step(event);
        }
        self.promised();
    }

    /// An equal world, in the same memory.
    ///
    /// # Errors
    /// `Memory` alone.
    pub fn copy(&self) -> Result<Self, Fault>
        ensures copy { IfOk result (λ copy. copy ≡ self.now) }
        ensures cause { IfErr result (λ fault. fault ≡ Fault.Memory) }
    {
        let internetwork = self.internetwork.copy()?;
        Ok(World { internetwork })
    }

    /// The same without the promise, to look at.
    pub fn internetwork(&self) -> &Internetwork<A>
        ensures same { result.now ≡ self.now }
    {
        &self.internetwork
    }

    /// The same without the promise, for whoever lets happen what no event does.
    pub fn into_internetwork(self) -> Internetwork<A>
        ensures same { result ≡ self }
        ensures led { IsLed result }
    {
        self.internetwork
    }

    /// Lets go of a world. Whoever calls it, and drops none, need not prove anew how all its parts are let go.
    pub fn close(self) {
        self.internetwork.close()
    }

    /// What the promise says of every world, for the proofs of others: it does nothing.
    fn promised(&self)
        ensures legal { IsLegal (instances_of self.now.site) self.now.history (judged_of self.now) }
        ensures accounted { IssuesAreAccountedFor (plain self.now) }
        ensures unclosed { OpenAreUnclosed (plain self.now) }
        ensures carried { AreCarried self.now.said (plain self.now).things }
        ensures whole { WholeIsIssued (plain self.now) }
        ensures whole_answers { WholeIsExecuted (plain self.now) }
    {
        let _ = &self.internetwork;
    }
}
