//! The nodes of a site, what is on its way between them, and what happened.

use crate::macs::are_at_macs;
use buses::Buses;
use due_times::DueTimes;
use std::alloc::{AllocError, Allocator};
use std::marker::Model;
use tags::Fault;
use traffic::Item;
use world_log::{Draft, SaidMessage, SiteNode, WorldEntry, WorldLog};
use world_sites::{Directory, Site, buses_of, nodes_of};

/// So many of the last items are never forgotten, however old they are: what happens at random may choose any of them.
pub const LATEST_ITEMS: usize = 64;

/// The nodes of a site, all that is on its way between them, and what happened, however it came about.
#[derive(Drop)]
pub struct Internetwork<A: Allocator + Copy> {
    pub(crate) alloc: A,
    pub(crate) site: Site<A>,
    pub(crate) moment: u64,
    pub(crate) nodes: Vec<SiteNode<A>, A>,
    /// The moment, by the place of each node, before which nothing is due of it.
    pub(crate) dues: DueTimes<A>,
    pub(crate) directory: Directory<A>,
    pub(crate) buses: Buses<A>,
    pub(crate) log: WorldLog<A>,
    /// It is lent to each event, and keeps its memory.
    pub(crate) draft: Draft<A>,
}

impl<A: Allocator + Copy> Model for Internetwork<A> {
    ghost use Rattle.buses.specs.Buses.{buses_of};
    ghost use Rattle.world.specs.Dues.{AreDues};
    ghost use Rattle.world.specs.Laws.{AreSteady};
    ghost use Rattle.world.specs.World.{WorldState};
    ghost use Rattle.world_log.specs.Kept.{all_said};
    ghost use Rattle.world_sites.specs.Directory.{Leads};

    ghost Value = { WorldState A };

    ghost view = { λ w. record {
      site = w.site;
      moment = w.moment;
      nodes = w.nodes.items;
      first_item = w.log.items.first;
      items = w.log.items.items;
      buses = buses_of w.buses;
      keys = w.log.keys.keys;
      first_entry = w.log.first_entry;
      history = w.log.history.items;
      first_said = w.log.first_said;
      said = all_said w.log.said.items;
    } };

    ghost invariant = { λ w. AreSteady w.site w.moment w.nodes.items w.log.items.items
        × Leads w.directory w.nodes.items × AreDues w.dues w.nodes.items };
}

impl<A: Allocator + Copy> Internetwork<A> {
    ghost use Rattle.std.specs.Prelude.{◌≡◌, ◌<◌, ◌≤◌, ◌+◌, ◌++◌, ◌^◌, [], drop, length};
    ghost use Rattle.std.specs.Prelude.{IfErr, IfNone, IfOk, IfSome, OnErr, OnOk};
    ghost use Rattle.std.specs.Prelude.{option_map, slice_get};
    ghost use Rattle.buses.specs.Buses as on_buses;
    ghost use Rattle.buses.specs.Buses.{buses_of};
    ghost use Rattle.due_times.specs.Until.{Until};
    ghost use Rattle.profile.specs.Times.{MAX_MOMENT_MS};
    ghost use Rattle.world_sites.specs.site.Sound.{IsSound};
    ghost use Rattle.traffic.specs.Seeking.{Waits};
    ghost use Rattle.world.specs.Dues.{AreAtRest, AreDues};
    ghost use Rattle.world.specs.Keeping.{Forgets, handed_out};
    ghost use Rattle.world.specs.Laws.{AreSteady, Stands};
    ghost use Rattle.world.specs.World.{fresh_world};
    ghost use Rattle.world_log.specs.Kept.{all_said};
    ghost use Rattle.world_sites.specs.Directory.{Leads};

    /// Returns a site as it opens: the moment is 0, each device has the objects that the site gives it, no client has
    /// asked anything, no router and no manager has heard anything, no node has heard a token, and nothing is on its
    /// way (6.6, 9.5.6, J).
    ///
    /// # Errors
    /// `Memory` alone.
    #[tactic(auto, using(crate::proofs::FreshLaws::fresh_rules))]
    pub fn new(alloc: A, site: Site<A>) -> Result<Self, Fault>
        ensures fresh { IfOk result (λ world. world ≡ fresh_world site) }
        ensures sound { OnOk result (IsSound site) }
        ensures cause { IfErr result (λ fault. fault ≡ Fault.Memory) }
    {
        let nodes = nodes_of(alloc, &site)?;
        are_at_macs(nodes.as_slice());
        let dues = DueTimes::new(alloc, nodes.len())?;
        let directory = Directory::new(alloc, nodes.as_slice())?;
        let buses = Buses::new(buses_of(alloc, &site)?);
        Ok(Internetwork::open(alloc, site, nodes, dues, directory, buses))
    }

    /// Returns these nodes and buses of a site at the moment 0: nothing was put out, issued or said.
    fn open(
        alloc: A,
        site: Site<A>,
        nodes: Vec<SiteNode<A>, A>,
        dues: DueTimes<A>,
        directory: Directory<A>,
        buses: Buses<A>,
    ) -> Self
        requires steady { AreSteady {A = A} site 0 nodes.items [] }
        requires leads { Leads directory nodes.items }
        requires dues { AreDues dues nodes.items }
        ensures { result ≡ record {
          site = site;
          moment = 0;
          nodes = nodes.items;
          first_item = 0;
          items = [];
          buses = on_buses.buses_of buses;
          keys = [];
          first_entry = 0;
          history = [];
          first_said = 0;
          said = [];
        } }
    {
        Internetwork {
            alloc,
            site,
            moment: 0,
            nodes,
            dues,
            directory,
            buses,
            log: WorldLog::new(alloc),
            draft: Draft::new(alloc),
        }
    }

    /// Lets go of a site at work. Whoever calls it, and drops none, need not prove anew how all its parts are let go.
    pub fn close(self) {}

    /// Returns the moment, in milliseconds: the sum of all ticks.
    pub fn moment(&self) -> u64
        ensures { result ≡ self.now.moment }
    {
        self.now()
    }

    /// Returns the moment, and what is known of each state at it.
    pub(crate) fn now(&self) -> u64
        ensures moment { result ≡ self.now.moment }
        ensures greatest { result ≤ MAX_MOMENT_MS }
        ensures stands { Stands self.now }
    {
        self.moment
    }

    /// Returns the memory that it is in.
    pub fn alloc(&self) -> A {
        self.alloc
    }

    /// Returns the buses, and what is on its way on them.
    pub fn buses(&self) -> &Buses<A>
        ensures { buses_of result.now ≡ self.now.buses }
    {
        &self.buses
    }

    /// Returns the site.
    pub fn site(&self) -> &Site<A>
        ensures { result.now ≡ self.now.site }
    {
        &self.site
    }

    /// Returns the place of the first node, from a place on, of which anything may be due where it wakes: of those
    /// before it nothing is (5.4.1, 6.6.2, 9.5.6).
    pub fn first_due(&self, from: usize) -> Option<usize>
        ensures there { IfSome result (λ place. (from ≤ place) × (place < length self.now.nodes)) }
        ensures fits { IfSome result (λ place. place + 1 < 2 ^ 64) }
        ensures rest { IfSome result (λ place. AreAtRest from place self.now) }
        ensures none { IfNone result (AreAtRest from (length self.now.nodes) self.now) }
    {
        self.dues.first_due(from, self.moment)
    }

    /// Returns a moment, in milliseconds, before which nothing is due of any node where it wakes (5.4.1, 6.6.2, 9.5.6).
    pub fn next_due(&self) -> u64
        ensures { Until result (λ now. AreAtRest 0 (length self.now.nodes) (record self.now { moment = now })) }
    {
        self.dues.next()
    }

    /// Returns the nodes, in the order of the site.
    pub fn nodes(&self) -> &[SiteNode<A>]
        ensures { result.now ≡ self.now.nodes }
    {
        self.nodes.as_slice()
    }

    /// Returns how many items were put out on networks of BACnet/IP: each has its place among them as its number.
    pub fn item_count(&self) -> usize
        ensures { result ≡ length self.now.items }
    {
        self.log.items.len()
    }

    /// Returns the number of the first item that is kept.
    pub fn first_item(&self) -> usize
        ensures { result ≡ self.now.first_item }
    {
        self.log.items.first()
    }

    /// Returns those items that are kept, in order: all from that number on.
    pub fn items(&self) -> &[Item<A>]
        ensures kept { result.now ≡ drop self.now.first_item self.now.items }
        ensures all { self.now.first_item ≡ 0 → result.now ≡ self.now.items }
    {
        self.log.items.kept()
    }

    /// Returns the item of this number, if so many were put out. In the place of one that is forgotten a blank stands,
    /// which is as old as can be.
    pub fn item_at(&self, number: usize) -> Option<&Item<A>>
        ensures { option_map (λ i. i.now) result ≡ slice_get self.now.items number }
    {
        match self.log.items.item_at(number as u64) {
            Ok(item) => Some(item),
            Err(_) => None,
        }
    }

    /// Returns how many issues aren't forgotten, of all that there were.
    pub fn issues_kept(&self) -> usize {
        self.log.keys.kept()
    }

    /// Returns the number of the next item from this one on, and before another, that was not yet delivered and may
    /// still be heard.
    pub fn next_waiting(&self, from: usize, before: usize) -> Option<usize>
        ensures { IfSome result (λ number. Waits self.now.moment from before self.now.items number) }
    {
        self.log.items.next_waiting(from, before, self.moment)
    }

    /// Returns how many entries were handed out.
    pub fn first_entry(&self) -> usize
        ensures { result ≡ self.now.first_entry }
    {
        self.log.first_entry
    }

    /// Returns what was issued, executed, answered and ended, in order, and wasn't handed out.
    pub fn history(&self) -> &[WorldEntry<A>]
        ensures { result.now ≡ self.now.history }
    {
        self.log.history.as_slice()
    }

    /// Returns how many messages that were said are forgotten.
    pub fn first_said(&self) -> usize
        ensures { result ≡ self.now.first_said }
    {
        self.log.first_said
    }

    /// Returns what is inside each message that was said, in order, and isn't forgotten.
    pub fn said(&self) -> &[SaidMessage<A>]
        ensures { all_said result.now ≡ self.now.said }
    {
        self.log.said.as_slice()
    }

    /// Hands out all entries of the history that weren't handed out yet, behind others.
    ///
    /// # Errors
    /// Want of memory. All is then as it was.
    pub fn hand_out(&mut self, told: &mut Vec<WorldEntry<A>, A>) -> Result<(), AllocError>
        ensures told { OnOk result (told.new.items ≡ told.old.items ++ self.old.history) }
        ensures handed { OnOk result (self.new ≡ handed_out self.old) }
        ensures nothing { OnErr result (told.new.items ≡ told.old.items) }
        ensures unchanged { OnErr result (self.new ≡ self.old) }
    {
        self.log.hand_out(told)
    }

    /// Forgets what can no longer matter: items that are too old to be heard, but for the last `LATEST_ITEMS`, what is
    /// known of frames that are, issues that a later one of their client under their invoke ID replaced, and what was
    /// said. Whatever world this is kept of, what is left is kept of it. Each list is looked through once about half of
    /// it can go.
    pub fn forget(&mut self)
        ensures { Forgets self.old self.new }
    {
        let now = self.moment;
        self.log.forget(LATEST_ITEMS, now);
        self.buses.forget(now);
    }
}
