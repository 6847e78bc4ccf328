//! What each event does, but for what is heard on a bus.

ghost use Rattle.std.specs.Prelude.{◌≡◌, ◌≤◌, ◌<◌, ◌∷◌, [], IfErr, IfOk, IsTrue, OnErr, OnOk, false, length, true};
ghost use Rattle.history.specs.declared.Entry.TheVariants as history;
ghost use Rattle.primitives.specs.Sound.{IsSoundRequest};
ghost use Rattle.profile.specs.Times as times;
ghost use Rattle.world_log.specs.site_node.Node.{home_of};
ghost use Rattle.world_log.specs.site_node.Part.{IsDevice, IsNoDevice};
ghost use Rattle.world_log.specs.site_node.Steps.{IsNotForeign};
ghost use Rattle.world.specs.Laws.{IsSteady};
ghost use Rattle.world.specs.Refusals.{HappeningIsRefused, IsForeign, IsNoTick, Of, RefusesIt};
ghost use Rattle.world.specs.Resting.{RestsAt};
ghost use Rattle.world.specs.Step as spec;
ghost use Rattle.world.specs.Step.{Asks, Delivers, Issues, PassesNow, Registers, Restarts, Ticks, Wakes};
ghost use Rattle.world.specs.Step.{deafened, restart_entry};
ghost use Rattle.world.specs.declared.happening.Happening.TheVariants as happening;
ghost use Rattle.world_sites.specs.Opening.{object_site};

use crate::finding::Recipient;
use crate::internetwork::Internetwork;
use apdu::Limits;
use history::Entry;
use npdu::{Mac, Station};
use objects::Table;
use primitives::Request;
use profile::{MAX_MOMENT_MS, MAX_TICK_MS};
use std::alloc::{AllocError, Allocator};
use tags::Fault;
use world_log::{Cause, Draft, Key, Part, SiteNode, SitePort, WorldEntry};
use world_sites::opening_of;

/// Returns whether so many milliseconds pass at once: 1 to 60000, and not past the greatest moment.
fn may_pass(n: u64, moment: u64) -> bool
    requires { moment ≤ times.MAX_MOMENT_MS }
    ensures passes { (result ≡ true) → PassesNow n moment }
    ensures refused { (result ≡ false) → IsNoTick n moment }
{
    if n < 1 {
        return false;
    }
    if n > MAX_TICK_MS {
        return false;
    }
    n <= MAX_MOMENT_MS - moment
}

/// Returns the entry of the history that a device restarted at the moment `now`, in milliseconds.
///
/// # Errors
/// `NoSuch` where the node is no device.
fn entry_of_restart<A: Allocator + Copy>(
    node: &SiteNode<A>,
    now: u64,
) -> Result<WorldEntry<A>, Fault>
    ensures entry { IfOk result (λ entry. restart_entry now node.now.part ≡ entry ∷ []) }
    ensures device { OnOk result (IsDevice node.now.part) }
    ensures cause { IfErr result (λ fault. (fault ≡ Fault.NoSuch) × IsNoDevice node.now.part) }
{
    match node.part() {
        Part::Device(device) => Ok(Entry::Restarted {
            instance: device.i_am().instance,
            moment: now,
        }),
        Part::Client(_) | Part::Router(_) | Part::Manager { .. } => Err(Fault::NoSuch),
    }
}

/// Returns whether a node's port is a foreign device's (J.5.2).
#[tactic(auto, using(crate::proofs::Foreign::foreign_rules))]
fn is_foreign<A: Allocator + Copy>(node: &SiteNode<A>, now: u64) -> bool
    ensures foreign { IsTrue result → IsForeign node.now }
    ensures other { (result ≡ false) → IsNotForeign now node.now }
{
    let _ = now;
    match node.ports().get(0) {
        Some(port) => SitePort::is_foreign(port),
        None => false,
    }
}

impl<A: Allocator + Copy> Internetwork<A> {
    /// Time passes: 1 to 60000 ms, and not past the greatest moment.
    #[tactic(auto, using(crate::proofs::Standing::later_rules))]
    pub(crate) fn tick(&mut self, n: u64) -> Result<(), Fault>
        ensures ticks { OnOk result (Ticks n self.old self.new) }
        ensures cause { IfErr result (λ fault. RefusesIt (happening.Tick n) self.old fault) }
        ensures unchanged { OnErr result (self.new ≡ self.old) }
    {
        if !may_pass(n, self.moment) {
            return Err(Fault::NoSuch);
        }
        self.moment += n;
        Ok(())
    }

    /// The node at a place wakes (5.4.1, 6.6.2, J.5.2.3). Where nothing is due, nothing is planned.
    #[tactic(auto, using(crate::proofs::Dues::rest_rules))]
    pub(crate) fn wake(&mut self, place: usize, draft: &mut Draft<A>) -> Result<(), Fault>
        ensures wakes { OnOk result (Wakes place self.old self.new) }
        ensures rests { OnOk result (Of place self.old (RestsAt self.old self.new place)) }
        ensures cause { IfErr result (λ fault. HappeningIsRefused (happening.Wake place) self.old fault) }
        ensures unchanged { OnErr result (self.new ≡ self.old) }
    {
        let now = self.now();
        let node = self.node(place)?;
        if node.is_quiet(now) {
            self.rest(place);
            return Ok(());
        }
        let plan = node.plan_wakes(now, draft)?;
        self.carry_out(place, plan, draft, Cause::Nothing)?;
        Ok(())
    }

    /// The client at a place asks who is there (16.10.1).
    pub(crate) fn ask(
        &mut self,
        place: usize,
        limits: Option<Limits>,
        draft: &mut Draft<A>,
    ) -> Result<(), Fault>
        ensures asks { OnOk result (Asks place limits self.old self.new) }
        ensures cause { IfErr result (λ fault. HappeningIsRefused (happening.WhoIs place limits) self.old fault) }
        ensures unchanged { OnErr result (self.new ≡ self.old) }
    {
        let now = self.now();
        let node = self.node(place)?;
        let plan = node.plan_asks(limits, now, draft)?;
        self.carry_out(place, plan, draft, Cause::Nothing)?;
        Ok(())
    }

    /// Returns the entry of an issue of a request, the next of the history.
    fn entry_of_issue(
        &self,
        client: Station,
        instance: u32,
        request: &Request<A>,
    ) -> Result<WorldEntry<A>, AllocError>
        ensures { IfOk result (λ entry.
            entry ≡ history.Issue (length self.now.keys) client instance request.now self.now.moment) }
    {
        Ok(Entry::Issue {
            number: self.log.keys.len() as u64,
            client,
            instance,
            request: request.copy(self.alloc)?,
            moment: self.moment,
        })
    }

    /// The client at a place issues a request to the device of an instance (5.4.4.1).
    pub(crate) fn issue(
        &mut self,
        place: usize,
        instance: u32,
        request: &Request<A>,
        draft: &mut Draft<A>,
    ) -> Result<(), Fault>
        requires sound { IsSoundRequest request.now }
        ensures issues { OnOk result (Issues place instance request.now self.old self.new) }
        ensures cause { IfErr result (λ fault.
            HappeningIsRefused (happening.Issue place instance request.now) self.old fault) }
        ensures unchanged { OnErr result (self.new ≡ self.old) }
    {
        let now = self.now();
        let node = self.node(place)?;
        let (invoke_id, plan) = node.plan_issues(instance, request, now, draft)?;
        let client = node.part().home();
        let entry = self.entry_of_issue(client, instance, request)?;
        let cause = Cause::Issue(Key { client, invoke_id }, entry);
        self.carry_out(place, plan, draft, cause)?;
        Ok(())
    }

    /// Returns the objects that the site gives the device that a node is.
    ///
    /// # Errors
    /// `Memory` alone.
    fn opening_of(&self, node: &SiteNode<A>) -> Result<Table<A>, Fault>
        requires device { IsDevice node.now.part }
        requires steady { IsSteady self.now.site self.now.moment node.now }
        ensures opening { IfOk result (λ table. table ≡ (object_site self.now.site).opening (home_of node.now.part)) }
        ensures cause { IfErr result (λ fault. fault ≡ Fault.Memory) }
    {
        opening_of(self.alloc, &self.site, node.part().home())
    }

    /// The device at a place restarts with the objects that the site gives it (12).
    pub(crate) fn restart(&mut self, place: usize, draft: &mut Draft<A>) -> Result<(), Fault>
        ensures restarts { OnOk result (Restarts place self.old self.new) }
        ensures cause { IfErr result (λ fault. HappeningIsRefused (happening.Restart place) self.old fault) }
        ensures unchanged { OnErr result (self.new ≡ self.old) }
    {
        let now = self.now();
        let node = self.node(place)?;
        let entry = entry_of_restart(node, now)?;
        let opening = self.opening_of(node)?;
        let home = node.part().home();
        let plan = node.plan_restarts(opening, now, draft)?;
        self.carry_out(place, plan, draft, Cause::Restart(entry))?;
        self.deafen(home);
        Ok(())
    }

    /// The ears of a station on a bus are made anew (9.5.4).
    fn deafen(&mut self, station: Station)
        ensures { self.new ≡ record self.old { buses = deafened self.old.moment station self.old.buses } }
    {
        if let Mac::One(mac) = station.mac {
            self.buses.restart(station.net, mac, self.moment);
        }
    }

    /// The item of a number was delivered.
    #[tactic(auto, using(crate::proofs::Standing::marking_rules))]
    fn mark(&mut self, number: u64)
        requires { number < length self.old.items }
        ensures { spec.IsMarked number self.old self.new }
    {
        self.log.items.mark(number);
    }

    /// The foreign node at a place registers at its manager (J.5.2).
    pub(crate) fn register(&mut self, place: usize, draft: &mut Draft<A>) -> Result<(), Fault>
        ensures registers { OnOk result (Registers place self.old self.new) }
        ensures cause { IfErr result (λ fault. HappeningIsRefused (happening.Register place) self.old fault) }
        ensures unchanged { OnErr result (self.new ≡ self.old) }
    {
        let now = self.now();
        let node = self.node(place)?;
        if !is_foreign(node, now) {
            return Err(Fault::NoSuch);
        }
        let plan = node.plan_registers(now, draft)?;
        self.carry_out(place, plan, draft, Cause::Nothing)?;
        Ok(())
    }

    /// The item of a number is handed to the node that it goes to, which hears it (6.5, J.4.5).
    pub(crate) fn deliver(&mut self, number: u64, draft: &mut Draft<A>) -> Result<(), Fault>
        ensures delivers { OnOk result (Delivers number self.old self.new) }
        ensures cause { IfErr result (λ fault. HappeningIsRefused (happening.Deliver number) self.old fault) }
        ensures unchanged { OnErr result (self.new ≡ self.old) }
    {
        let now = self.now();
        let Recipient {
            item,
            place,
            port,
            node,
        } = self.recipient(number)?;
        let octets = item.octets.as_slice();
        let plan = node.plan_hears(port, item.from, octets, item.stamp, now, draft)?;
        self.carry_out(place, plan, draft, Cause::Nothing)?;
        self.mark(number);
        Ok(())
    }
}
