//! What a node makes of its other inputs.

ghost use Rattle.std.specs.Prelude.{◌≡◌, ◌≤◌, ◌⊎◌, ◌↔◌, [], true, IfOk, IfErr};
ghost use Rattle.primitives.specs.Sound.{IsSoundRequest};
ghost use Rattle.profile.specs.Times.{MAX_MOMENT_MS};
ghost use Rattle.due_times.specs.Until.{Until};
ghost use Rattle.site_node.specs.Node.{IsBefore};
ghost use Rattle.site_node.specs.Part.{IsClient, IsNoDevice, IsPlanned, downs_of, told_by};
ghost use Rattle.site_ports.specs.Ports.{NothingIsDue};
ghost use Rattle.site_node.specs.Plan.{left_by};
ghost use Rattle.site_node.specs.Refusals.{AskingIsRefused, IssueIsRefused, WakeIsRefused};
ghost use Rattle.site_node.specs.Steps.{IsNotForeign, IsQuiet, NodeAsks, NodeIssues, NodeRegisters, NodeRestarts};
ghost use Rattle.site_node.specs.Steps.{NodeWakes, nothing_told};

use crate::drafting::{down_first, register_first, wake_first};
use crate::node::SiteNode;
use crate::plan::PartPlan;
use apdu::Limits;
use objects::Table;
use primitives::Request;
use site_ports::{Draft, SitePort, is_any_due, next_due};
use std::alloc::Allocator;
use tags::Fault;

/// Returns whether nothing goes down and nothing is due.
fn rests<A: Allocator + Copy>(plan: &PartPlan<A>, ports: &[SitePort<A>], now: u64) -> bool
    ensures silent { result ≡ true → downs_of plan.now ≡ [] }
    ensures none { result ≡ true → NothingIsDue now ports.now }
{
    plan.says_nothing() && !is_any_due(ports, now)
}

impl<A: Allocator + Copy> SiteNode<A> {
    /// Returns what it does where it wakes at the moment `now`, in milliseconds, its part first and then its ports, in
    /// order, and drafts what they do: `commit` does it (5.4.1, 6.6.2, 9.5, J.5.2.3). Where nothing is said and nothing
    /// due, its ports stay as they are.
    ///
    /// # Errors
    /// `TooLong` where what is said is too long for its port; or `Memory`.
    pub fn plan_wakes(&self, now: u64, draft: &mut Draft<A>) -> Result<PartPlan<A>, Fault>
        requires greatest { now ≤ MAX_MOMENT_MS }
        requires before { IsBefore now self.now }
        ensures wakes { IfOk result (λ plan. NodeWakes now self.now
            (record { told = told_by plan; out = draft.new.out }) (left_by now plan draft.new.changes.items self.now)) }
        ensures planned { IfOk result (IsPlanned now self.now.part) }
        ensures cause { IfErr result (λ fault. (fault ≡ Fault.Memory) ⊎ WakeIsRefused now self.now fault) }
    {
        let ports = self.ports.as_slice();
        let plan = self.part.plan_tick(now)?;
        if rests(&plan, ports, now) {
            draft.clear();
            return Ok(plan);
        }
        wake_first(ports, &plan, now, draft)?;
        Ok(plan)
    }

    /// Returns whether nothing is due where it wakes at the moment `now`, in milliseconds: not of its part, and not at
    /// a port (9.5.6).
    pub fn is_quiet(&self, now: u64) -> bool
        ensures { (result ≡ true) ↔ IsQuiet now self.now }
    {
        self.part.is_quiet(now) && !is_any_due(self.ports.as_slice(), now)
    }

    /// Returns a moment, in milliseconds, before which nothing is due where it wakes.
    pub fn next_due(&self) -> u64
        ensures { Until result (λ now. IsQuiet now self.now) }
    {
        self.part.next_due().min(next_due(self.ports.as_slice()))
    }

    /// Wakes at the moment `now`, in milliseconds, where nothing is due: nothing is said, told or put out, and its
    /// ports stay as they are. It takes no memory.
    pub fn wake_quietly(&mut self, now: u64)
        requires greatest { now ≤ MAX_MOMENT_MS }
        requires before { IsBefore now self.old }
        requires quiet { IsQuiet now self.old }
        ensures wakes { NodeWakes now self.old nothing_told self.new }
        ensures ports { self.new.ports ≡ self.old.ports }
    {
        self.part.wake_quietly(now);
    }

    /// Returns what an issue of a request to the device of this instance comes to at the moment `now`, in milliseconds,
    /// and the invoke ID that is given, and drafts what goes out: `commit` does it (5.4.4.1).
    ///
    /// # Errors
    /// `NoSuch` where it is no client; those of `Client::issue`; `TooLong` where what is said is too long for its port;
    /// or `Memory`, of a client alone.
    pub fn plan_issues(
        &self,
        instance: u32,
        request: &Request<A>,
        now: u64,
        draft: &mut Draft<A>,
    ) -> Result<(u8, PartPlan<A>), Fault>
        requires sound { IsSoundRequest request.now }
        requires greatest { now ≤ MAX_MOMENT_MS }
        requires before { IsBefore now self.now }
        ensures issues { IfOk result (λ p. NodeIssues now instance request.now p.0 self.now
            (record { told = told_by p.1; out = draft.new.out }) (left_by now p.1 draft.new.changes.items self.now)) }
        ensures planned { IfOk result (λ p. IsPlanned now self.now.part p.1) }
        ensures cause { IfErr result (λ fault. ((fault ≡ Fault.Memory) × IsClient self.now.part) ⊎
            IssueIsRefused now instance request.now self.now fault) }
    {
        let issue = self.part.plan_issue(self.alloc, instance, request, now)?;
        down_first(self.ports.as_slice(), &issue.1, now, draft)?;
        Ok(issue)
    }

    /// Returns what a question who is there comes to at the moment `now`, in milliseconds, and drafts what goes out:
    /// `commit` does it (16.10.1).
    ///
    /// # Errors
    /// `NoSuch` where it is no client; `TooLong` where what is said is too long for its port; or `Memory`, of a client
    /// alone.
    pub fn plan_asks(
        &self,
        limits: Option<Limits>,
        now: u64,
        draft: &mut Draft<A>,
    ) -> Result<PartPlan<A>, Fault>
        requires greatest { now ≤ MAX_MOMENT_MS }
        requires before { IsBefore now self.now }
        ensures asks { IfOk result (λ plan. NodeAsks now limits self.now
            (record { told = told_by plan; out = draft.new.out }) (left_by now plan draft.new.changes.items self.now)) }
        ensures planned { IfOk result (IsPlanned now self.now.part) }
        ensures cause { IfErr result (λ fault. ((fault ≡ Fault.Memory) × IsClient self.now.part) ⊎
            AskingIsRefused now limits self.now fault) }
    {
        let plan = self.part.plan_ask(self.alloc, limits, now)?;
        down_first(self.ports.as_slice(), &plan, now, draft)?;
        Ok(plan)
    }

    /// Returns what it does where it registers as a foreign device at the moment `now`, in milliseconds, and drafts
    /// what its port does: `commit` does it (J.5.2).
    ///
    /// # Errors
    /// `NoSuch` where it is no foreign node: its port says nothing; or `Memory`.
    pub fn plan_registers(&self, now: u64, draft: &mut Draft<A>) -> Result<PartPlan<A>, Fault>
        requires greatest { now ≤ MAX_MOMENT_MS }
        requires before { IsBefore now self.now }
        ensures registers { IfOk result (λ plan. NodeRegisters now self.now
            (record { told = told_by plan; out = draft.new.out }) (left_by now plan draft.new.changes.items self.now)) }
        ensures planned { IfOk result (IsPlanned now self.now.part) }
        ensures cause { IfErr result (λ fault. (fault ≡ Fault.Memory) ⊎
            ((fault ≡ Fault.NoSuch) × IsNotForeign now self.now)) }
    {
        register_first(self.ports.as_slice(), now, draft)?;
        if draft.out.is_empty() {
            return Err(Fault::NoSuch);
        }
        Ok(PartPlan::Nothing)
    }

    /// Returns what a restart with these objects comes to at the moment `now`, in milliseconds: `commit` does it.
    /// Nothing is said, and what waited in a port is gone (12). It takes no memory.
    ///
    /// # Errors
    /// `NoSuch` where it is no device.
    pub fn plan_restarts(
        &self,
        opening: Table<A>,
        now: u64,
        draft: &mut Draft<A>,
    ) -> Result<PartPlan<A>, Fault>
        ensures restarts { IfOk result (λ plan. NodeRestarts now opening self.now
            (record { told = told_by plan; out = draft.new.out }) (left_by now plan draft.new.changes.items self.now)) }
        ensures planned { IfOk result (IsPlanned now self.now.part) }
        ensures cause { IfErr result (λ fault. (fault ≡ Fault.NoSuch) × IsNoDevice self.now.part) }
    {
        draft.clear();
        if self.part.restarts() {
            Ok(PartPlan::Restarts(opening))
        } else {
            Err(Fault::NoSuch)
        }
    }
}
