//! What a router does when it wakes.

use crate::plan::{PortParcel, RouterChange, RouterPlan};
use crate::router::Router;
use std::alloc::Allocator;
use tags::{Fault, Items};

impl<A: Allocator + Copy> Router<A> {
    ghost use Rattle.std.specs.Prelude.{◌≡◌, ◌≤◌, IfOk, IfErr, OnOk, OnErr, not, IsTrue, false};
    ghost use Rattle.profile.specs.Times.{MAX_MOMENT_MS};
    ghost use Rattle.router.specs.Messages.{announced};
    ghost use Rattle.router.specs.Plan.{HasRoutes, left_by};
    ghost use Rattle.router.specs.Router.{woken};

    /// Wakes at the moment `now`, in milliseconds: at its first wake it says on each port which networks lie behind its
    /// others (6.6.2).
    ///
    /// # Errors
    /// `Memory` alone, and only at its first wake. The router is then as it was.
    pub fn on_tick(&mut self, now: u64) -> Result<Items<PortParcel<A>, A>, Fault>
        requires greatest { now ≤ MAX_MOMENT_MS }
        requires order { self.old.moment ≤ now }
        ensures told { IfOk result (λ out. out ≡ announced now self.old) }
        ensures left { OnOk result (self.new ≡ woken now self.old) }
        ensures cause { IfErr result (λ fault. fault ≡ Fault.Memory) }
        ensures first { OnErr result (self.old.woken ≡ false) }
        ensures unchanged { OnErr result (self.new ≡ self.old) }
    {
        let plan = self.plan_tick(now)?;
        let out = self.commit(plan, now);
        Ok(out)
    }

    /// Returns what it does when it wakes at the moment `now`, in milliseconds: `commit` does it.
    ///
    /// # Errors
    /// `Memory` alone, and only at its first wake.
    pub fn plan_tick(&self, now: u64) -> Result<RouterPlan<A>, Fault>
        ensures told { IfOk result (λ plan. plan.out ≡ announced now self.now) }
        ensures left { IfOk result (λ plan. left_by now plan self.now ≡ woken now self.now) }
        ensures cause { IfErr result (λ fault. fault ≡ Fault.Memory) }
        ensures first { OnErr result (self.now.woken ≡ false) }
    {
        let out = if self.woken {
            Items::new(self.alloc)
        } else {
            self.named_on_each(now)?
        };
        Ok(RouterPlan {
            out,
            change: RouterChange::Wakes,
        })
    }
}
