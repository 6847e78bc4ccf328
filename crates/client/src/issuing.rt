//! What a client asks.

use crate::client::Client;
use crate::plan::{ClientIssuePlan, ClientIssued};
use crate::saying::who_is_parcel;
use apdu::Limits;
use npdu::Parcel;
use primitives::Request;
use std::alloc::Allocator;
use tags::Fault;

impl<A: Allocator + Copy> Client<A> {
    ghost use Rattle.std.specs.Prelude.{◌≡◌, ◌≤◌, ◌^◌, ◌⊎◌, Some, None, IfOk, IfErr, OnOk, OnErr};
    ghost use Rattle.primitives.specs.Sound.{IsSoundRequest};
    ghost use Rattle.client.specs.Issuing.{Issues, refusal};
    ghost use Rattle.client.specs.Plan.{IsPlanned, issued_by, left_by};
    ghost use Rattle.client.specs.Saying as saying;
    ghost use Rattle.profile.specs.Times.{MAX_MOMENT_MS};

    /// Asks all devices, or those with an instance within limits, who they are: what is said at the moment `now`, in
    /// milliseconds (16.10.1).
    ///
    /// # Errors
    /// `Memory` alone.
    pub fn who_is(&self, limits: Option<Limits>, now: u64) -> Result<Parcel<A>, Fault>
        requires greatest { now ≤ MAX_MOMENT_MS }
        requires order { self.now.machine.moment ≤ now }
        ensures parcel { IfOk result (λ parcel. parcel ≡ saying.who_is_parcel now self.now.mac limits) }
        ensures cause { IfErr result (λ fault. fault ≡ Fault.Memory) }
    {
        who_is_parcel(self.alloc, self.mac, now, limits)
    }

    /// Issues a request to the device of this instance at the moment `now`, in milliseconds, and answers the invoke
    /// ID given and what is said (5.4.4.1).
    ///
    /// # Errors
    /// The first that holds: `Unbound` where the device is not bound; `NoRoute` where a router said since that it has
    /// no route to its network; `TooLong` and `NoInvokeId` as the client of transactions tells. `Memory` also in
    /// their place. The client is then as it was.
    pub fn issue(
        &mut self,
        instance: u32,
        request: &Request<A>,
        now: u64,
    ) -> Result<ClientIssued<A>, Fault>
        requires sound { IsSoundRequest request.now }
        requires greatest { now ≤ MAX_MOMENT_MS }
        requires order { self.old.machine.moment ≤ now }
        ensures issued { IfOk result (λ issued. Issues now instance request.now self.old issued self.new) }
        ensures free { OnOk result (refusal now instance request.now self.old ≡ None) }
        ensures refused { IfErr result (λ fault. (fault ≡ Fault.Memory) ⊎
            (refusal now instance request.now self.old ≡ Some fault)) }
        ensures unchanged { OnErr result (self.new ≡ self.old) }
    {
        let ClientIssuePlan { invoke_id, plan } = self.plan_issue(instance, request, now)?;
        let told = self.commit(plan, now)?;
        Ok(ClientIssued {
            invoke_id,
            said: told.said,
        })
    }

    /// What an issue of a request to the device of this instance comes to at the moment `now`, in milliseconds:
    /// `commit` does it (5.4.4.1).
    ///
    /// # Errors
    /// Those of `issue`.
    pub fn plan_issue(
        &self,
        instance: u32,
        request: &Request<A>,
        now: u64,
    ) -> Result<ClientIssuePlan<A>, Fault>
        requires sound { IsSoundRequest request.now }
        ensures issued { IfOk result (λ p.
            Issues now instance request.now self.now (issued_by p) (left_by now p.plan self.now)) }
        ensures planned { IfOk result (λ p. IsPlanned now self.now p.plan) }
        ensures free { OnOk result (refusal now instance request.now self.now ≡ None) }
        ensures refused { IfErr result (λ fault. (fault ≡ Fault.Memory) ⊎
            (refusal now instance request.now self.now ≡ Some fault)) }
    {
        let Some(binding) = self.binding(instance) else {
            return Err(Fault::Unbound);
        };
        if binding.refused {
            return Err(Fault::NoRoute);
        }
        let plan = self.machine.plan_issue(request, &binding.bound, now)?;
        Ok(ClientIssuePlan {
            invoke_id: self.machine.next_invoke_id(),
            plan: self.said_by(plan, now)?,
        })
    }
}
