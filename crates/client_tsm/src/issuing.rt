//! What a client does at an issue (5.4.1, 5.4.4.1).

ghost use Rattle.std.specs.Prelude.{◌≡◌, IfOk};
ghost use Rattle.client_tsm.specs.Issuing.{opening};

use crate::asking::octets_of;
use crate::client::ClientTsm;
use crate::opened::OpenedTransaction;
use crate::plan::{ClientTsmChange, ClientTsmIssued, ClientTsmPlan};
use crate::transaction::Transaction;
use bindings::{Bound, apdu_limit, begun, is_too_long};
use primitives::Request;
use std::alloc::{AllocError, Allocator};
use tags::{Fault, Items, Octets};

/// A transaction is opened, and says its request from the beginning.
fn opening<A: Allocator + Copy>(
    alloc: A,
    transaction: Transaction<A>,
) -> Result<ClientTsmPlan<A>, AllocError>
    ensures { IfOk result (λ plan. plan ≡ opening transaction) }
{
    let mut said = Items::new(alloc);
    transaction.ask(alloc, transaction.sending, &mut said)?;
    Ok(ClientTsmPlan {
        said,
        told: Items::new(alloc),
        change: ClientTsmChange::Opens(OpenedTransaction::new(alloc, transaction)?),
    })
}

impl<A: Allocator + Copy> ClientTsm<A> {
    ghost use Rattle.std.specs.Prelude.{◌≡◌, ◌≤◌, ◌^◌, ◌⊎◌, Some, None, IfOk, IfErr, OnOk, OnErr, length};
    ghost use Rattle.primitives.specs.Sound.{IsSoundRequest};
    ghost use Rattle.services.specs.Asked.{request_octets};
    ghost use Rattle.client_tsm.specs.Client.{committed};
    ghost use Rattle.client_tsm.specs.Issuing.{issued, opened, refusal};
    ghost use Rattle.client_tsm.specs.Planned.{IsPlanned};
    ghost use Rattle.bindings.specs.Limits.{apdu_limit};
    ghost use Rattle.profile.specs.Times.{MAX_MOMENT_MS};

    /// Returns what is said and left where this request is issued to this device at the moment `now`, in milliseconds.
    ///
    /// # Errors
    /// The first that holds: `TooLong` for a request of more than 16384 octets or 64 segments, or in segments
    /// where the client has none; `NoInvokeId` where the next invoke ID was given less than 27001 ms ago or its
    /// transaction has no end yet. `Memory` also in their place.
    pub fn plan_issue(
        &self,
        request: &Request<A>,
        to: &Bound,
        now: u64,
    ) -> Result<ClientTsmPlan<A>, Fault>
        requires sound { IsSoundRequest request.now }
        ensures is { IfOk result (λ plan. plan ≡ issued now request.now to.now self.now) }
        ensures planned { IfOk result (λ plan. IsPlanned now self.now plan.change) }
        ensures free { OnOk result (refusal now request.now to.now self.now ≡ None) }
        ensures refused { IfErr result (λ fault. (fault ≡ Fault.Memory) ⊎
            (refusal now request.now to.now self.now ≡ Some fault)) }
    {
        let body = octets_of(self.alloc, request)?;
        let max_apdu = apdu_limit(self.accepts, to);
        if is_too_long(self.accepts.segmented, max_apdu, body.len()) {
            return Err(Fault::TooLong);
        }
        if !self.may_issue(now) {
            return Err(Fault::NoInvokeId);
        }
        let transaction = self.opened(request, body, to, now)?;
        Ok(opening(self.alloc, transaction)?)
    }

    /// The transaction of a request with this body, under the next invoke ID.
    fn opened(
        &self,
        request: &Request<A>,
        body: Octets<A>,
        to: &Bound,
        now: u64,
    ) -> Result<Transaction<A>, AllocError>
        requires { body ≡ request_octets request.now }
        ensures { IfOk result (λ o. o ≡ opened now request.now to.now self.now) }
    {
        let max_apdu = apdu_limit(self.accepts, to);
        let sending = begun(now, max_apdu, body.as_slice());
        Ok(Transaction {
            invoke_id: self.next,
            station: to.station,
            way: to.way,
            request: request.copy(self.alloc)?,
            body,
            max_apdu,
            accepts: self.accepts,
            at: now,
            sent: now,
            repeats: 0,
            sending,
            gathering: None,
        })
    }

    /// Issues this request to this device at the moment `now`, in milliseconds, and answers the invoke ID given
    /// and what is said.
    ///
    /// # Errors
    /// Those of `plan_issue`. The client is then as it was.
    pub fn issue(
        &mut self,
        request: &Request<A>,
        to: &Bound,
        now: u64,
    ) -> Result<ClientTsmIssued<A>, Fault>
        requires sound { IsSoundRequest request.now }
        requires greatest { now ≤ MAX_MOMENT_MS }
        requires order { self.old.moment ≤ now }
        ensures issued { IfOk result (λ x. x ≡ record {
          invoke_id = self.old.next;
          said = (issued now request.now to.now self.old).said;
        }) }
        ensures left { OnOk result (self.new ≡ committed now (issued now request.now to.now self.old).change self.old) }
        ensures free { OnOk result (refusal now request.now to.now self.old ≡ None) }
        ensures refused { IfErr result (λ fault. (fault ≡ Fault.Memory) ⊎
            (refusal now request.now to.now self.old ≡ Some fault)) }
        ensures unchanged { OnErr result (self.new ≡ self.old) }
    {
        let ClientTsmPlan { said, change, .. } = self.plan_issue(request, to, now)?;
        let invoke_id = self.next;
        self.commit(change, now)?;
        Ok(ClientTsmIssued { invoke_id, said })
    }
}
