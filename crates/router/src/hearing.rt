//! What a router does with a parcel that it hears.

ghost use Rattle.std.specs.Prelude.{◌≡◌, []};
ghost use Rattle.router.specs.declared.plan.RouterChange.TheVariants.{Nothing};

use crate::handling::Handling;
use crate::heard::Heard;
use crate::plan::{PortParcel, RouterChange, RouterPlan};
use crate::router::Router;
use crate::routes::Route;
use npdu::{Mac, Parcel, Target, View};
use std::alloc::Allocator;
use tags::{Fault, Items};

/// Nothing goes out, and nothing changes but the moment.
fn silence<A: Allocator + Copy>(alloc: A) -> RouterPlan<A>
    ensures { result ≡ record { out = []; change = Nothing } }
{
    RouterPlan {
        out: Items::new(alloc),
        change: RouterChange::Nothing,
    }
}

impl<A: Allocator + Copy> Router<A> {
    ghost use Rattle.std.specs.Prelude.{◌≡◌, ◌≢◌, ◌≤◌, ◌⊎◌, true, false, Some, IfOk, IfErr, OnOk, OnErr};
    ghost use Rattle.npdu.specs.Header.{IsSound, header_of};
    ghost use Rattle.profile.specs.Times.{MAX_MOMENT_MS};
    ghost use Rattle.router.specs.Hearing.{Comes, IsOverfull, IsTaken, RouterHears, Teaches, handling_of};
    ghost use Rattle.router.specs.Plan.{HasRoutes, changed, heard_of, left_by, parcel_of};
    ghost use Rattle.router.specs.Router.{IsNumbered};
    ghost use Rattle.router.specs.Routes as routes;
    ghost use Rattle.router.specs.Said.{left, said, teaches_too_many};

    /// Hears a parcel on the port of this number at the moment `now`, in milliseconds, and answers what goes out over
    /// which ports, in order (6.5, 6.6.3). A parcel that is dropped, for its header or its destination, takes no memory
    /// and is never refused.
    ///
    /// # Errors
    /// `TableFull` for an announcement behind which it would know more than `MAX_LEARNED_ROUTES` routes, or `Memory`.
    /// The router is then as it was.
    #[tactic(auto, using(crate::proofs::HearLaws::parcel_rules))]
    pub fn on_parcel(
        &mut self,
        port: usize,
        parcel: &Parcel<A>,
        now: u64,
    ) -> Result<Items<PortParcel<A>, A>, Fault>
        requires greatest { now ≤ MAX_MOMENT_MS }
        requires order { self.old.moment ≤ now }
        ensures step { IfOk result (λ out. RouterHears now port parcel.now self.old out self.new) }
        ensures cause { IfErr result (λ fault. (fault ≡ Fault.Memory) ⊎
            ((fault ≡ Fault.TableFull) × IsOverfull port parcel.now self.old)) }
        ensures taken { OnErr result (IsTaken port parcel.now self.old) }
        ensures unchanged { OnErr result (self.new ≡ self.old) }
    {
        let npdu = parcel.npdu.as_slice();
        let plan = self.plan_npdu(port, parcel.from, parcel.to, npdu, parcel.stamp, now)?;
        let out = self.commit(plan, now);
        Ok(out)
    }

    /// Returns what it does where it hears an NPDU on the port of this number, from a station of its network to one or
    /// all there, said at the moment `stamp`, at the moment `now`, in milliseconds: `commit` does it. One that is
    /// dropped, for its header or its destination, takes no memory and is never refused; only one that teaches a route
    /// that it doesn't know has its routes copied.
    ///
    /// # Errors
    /// `TableFull` for an announcement behind which it would know more than `MAX_LEARNED_ROUTES` routes, or `Memory`.
    pub fn plan_npdu(
        &self,
        port: usize,
        from: Mac,
        to: Target,
        npdu: &[u8],
        stamp: u64,
        now: u64,
    ) -> Result<RouterPlan<A>, Fault>
        ensures step { IfOk result (λ plan.
            RouterHears now port (parcel_of from to npdu.now stamp) self.now plan.out (left_by now plan self.now)) }
        ensures copied { IfOk result (λ plan. HasRoutes plan.change →
            Teaches port (parcel_of {A = A} from to npdu.now stamp) self.now) }
        ensures news { IfOk result (λ plan. HasRoutes plan.change →
            (left_by now plan self.now).routes ≢ self.now.routes) }
        ensures cause { IfErr result (λ fault. (fault ≡ Fault.Memory) ⊎
            ((fault ≡ Fault.TableFull) × IsOverfull port (parcel_of {A = A} from to npdu.now stamp) self.now)) }
        ensures taken { OnErr result (IsTaken port (parcel_of {A = A} from to npdu.now stamp) self.now) }
    {
        let Some(at) = self.port(port) else {
            return Ok(silence(self.alloc));
        };
        let Ok(view) = View::read(npdu) else {
            return Ok(silence(self.alloc));
        };
        let heard = Heard {
            alloc: self.alloc,
            moment: now,
            port,
            at,
            from,
            to,
            npdu,
            stamp,
            view,
        };
        self.plan_heard(&heard)
    }

    /// Returns what it says to a message, and what changes.
    fn plan_heard(&self, heard: &Heard<'_, A>) -> Result<RouterPlan<A>, Fault>
        requires sound { IsSound (header_of heard.now.view) }
        requires numbered { IsNumbered heard.now.at }
        ensures comes { IfOk result (λ plan. Comes (heard_of heard.now) self.now plan.out
            (left_by heard.now.moment plan self.now)) }
        ensures copied { IfOk result (λ plan. HasRoutes plan.change →
            ((handling_of self.now (heard_of heard.now) ≡ Handling.Learn) ×
            (routes.teaches self.now.ports heard.now.view.body.now ≡ true))) }
        ensures news { IfOk result (λ plan. HasRoutes plan.change →
            (left_by heard.now.moment plan self.now).routes ≢ self.now.routes) }
        ensures cause { IfErr result (λ fault. (fault ≡ Fault.Memory) ⊎ ((fault ≡ Fault.TableFull) ×
            (teaches_too_many (heard_of heard.now) self.now (handling_of self.now (heard_of heard.now)) ≡ true))) }
        ensures taken { OnErr result (handling_of self.now (heard_of heard.now) ≢ Handling.Discard) }
    {
        let handling = self.handling(heard.port, heard.to, &heard.view);
        let out = self.said(heard, handling)?;
        let change = self.change(heard, handling)?;
        Ok(RouterPlan { out, change })
    }

    /// Returns what changes, by what is done with the message: an announcement alone teaches.
    fn change(&self, heard: &Heard<'_, A>, handling: Handling) -> Result<RouterChange<A>, Fault>
        ensures left { IfOk result (λ change.
            changed heard.now.moment change self.now ≡ left (heard_of heard.now) self.now handling) }
        ensures fits { OnOk result (teaches_too_many (heard_of heard.now) self.now handling ≡ false) }
        ensures copied { IfOk result (λ change. HasRoutes change →
            ((handling ≡ Handling.Learn) × (routes.teaches self.now.ports heard.now.view.body.now ≡ true))) }
        ensures news { IfOk result (λ change. HasRoutes change →
            (changed heard.now.moment change self.now).routes ≢ self.now.routes) }
        ensures cause { IfErr result (λ fault. (fault ≡ Fault.Memory) ⊎ ((fault ≡ Fault.TableFull) ×
            (teaches_too_many (heard_of heard.now) self.now handling ≡ true))) }
        ensures taken { OnErr result (handling ≢ Handling.Discard) }
    {
        match handling {
            Handling::Learn => self.learns(heard),
            Handling::Discard
            | Handling::Spread
            | Handling::Relay { .. }
            | Handling::Deliver { .. }
            | Handling::FindRoute(_)
            | Handling::NameAll
            | Handling::NameAsked
            | Handling::AskOthers
            | Handling::RefuseType => Ok(RouterChange::Nothing),
        }
    }

    /// Returns what an announcement changes: nothing, where each network that it names, and that may be learned, has
    /// that route.
    fn learns(&self, heard: &Heard<'_, A>) -> Result<RouterChange<A>, Fault>
        ensures left { IfOk result (λ change.
            changed heard.now.moment change self.now ≡ left (heard_of heard.now) self.now Handling.Learn) }
        ensures fits { OnOk result (teaches_too_many (heard_of heard.now) self.now Handling.Learn ≡ false) }
        ensures copied { IfOk result (λ change. HasRoutes change →
            (routes.teaches self.now.ports heard.now.view.body.now ≡ true)) }
        ensures news { IfOk result (λ change. HasRoutes change →
            (changed heard.now.moment change self.now).routes ≢ self.now.routes) }
        ensures cause { IfErr result (λ fault. (fault ≡ Fault.Memory) ⊎ ((fault ≡ Fault.TableFull) ×
            (teaches_too_many (heard_of heard.now) self.now Handling.Learn ≡ true))) }
    {
        let route = Route {
            port: heard.port,
            next: heard.from,
        };
        match self.routes.taught(self.ports(), route, heard.view.body) {
            Ok(None) => Ok(RouterChange::Nothing),
            Ok(Some(routes)) => Ok(RouterChange::Learns(routes)),
            Err(fault) => Err(fault),
        }
    }
}
