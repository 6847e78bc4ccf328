//! The server of transactions: what it knows, and what changes of it (5.4.1, 5.4.5).

ghost use Rattle.std.specs.Prelude.{◌≡◌, ◌<◌, ◌∷◌, ◌++◌, []};
ghost use Rattle.std.specs.Prelude.{vec_capacity, vec_len};
ghost use Rattle.server_tsm.specs.Waking.{after_sayings};

use crate::gatherings::{copied, keep_gathered, take_joined};
use apdu::{MaxApdu, Segment};
use primitives::Request;
use server_answers::{
    Asked, Asker, Executed, Executor, Planned, QuietChange, Record, Records, RequestGathering,
    Saying, ServerPlan, ServerTold, SlabRecords, push_whole, restart,
};
use std::alloc::{AllocError, Allocator};
use std::marker::Model;
use tags::Items;

/// The server of transactions.
#[derive(Drop)]
pub struct ServerTsm<E: Executor<A> + Drop, A: Allocator> {
    pub(crate) alloc: A,
    pub(crate) records: SlabRecords<A>,
    pub(crate) gatherings: Vec<RequestGathering<A>, A>,
    pub(crate) executor: E,
    pub(crate) max_apdu: MaxApdu,
    pub(crate) quiet_until: u64,
    pub(crate) moment: u64,
}

impl<E: Executor<A> + Drop, A: Allocator> Model for ServerTsm<E, A> {
    ghost use Rattle.server_tsm.specs.Server.{ServerTsmState, AreKept};

    ghost Value = { ServerTsmState A };

    ghost view = { λ s. record {
      records = s.records;
      gatherings = s.gatherings.items;
      table = E.table_of s.executor;
      max_apdu = s.max_apdu;
      quiet_until = s.quiet_until;
      moment = s.moment;
    } };

    ghost invariant = { λ s. AreKept s.moment s.records };
}

/// Puts an element behind all others, for which there is room.
fn push_reserved<T: Drop, A: Allocator>(list: &mut Vec<T, A>, item: T)
    requires { vec_len list.old < vec_capacity list.old }
    ensures { list.new.items ≡ list.old.items ++ item ∷ [] }
{
    list.push(item).unwrap();
}

/// Answers are said so, one after another.
fn say_all<A: Allocator + Copy>(records: &mut SlabRecords<A>, sayings: &[Saying])
    ensures { records.new ≡ after_sayings sayings.now records.old }
{
    for saying in sayings {
        records.replace(saying.asker, saying.way, saying.sending);
    }
}

#[tactic(auto, using(crate::proofs::Kept::kept_rules))]
impl<E: Executor<A> + Drop, A: Allocator + Copy> ServerTsm<E, A> {
    ghost use Rattle.std.specs.Prelude.{◌≡◌, ◌≤◌, ◌^◌, IfOk, OnOk, OnErr, None};
    ghost use Rattle.server_tsm.specs.Server.{HasPlace, committed, new_server, restarted};
    ghost use Rattle.server_answers.specs.Plan.{Says, Gathers, GivesUp, Executes, Wakes, change_of};
    ghost use Rattle.server_tsm.specs.Steps.{IsPlanned, told_of_plan};
    ghost use Rattle.profile.specs.Times.{MAX_MOMENT_MS};

    /// A server that has executed nothing, on the objects of this executor, whose memory will be that of `alloc`.
    /// Its link carries APDUs of at most this size. It takes no memory.
    pub fn new(alloc: A, executor: E, max_apdu: MaxApdu) -> Self
        ensures { result ≡ new_server (E.table_of executor) max_apdu }
    {
        ServerTsm {
            alloc,
            records: SlabRecords::new(alloc),
            gatherings: Vec::new(alloc),
            executor,
            max_apdu,
            quiet_until: 0,
            moment: 0,
        }
    }

    /// The moment of the last call that was not refused, in milliseconds.
    pub fn moment(&self) -> u64
        ensures { result ≡ self.now.moment }
    {
        self.moment
    }

    /// Returns what executes its requests.
    pub fn executor(&self) -> &E
        ensures { E.table_of result.now ≡ self.now.table }
    {
        &self.executor
    }

    /// Returns what it remembers of the requests that it executed, in their order (5.4.5).
    pub fn records(&self) -> &SlabRecords<A>
        ensures { result.now ≡ self.now.records }
    {
        &self.records
    }

    /// An equal server, in the same memory.
    ///
    /// # Errors
    /// Want of memory.
    pub fn copy(&self) -> Result<Self, AllocError>
        ensures { IfOk result (λ copy. copy ≡ self.now) }
    {
        Ok(ServerTsm {
            alloc: self.alloc,
            records: self.records.copy()?,
            gatherings: copied(self.alloc, self.gatherings.as_slice())?,
            executor: self.executor.copy()?,
            max_apdu: self.max_apdu,
            quiet_until: self.quiet_until,
            moment: self.moment,
        })
    }

    /// Restarts at the moment `now`, in milliseconds, with the objects of this executor: it forgets all that it
    /// remembers and gathers, and takes no request for 13000. It takes no memory, and says nothing.
    pub fn restart(&mut self, executor: E, now: u64)
        requires greatest { now ≤ MAX_MOMENT_MS }
        requires order { self.old.moment ≤ now }
        ensures { self.new ≡ restarted now (E.table_of executor) self.old }
    {
        self.records.clear();
        self.gatherings.clear();
        restart(&mut self.executor, &mut self.quiet_until, executor, now);
        self.moment = now;
    }

    /// Does what is planned at the moment `now`, in milliseconds, and answers the request that was executed, if one
    /// was. What is remembered of a request has that moment.
    ///
    /// # Errors
    /// Want of memory, where a request is executed or came so far. The server is then as it was.
    pub fn commit(
        &mut self,
        plan: ServerPlan<A>,
        now: u64,
    ) -> Result<Option<Executed<A>>, AllocError>
        requires greatest { now ≤ MAX_MOMENT_MS }
        requires order { self.old.moment ≤ now }
        requires planned { IsPlanned now self.old plan }
        ensures done { OnOk result (self.new ≡ committed now plan.change self.old) }
        ensures told { IfOk result (λ told. told ≡ plan.executed) }
        ensures unchanged { OnErr result (self.new ≡ self.old) }
    {
        match plan.into_planned() {
            None => {
                self.moment = now;
                Ok(None)
            }
            Some(Planned::Changes(_, change)) => {
                self.change(change, now)?;
                Ok(None)
            }
            Some(Planned::Executes(_, executed, entry)) => {
                self.execute(executed.request(), entry, now)?;
                Ok(Some(executed))
            }
        }
    }

    /// Does what was planned, and answers what is said and executed.
    pub(crate) fn take(
        &mut self,
        plan: ServerPlan<A>,
        now: u64,
    ) -> Result<ServerTold<A>, AllocError>
        requires greatest { now ≤ MAX_MOMENT_MS }
        requires order { self.old.moment ≤ now }
        requires planned { IsPlanned now self.old plan }
        ensures told { IfOk result (λ told. told ≡ told_of_plan plan) }
        ensures left { OnOk result (self.new ≡ committed now plan.change self.old) }
        ensures unchanged { OnErr result (self.new ≡ self.old) }
    {
        match plan.into_planned() {
            None => {
                self.moment = now;
                Ok(ServerTold {
                    said: Items::new(self.alloc),
                    executed: None,
                })
            }
            Some(Planned::Changes(said, change)) => {
                self.change(change, now)?;
                Ok(ServerTold {
                    said,
                    executed: None,
                })
            }
            Some(Planned::Executes(mut said, executed, entry)) => {
                push_whole(self.alloc, &entry, &mut said)?;
                self.execute(executed.request(), entry, now)?;
                Ok(ServerTold {
                    said,
                    executed: Some(executed),
                })
            }
        }
    }

    /// Makes a change.
    fn change(&mut self, change: QuietChange<A>, now: u64) -> Result<(), AllocError>
        requires greatest { now ≤ MAX_MOMENT_MS }
        requires order { self.old.moment ≤ now }
        ensures done { OnOk result (self.new ≡ committed now (change_of change) self.old) }
        ensures unchanged { OnErr result (self.new ≡ self.old) }
    {
        match change {
            QuietChange::Stays => self.moment = now,
            QuietChange::Says(saying) => self.say(saying, now),
            QuietChange::Gathers(asked, segment, octets) => {
                self.gather(asked, &segment, octets.as_slice(), now)?;
            }
            QuietChange::GivesUp(asker) => self.give_up(asker, now),
            QuietChange::Wakes(sayings) => self.wake(sayings.as_slice(), now),
        }
        Ok(())
    }

    /// An answer is said so.
    fn say(&mut self, saying: Saying, now: u64)
        requires { self.old.moment ≤ now }
        ensures { self.new ≡ committed now (Says saying) self.old }
    {
        self.records
            .replace(saying.asker, saying.way, saying.sending);
        self.moment = now;
    }

    /// A segment with these octets joins what came of a request, of who asks so. All growths come first.
    fn gather(
        &mut self,
        asked: Asked,
        segment: &Segment,
        octets: &[u8],
        now: u64,
    ) -> Result<(), AllocError>
        requires { self.old.moment ≤ now }
        ensures done { OnOk result (self.new ≡ committed now (Gathers asked segment.now octets.now) self.old) }
        ensures unchanged { OnErr result (self.new ≡ self.old) }
    {
        self.gatherings.reserve(1)?;
        let gathering = take_joined(
            self.alloc,
            &mut self.gatherings,
            asked,
            segment,
            octets,
            now,
        )?;
        keep_gathered(&mut self.gatherings, now, Some(asked.asker));
        push_reserved(&mut self.gatherings, gathering);
        self.moment = now;
        Ok(())
    }

    /// Gives up what came of a request of this asker.
    fn give_up(&mut self, asker: Asker, now: u64)
        requires { self.old.moment ≤ now }
        ensures { self.new ≡ committed now (GivesUp asker) self.old }
    {
        keep_gathered(&mut self.gatherings, now, Some(asker));
        self.moment = now;
    }

    /// A request is executed, and this remembered of it. No memory is taken after the execution.
    #[tactic(auto, using(crate::proofs::Kept::kept_rules, crate::proofs::Names::left_name))]
    #[inline(never)]
    fn execute(
        &mut self,
        request: &Request<A>,
        mut kept: Record<A>,
        now: u64,
    ) -> Result<(), AllocError>
        requires order { self.old.moment ≤ now }
        requires place { HasPlace now kept.asker self.old.records }
        ensures done { OnOk result (self.new ≡ committed now (Executes request.now kept) self.old) }
        ensures unchanged { OnErr result (self.new ≡ self.old) }
    {
        kept.at = now;
        let asker = kept.asker;
        self.records.execute(kept, &mut self.executor, request)?;
        self.records.forget_dead(now);
        keep_gathered(&mut self.gatherings, now, Some(asker));
        self.moment = now;
        Ok(())
    }

    /// Forgets what is too old, and has answers said so. It takes no memory.
    pub(crate) fn wake(&mut self, sayings: &[Saying], now: u64)
        requires { self.old.moment ≤ now }
        ensures { self.new ≡ committed now (Wakes sayings.now) self.old }
    {
        self.records.forget_dead(now);
        say_all(&mut self.records, sayings);
        keep_gathered(&mut self.gatherings, now, None);
        self.moment = now;
    }
}
