//! What a client does when it wakes (5.4.4).

ghost use Rattle.std.specs.Prelude.{◌≡◌, ◌++◌, OnOk, true};
ghost use Rattle.client_tsm.specs.Waking.{all_left, is_quiet, said_of, told_of};
ghost use Rattle.due_times.specs.Until.{Until};

use crate::client::ClientTsm;
use crate::plan::{ClientTsmChange, ClientTsmPlan, ClientTsmTold, Outcome, TransactionOutcome};
use crate::said::ClientSaid;
use crate::transaction::Transaction;
use segments::Turn;
use std::alloc::{AllocError, Allocator};
use tags::Items;

/// Appends what a transaction says when the client wakes, and what is told of it.
fn wake_one<A: Allocator + Copy>(
    alloc: A,
    now: u64,
    transaction: &Transaction<A>,
    said: &mut Items<ClientSaid<A>, A>,
    told: &mut Items<TransactionOutcome<A>, A>,
) -> Result<(), AllocError>
    ensures said { OnOk result (said.new ≡ said.old ++ said_of now transaction.now) }
    ensures told { OnOk result (told.new ≡ told.old ++ told_of now transaction.now) }
{
    match transaction.turn(now) {
        Turn::Waits => Ok(()),
        Turn::Sends => transaction.ask(alloc, transaction.sending_again(now), said),
        Turn::Ends => told.push(TransactionOutcome {
            invoke_id: transaction.invoke_id,
            outcome: Outcome::TimedOut,
        }),
    }
}

/// Says again what is due of all transactions, and removes those that end, when the client wakes. It takes no memory.
#[tactic(auto, using(crate::proofs::Wakes::wake_rules))]
pub(crate) fn wake_all<A: Allocator>(open_ones: &mut Vec<Transaction<A>, A>, now: u64)
    ensures { open_ones.new.items ≡ all_left now open_ones.old.items }
{
    let mut place = 0;
    while place < open_ones.len() {
        match open_ones[place].turn(now) {
            Turn::Waits => place += 1,
            Turn::Sends => {
                open_ones[place].say_again(now);
                place += 1;
            }
            Turn::Ends => {
                open_ones.remove(place);
            }
        }
    }
}

/// Returns a moment, in milliseconds, before which nothing is due of any transaction.
#[tactic(auto, using(crate::proofs::Dues::quiet_rules))]
fn next_due_of<A: Allocator>(open_ones: &[Transaction<A>]) -> u64
    ensures { Until result (λ now. is_quiet now open_ones.now ≡ true) }
{
    let mut due = u64::MAX;
    let mut left = open_ones;
    while let [first, rest @ ..] = left {
        due = due.min(first.next_due());
        left = rest;
    }
    due
}

impl<A: Allocator + Copy> ClientTsm<A> {
    ghost use Rattle.std.specs.Prelude.{◌≡◌, ◌≤◌, ◌^◌, [], true, IfOk, OnOk, OnErr};
    ghost use Rattle.client_tsm.specs.Client.{committed};
    ghost use Rattle.client_tsm.specs.Planned.{IsPlanned};
    ghost use Rattle.client_tsm.specs.Steps.{told_of_plan};
    ghost use Rattle.client_tsm.specs.Waking.{is_quiet, woken};
    ghost use Rattle.profile.specs.Times.{MAX_MOMENT_MS};
    ghost use Rattle.due_times.specs.Until.{Until};

    /// Returns what is said, told and left where the client wakes at the moment `now`, in milliseconds: one sending of
    /// a transaction, and the ends that are due, in order of issue.
    ///
    /// # Errors
    /// Want of memory.
    pub fn plan_tick(&self, now: u64) -> Result<ClientTsmPlan<A>, AllocError>
        ensures is { IfOk result (λ plan. plan ≡ woken now self.now.open_ones) }
        ensures planned { IfOk result (λ plan. IsPlanned now self.now plan.change) }
    {
        let mut said = Items::new(self.alloc);
        let mut told = Items::new(self.alloc);
        for transaction in &self.open_ones {
            wake_one(self.alloc, now, transaction, &mut said, &mut told)?;
        }
        Ok(ClientTsmPlan {
            said,
            told,
            change: ClientTsmChange::Wakes,
        })
    }

    /// Wakes at the moment `now`, in milliseconds, and answers what is said and told.
    ///
    /// # Errors
    /// Want of memory. The client is then as it was.
    pub fn on_tick(&mut self, now: u64) -> Result<ClientTsmTold<A>, AllocError>
        requires greatest { now ≤ MAX_MOMENT_MS }
        requires order { self.old.moment ≤ now }
        ensures told { IfOk result (λ told. told ≡ told_of_plan (woken now self.old.open_ones)) }
        ensures left { OnOk result (self.new ≡ committed now (woken now self.old.open_ones).change self.old) }
        ensures unchanged { OnErr result (self.new ≡ self.old) }
    {
        let ClientTsmPlan { said, told, change } = self.plan_tick(now)?;
        self.commit(change, now)?;
        Ok(ClientTsmTold { said, told })
    }

    /// Whether nothing is due where the client wakes at the moment `now`, in milliseconds: no transaction is said
    /// again, and none ends.
    pub fn is_quiet(&self, now: u64) -> bool
        ensures { result ≡ is_quiet now self.now.open_ones }
    {
        self.open_ones
            .iter()
            .all(|transaction| transaction.turn(now).waits())
    }

    /// Returns a moment, in milliseconds, before which nothing is due where the client wakes.
    pub fn next_due(&self) -> u64
        ensures { Until result (λ now. is_quiet now self.now.open_ones ≡ true) }
    {
        next_due_of(self.open_ones.as_slice())
    }

    /// Wakes at the moment `now`, in milliseconds, where nothing is due: nothing is said and told, and all transactions
    /// go on. It takes no memory.
    #[tactic(auto, using(crate::proofs::Quiet::quiet_rules))]
    pub fn wake_quietly(&mut self, now: u64)
        requires { is_quiet now self.old.open_ones ≡ true }
        ensures said { (woken now self.old.open_ones).said ≡ [] }
        ensures told { (woken now self.old.open_ones).told ≡ [] }
        ensures left { self.new ≡ committed now (woken now self.old.open_ones).change self.old }
    {
        self.moment = now;
    }
}
