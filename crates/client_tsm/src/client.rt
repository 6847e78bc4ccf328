//! The client of transactions: what it knows, and what changes of it (5.4.1, 5.4.4).

ghost use Rattle.std.specs.Prelude.{◌≡◌, OnOk, OnErr, remove};
ghost use Rattle.client_tsm.specs.Client.{changed_at, gathers, never_given, renews, sends_on};

use crate::opened::OpenedTransaction;
use crate::plan::ClientTsmChange;
use crate::transaction::Transaction;
use crate::waking::wake_all;
use apdu::{MaxApdu, Segment};
use bindings::{Accepts, accepts_of};
use profile::{REUSE_MS, is_free};
use segments::Sender;
use std::alloc::{AllocError, Allocator};
use std::marker::Model;

/// The moment from which each invoke ID may be given, where none was given yet.
#[tactic(auto, unfolding(crate::specs::Client::never_given))]
fn never_given() -> [u64; 256]
    ensures { result ≡ never_given }
{
    [0; 256]
}

/// The client of transactions.
#[derive(Drop)]
pub struct ClientTsm<A: Allocator> {
    pub(crate) alloc: A,
    pub(crate) accepts: Accepts,
    pub(crate) next: u8,
    pub(crate) free_from: [u64; 256],
    pub(crate) open_ones: Vec<Transaction<A>, A>,
    pub(crate) moment: u64,
}

impl<A: Allocator> Model for ClientTsm<A> {
    ghost use Rattle.client_tsm.specs.Client.{AreApart, ClientTsmState};

    ghost Value = { ClientTsmState A };

    ghost view = { λ c. record {
      accepts = c.accepts;
      next = c.next;
      free_from = c.free_from;
      open_ones = c.open_ones.items;
      moment = c.moment;
    } };

    ghost invariant = { λ c. AreApart c.open_ones.items };
}

/// More of the request at this place came, and this goes on sending it.
fn send_on_at<A: Allocator>(
    open_ones: &mut Vec<Transaction<A>, A>,
    place: usize,
    now: u64,
    sending: Option<Sender>,
)
    ensures { open_ones.new.items ≡ changed_at place (sends_on now sending) open_ones.old.items }
{
    if place < open_ones.len() {
        open_ones[place].send_on(now, sending);
    }
}

/// A segment of the answer to the request at this place came, with these octets.
///
/// # Errors
/// Want of memory. The transactions are then as they were.
fn gather_at<A: Allocator + Copy>(
    open_ones: &mut Vec<Transaction<A>, A>,
    place: usize,
    segment: &Segment,
    octets: &[u8],
    now: u64,
) -> Result<(), AllocError>
    ensures gathered { OnOk result (open_ones.new.items ≡
        changed_at place (gathers now segment.now octets.now) open_ones.old.items) }
    ensures unchanged { OnErr result (open_ones.new.items ≡ open_ones.old.items) }
{
    if place < open_ones.len() {
        let alloc = *open_ones.allocator();
        open_ones[place].gather(alloc, segment, octets, now)?;
    }
    Ok(())
}

/// A segment of the answer to the request at this place was heard, and not taken.
fn renew_at<A: Allocator>(open_ones: &mut Vec<Transaction<A>, A>, place: usize, now: u64)
    ensures { open_ones.new.items ≡ changed_at place (renews now) open_ones.old.items }
{
    if place < open_ones.len() {
        open_ones[place].renew(now);
    }
}

/// The transaction at this place ends.
fn end_at<A: Allocator>(open_ones: &mut Vec<Transaction<A>, A>, place: usize)
    ensures { open_ones.new.items ≡ remove open_ones.old.items place }
{
    if place < open_ones.len() {
        open_ones.remove(place);
    }
}

impl<A: Allocator + Copy> ClientTsm<A> {
    ghost use Rattle.std.specs.Prelude.{◌≡◌, ◌<◌, ◌≤◌, ◌^◌, false, IfOk, OnOk, OnErr};
    ghost use Rattle.apdu.specs.Sizes.{apdu_code};
    ghost use Rattle.bindings.specs.Accepts.{accepts_of};
    ghost use Rattle.client_tsm.specs.Client.{committed, is_open, may_issue, new_client, opens};
    ghost use Rattle.client_tsm.specs.Planned.{IsPlanned};
    ghost use Rattle.profile.specs.Times.{MAX_MOMENT_MS};

    /// A client that has asked nothing, whose memory will be that of `alloc`. It takes answers in segments or
    /// not, in APDUs of at most this size, whose code has four bits (20.1.2.5). It takes no memory.
    pub fn new(alloc: A, segmented: bool, max_apdu: MaxApdu) -> Self
        requires { apdu_code max_apdu < 16 }
        ensures { result ≡ new_client (accepts_of segmented max_apdu) }
    {
        ClientTsm {
            alloc,
            accepts: accepts_of(segmented, max_apdu),
            next: 0,
            free_from: never_given(),
            open_ones: Vec::new(alloc),
            moment: 0,
        }
    }

    /// The moment of the last call that was not refused, in milliseconds.
    pub fn moment(&self) -> u64
        ensures { result ≡ self.now.moment }
    {
        self.moment
    }

    /// The invoke ID that the next issue gives.
    pub fn next_invoke_id(&self) -> u8
        ensures { result ≡ self.now.next }
    {
        self.next
    }

    /// The requests that have neither an answer nor an end (5.4.4).
    pub fn open_ones(&self) -> &[Transaction<A>]
        ensures { result.now ≡ self.now.open_ones }
    {
        self.open_ones.as_slice()
    }

    /// An equal client, in the same memory.
    ///
    /// # Errors
    /// Want of memory.
    pub fn copy(&self) -> Result<Self, AllocError>
        ensures { IfOk result (λ copy. copy ≡ self.now) }
    {
        let mut open_ones = Vec::new(self.alloc);
        for transaction in &self.open_ones {
            open_ones.push(transaction.copy(self.alloc)?)?;
        }
        Ok(ClientTsm {
            alloc: self.alloc,
            accepts: self.accepts,
            next: self.next,
            free_from: self.free_from,
            open_ones,
            moment: self.moment,
        })
    }

    /// Whether a transaction under this invoke ID has no end yet.
    fn is_open(&self, invoke_id: u8) -> bool
        ensures { result ≡ is_open invoke_id self.now.open_ones }
    {
        self.open_ones
            .iter()
            .any(|transaction| transaction.has_id(invoke_id))
    }

    /// Whether the next invoke ID may be given at the moment `now`, in milliseconds.
    pub(crate) fn may_issue(&self, now: u64) -> bool
        ensures { result ≡ may_issue now self.now }
    {
        is_free(self.free_from[self.next as usize], now) && !self.is_open(self.next)
    }

    /// Makes a change that was planned at this moment `now`, in milliseconds, for the client as it is.
    ///
    /// # Errors
    /// Want of memory, where a transaction is to be opened or a segment joined. The client is then as it was.
    #[tactic(auto, using(crate::proofs::Apart::apart_rules))]
    pub fn commit(&mut self, change: ClientTsmChange<A>, now: u64) -> Result<(), AllocError>
        requires greatest { now ≤ MAX_MOMENT_MS }
        requires order { self.old.moment ≤ now }
        requires planned { IsPlanned now self.old change }
        ensures done { OnOk result (self.new ≡ committed now change self.old) }
        ensures unchanged { OnErr result (self.new ≡ self.old) }
    {
        match change {
            ClientTsmChange::Stays => {}
            ClientTsmChange::Opens(transaction) => self.open(now, transaction)?,
            ClientTsmChange::Sends(place, sending) => send_on_at(
                &mut self.open_ones,
                place,
                now,
                sending,
            ),
            ClientTsmChange::Gathers(place, segment, octets) => gather_at(
                &mut self.open_ones,
                place,
                &segment,
                octets.as_slice(),
                now,
            )?,
            ClientTsmChange::Renews(place) => renew_at(&mut self.open_ones, place, now),
            ClientTsmChange::Ends(place) => end_at(&mut self.open_ones, place),
            ClientTsmChange::Wakes => wake_all(&mut self.open_ones, now),
        }
        self.moment = now;
        Ok(())
    }

    /// Opens a transaction under the next invoke ID, which no other has.
    #[tactic(auto, using(crate::proofs::Apart::apart_rules))]
    fn open(&mut self, now: u64, transaction: OpenedTransaction<A>) -> Result<(), AllocError>
        requires free { is_open transaction.invoke_id self.old.open_ones ≡ false }
        requires greatest { now ≤ MAX_MOMENT_MS }
        ensures opened { OnOk result (self.new ≡ opens now transaction self.old) }
        ensures unchanged { OnErr result (self.new ≡ self.old) }
    {
        self.open_ones.push(transaction.into_transaction())?;
        self.free_from[self.next as usize] = now + REUSE_MS;
        self.next = self.next.wrapping_add(1);
        self.moment = now;
        Ok(())
    }
}
