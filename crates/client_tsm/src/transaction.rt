//! A transaction of a client: a request that has neither an answer nor an end (5.4.4).

use crate::gathering::Gathering;
use apdu::Segment;
use bindings::{Accepts, begun, is_same_station};
use npdu::{Station, Way};
use primitives::Request;
use profile::{
    APDU_TIMEOUT_MS, DEADLINE_MS, GATHERING_TIMEOUT_MS, NUMBER_OF_APDU_RETRIES, gathers_still,
    is_in_time,
};
use segments::{Receiver, Sender, Step, Turn, granted_window};
use services::service_of;
use std::alloc::{AllocError, Allocator};
use std::marker::Model;
use tags::Octets;

/// A request that has neither an answer nor an end.
#[derive(Drop)]
pub struct Transaction<A: Allocator> {
    pub(crate) invoke_id: u8,
    pub(crate) station: Station,
    pub(crate) way: Way,
    pub(crate) request: Request<A>,
    pub(crate) body: Octets<A>,
    pub(crate) max_apdu: u16,
    pub(crate) accepts: Accepts,
    pub(crate) at: u64,
    pub(crate) sent: u64,
    pub(crate) repeats: u8,
    pub(crate) sending: Option<Sender>,
    pub(crate) gathering: Option<Gathering<A>>,
}

impl<A: Allocator> Model for Transaction<A> {
    ghost use Rattle.std.specs.Prelude.{◌≡◌, ◌≤◌};
    ghost use Rattle.services.specs.Asked.{request_octets};
    ghost use Rattle.client_tsm.specs.Open.{Open};

    ghost Value = { Open A };

    ghost view = { λ t. record {
      invoke_id = t.invoke_id;
      station = t.station;
      way = t.way;
      request = t.request;
      max_apdu = t.max_apdu;
      accepts = t.accepts;
      at = t.at;
      sent = t.sent;
      repeats = t.repeats;
      sending = t.sending;
      gathering = t.gathering;
    } };

    ghost invariant = { λ t. (t.body ≡ request_octets t.request) × (50 ≤ t.max_apdu) };
}

impl<A: Allocator> Transaction<A> {
    ghost use Rattle.std.specs.Prelude.{◌≡◌, ◌==◌, length, None, Some, true};
    ghost use Rattle.due_times.specs.Until.{Until};
    ghost use Rattle.segments.specs.Sender.{waits};
    ghost use Rattle.services.specs.Asked.{service_asked};
    ghost use Rattle.client_tsm.specs.Client.{renews, sends_on};
    ghost use Rattle.client_tsm.specs.Open.{gathers_still, goes_on, sends_still, takes};
    ghost use Rattle.client_tsm.specs.Waking.{again, is_overdue, turn_by, turn_of};

    /// Its invoke ID (20.1.2.6).
    pub fn invoke_id(&self) -> u8
        ensures { result ≡ self.now.invoke_id }
    {
        self.invoke_id
    }

    /// The station that it asks.
    pub fn station(&self) -> Station
        ensures { result ≡ self.now.station }
    {
        self.station
    }

    /// What it asks.
    pub fn request(&self) -> &Request<A>
        ensures { result.now ≡ self.now.request }
    {
        &self.request
    }

    /// When it was issued, in milliseconds.
    pub fn issued_at(&self) -> u64
        ensures { result ≡ self.now.at }
    {
        self.at
    }

    /// How often it was said again from its beginning.
    pub fn repeats(&self) -> u8
        ensures { result ≡ self.now.repeats }
    {
        self.repeats
    }

    /// Whether this is its invoke ID.
    pub(crate) fn has_id(&self, invoke_id: u8) -> bool
        ensures { result ≡ (self.now.invoke_id == invoke_id) }
    {
        self.invoke_id == invoke_id
    }

    /// The number of the service of its request.
    #[tactic(auto, using(crate::proofs::Names::asked_service))]
    pub(crate) fn service(&self) -> u8
        ensures { result ≡ service_asked self.now.request }
    {
        u8::from(service_of(&self.request))
    }

    /// Whether what is gathered of its answer isn't too old.
    fn gathers_still(&self, now: u64) -> bool
        ensures { result ≡ gathers_still now self.now.gathering }
    {
        match &self.gathering {
            None => true,
            Some(gathering) => gathers_still(gathering.at, now),
        }
    }

    /// Whether no window of its request was repeated in vain.
    fn sends_still(&self, now: u64) -> bool
        ensures { result ≡ sends_still now self.now.sending }
    {
        match &self.sending {
            None => true,
            Some(sender) => !sender.has_ended(now),
        }
    }

    /// Whether it has no end yet at the moment `now`, in milliseconds.
    fn goes_on(&self, now: u64) -> bool
        ensures { result ≡ goes_on now self.now }
    {
        is_in_time(self.at, now) && self.gathers_still(now) && self.sends_still(now)
    }

    /// Whether it takes what this station says under this invoke ID.
    pub(crate) fn takes(&self, now: u64, from: Station, invoke_id: u8) -> bool
        ensures { result ≡ takes now from invoke_id self.now }
    {
        self.invoke_id == invoke_id && is_same_station(self.station, from) && self.goes_on(now)
    }

    /// Whether no answer came in time, and it may be said again.
    fn is_overdue(&self, now: u64) -> bool
        ensures { result ≡ is_overdue now self.now }
    {
        now.saturating_sub(self.sent) >= APDU_TIMEOUT_MS && self.repeats < NUMBER_OF_APDU_RETRIES
    }

    /// Returns what it does when the client wakes.
    pub(crate) fn turn(&self, now: u64) -> Turn
        ensures { result ≡ turn_of now self.now }
    {
        if !self.goes_on(now) {
            return Turn::Ends;
        }
        if self.gathering.is_some() {
            return Turn::Waits;
        }
        match self.sending {
            Some(mut sender) => sender.on_tick(now),
            None if self.is_overdue(now) => Turn::Sends,
            None => Turn::Waits,
        }
    }

    /// Returns a moment, in milliseconds, before which its answer isn't too old.
    #[tactic(auto, using(crate::proofs::Dues::ending_rules))]
    fn gathers_until(&self) -> u64
        ensures { Until result (λ now. gathers_still now self.now.gathering ≡ true) }
    {
        match &self.gathering {
            None => u64::MAX,
            Some(gathering) => gathering.at.saturating_add(GATHERING_TIMEOUT_MS),
        }
    }

    /// Returns a moment, in milliseconds, before which it isn't said again, where nothing is gathered of its answer.
    #[tactic(auto, using(crate::proofs::Dues::silence_rules))]
    fn unsaid_until(&self) -> u64
        ensures { Until result (λ now. waits (turn_by None self.now.sending now self.now) ≡ true) }
    {
        match &self.sending {
            Some(sender) => sender.next_due(),
            None => self.sent.saturating_add(APDU_TIMEOUT_MS),
        }
    }

    /// Returns a moment, in milliseconds, before which it isn't said again, as long as it goes on.
    #[tactic(auto, using(crate::proofs::Dues::silence_rules))]
    fn silent_until(&self) -> u64
        ensures { Until result (λ now. waits (turn_by self.now.gathering self.now.sending now self.now) ≡ true) }
    {
        match &self.gathering {
            Some(_) => u64::MAX,
            None => self.unsaid_until(),
        }
    }

    /// Returns a moment, in milliseconds, before which no window of its request was repeated in vain.
    #[tactic(auto, using(crate::proofs::Dues::ending_rules))]
    fn sends_until(&self) -> u64
        ensures { Until result (λ now. sends_still now self.now.sending ≡ true) }
    {
        match &self.sending {
            None => u64::MAX,
            Some(sender) => sender.next_due(),
        }
    }

    /// Returns a moment, in milliseconds, before which it waits where the client wakes.
    #[tactic(auto, using(crate::proofs::Dues::waiting_rules))]
    pub(crate) fn next_due(&self) -> u64
        ensures { Until result (λ now. waits (turn_of now self.now) ≡ true) }
    {
        let end = self.at.saturating_add(DEADLINE_MS);
        let answered = self.gathers_until().min(self.sends_until());
        end.min(answered.min(self.silent_until()))
    }

    /// Returns what goes on sending it where it is said again: its window, or it from its beginning.
    pub(crate) fn sending_again(&self, now: u64) -> Option<Sender>
        ensures { result ≡ (again now self.now).sending }
    {
        match self.sending {
            Some(mut sender) => {
                sender.on_tick(now);
                Some(sender)
            }
            None => begun(now, self.max_apdu, self.body.as_slice()),
        }
    }

    /// It is said again.
    pub(crate) fn say_again(&mut self, now: u64)
        requires { turn_of now self.old ≡ Turn.Sends }
        ensures { self.new ≡ again now self.old }
    {
        let sending = self.sending_again(now);
        if self.sending.is_none() && self.repeats < NUMBER_OF_APDU_RETRIES {
            self.repeats += 1;
        }
        self.sent = now;
        self.sending = sending;
    }

    /// More of its request came, and this goes on sending it.
    pub(crate) fn send_on(&mut self, now: u64, sending: Option<Sender>)
        ensures { self.new ≡ sends_on now sending self.old }
    {
        self.sent = now;
        self.sending = sending;
    }

    /// A segment of its answer was heard, and not taken.
    pub(crate) fn renew(&mut self, now: u64)
        ensures { self.new ≡ renews now self.old }
    {
        self.sending = None;
        if let Some(gathering) = &mut self.gathering {
            gathering.at = now;
        }
    }
}

impl<A: Allocator + Copy> Transaction<A> {
    ghost use Rattle.std.specs.Prelude.{◌≡◌, IfOk, OnOk, OnErr};
    ghost use Rattle.client_tsm.specs.Client.{gathered_at, gathers};
    ghost use Rattle.client_tsm.specs.Hearing.{whole_with};

    /// Returns what it does at the moment `now`, in milliseconds, on this segment of its answer, with these octets.
    #[tactic(auto, using(crate::proofs::Joining::step_rules))]
    pub(crate) fn step_on(&self, alloc: A, segment: &Segment, octets: &[u8], now: u64) -> Step
        ensures { result ≡ (gathered_at now self.now segment.now octets.now).step }
    {
        let (number, more) = (segment.sequence_number, segment.more_follows);
        match &self.gathering {
            None => {
                let receiver = Receiver::new(alloc, granted_window(segment.window));
                receiver.step(number, more, octets, now)
            }
            Some(gathering) => gathering.receiver.step(number, more, octets, now),
        }
    }

    /// A segment of its answer came at the moment `now`, in milliseconds, with these octets.
    ///
    /// # Errors
    /// Want of memory. The transaction is then as it was.
    pub(crate) fn gather(
        &mut self,
        alloc: A,
        segment: &Segment,
        octets: &[u8],
        now: u64,
    ) -> Result<(), AllocError>
        ensures gathered { OnOk result (self.new ≡ gathers now segment.now octets.now self.old) }
        ensures unchanged { OnErr result (self.new ≡ self.old) }
    {
        let (number, more) = (segment.sequence_number, segment.more_follows);
        match &mut self.gathering {
            None => {
                let mut receiver = Receiver::new(alloc, granted_window(segment.window));
                receiver.on_segment(number, more, octets, now)?;
                self.gathering = Some(Gathering { receiver, at: now });
            }
            Some(gathering) => {
                gathering.receiver.on_segment(number, more, octets, now)?;
                gathering.at = now;
            }
        }
        self.sending = None;
        Ok(())
    }

    /// The octets of its answer, of which these are those of the last segment.
    ///
    /// # Errors
    /// Want of memory.
    pub(crate) fn whole_with(&self, alloc: A, octets: &[u8]) -> Result<Vec<u8, A>, AllocError>
        ensures { IfOk result (λ whole. whole.items ≡ whole_with octets.now self.now) }
    {
        let mut whole = Vec::new(alloc);
        if let Some(gathering) = &self.gathering {
            let so_far = gathering.receiver.octets();
            whole.reserve(so_far.len() + octets.len())?;
            whole.extend_from_slice(so_far)?;
        }
        whole.extend_from_slice(octets)?;
        Ok(whole)
    }

    /// An equal transaction, in memory of `alloc`.
    pub(crate) fn copy(&self, alloc: A) -> Result<Self, AllocError>
        ensures { IfOk result (λ copy. copy ≡ self.now) }
    {
        let gathering = match &self.gathering {
            None => None,
            Some(gathering) => Some(gathering.copy()?),
        };
        Ok(Transaction {
            invoke_id: self.invoke_id,
            station: self.station,
            way: self.way,
            request: self.request.copy(alloc)?,
            body: self.body.copy(alloc)?,
            max_apdu: self.max_apdu,
            accepts: self.accepts,
            at: self.at,
            sent: self.sent,
            repeats: self.repeats,
            sending: self.sending,
            gathering,
        })
    }
}
