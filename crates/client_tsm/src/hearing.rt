//! What a client does with an APDU that it hears (5.4.4).

ghost use Rattle.std.specs.Prelude.{◌≡◌, [], IfOk};
ghost use Rattle.services.specs.Contents.{answer_contents};
ghost use Rattle.client_tsm.specs.Hearing as spec;
ghost use Rattle.client_tsm.specs.Steps.{IsFinished};

use crate::client::ClientTsm;
use crate::plan::{ClientTsmChange, ClientTsmPlan, ClientTsmTold, Outcome, TransactionOutcome};
use crate::said::ClientSaid;
use crate::transaction::Transaction;
use apdu::{Apdu, Segment};
use npdu::Station;
use segments::{Sender, Step, Turn, granted_window};
use services::{Answer, decode_reply};
use std::alloc::{AllocError, Allocator};
use tags::{Items, Octets};

/// Nothing is said or told, and this changes.
fn quiet<A: Allocator + Copy>(alloc: A, change: ClientTsmChange<A>) -> ClientTsmPlan<A>
    ensures { result ≡ spec.quiet change }
{
    ClientTsmPlan {
        said: Items::new(alloc),
        told: Items::new(alloc),
        change,
    }
}

/// An open transaction that takes what is heard at a moment, in milliseconds, and its place.
#[derive(Drop)]
struct Taker<'a, A: Allocator> {
    alloc: A,
    moment: u64,
    place: usize,
    transaction: &'a Transaction<A>,
}

impl<A: Allocator + Copy> Taker<'_, A> {
    /// The transaction ends so, and this is said.
    fn closing(
        &self,
        said: Items<ClientSaid<A>, A>,
        outcome: Outcome<A>,
    ) -> Result<ClientTsmPlan<A>, AllocError>
        ensures { IfOk result (λ plan. plan ≡
            spec.closing said (spec.taking_of self.now) outcome) }
    {
        let transaction = self.transaction;
        let mut told = Items::new(self.alloc);
        told.push(TransactionOutcome {
            invoke_id: transaction.invoke_id,
            outcome,
        })?;
        Ok(ClientTsmPlan {
            said,
            told,
            change: ClientTsmChange::Ends(self.place),
        })
    }

    /// A whole answer: of its last segment this is said, and where it means no reply this changes.
    #[tactic(auto, using(crate::proofs::Meaning::meaning_rules))]
    fn answered(
        &self,
        answer: &Answer<'_>,
        said: Items<ClientSaid<A>, A>,
        otherwise: ClientTsmChange<A>,
    ) -> Result<ClientTsmPlan<A>, AllocError>
        ensures { IfOk result (IsFinished (spec.completes (record {
          taking = spec.taking_of self.now;
          contents = answer_contents answer.now;
          says = said;
          otherwise = otherwise;
        }))) }
    {
        let transaction = self.transaction;
        match decode_reply(self.alloc, &transaction.request, answer)? {
            None => Ok(ClientTsmPlan {
                said,
                told: Items::new(self.alloc),
                change: otherwise,
            }),
            Some(reply) => self.closing(said, Outcome::Answered(reply)),
        }
    }

    /// An answer that came in one APDU.
    fn whole_heard(&self, answer: &Answer<'_>) -> Result<ClientTsmPlan<A>, AllocError>
        ensures { IfOk result (IsFinished
            (spec.whole_heard (spec.taking_of self.now) (answer_contents answer.now))) }
    {
        self.answered(answer, Items::new(self.alloc), ClientTsmChange::Stays)
    }

    /// The window of each SegmentACK of the answer.
    fn window_for(&self, segment: &Segment) -> u8
        ensures { result ≡ spec.window_for self.now.transaction.now segment.now }
    {
        let transaction = self.transaction;
        match &transaction.gathering {
            None => granted_window(segment.window),
            Some(gathering) => gathering.receiver.window(),
        }
    }

    /// A SegmentACK of the answer.
    fn ack_said(&self, negative: bool, sequence_number: u8, segment: &Segment) -> ClientSaid<A>
        ensures { result ≡ spec.ack_said negative sequence_number self.now.transaction.now segment.now }
    {
        let transaction = self.transaction;
        ClientSaid::SegmentAck {
            way: transaction.way,
            negative,
            invoke_id: transaction.invoke_id,
            sequence_number,
            window: self.window_for(segment),
        }
    }

    /// A SegmentACK of the answer, where one is due.
    fn ack_if(
        &self,
        number: Option<u8>,
        segment: &Segment,
    ) -> Result<Items<ClientSaid<A>, A>, AllocError>
        ensures { IfOk result (λ said. said ≡ spec.ack_if number self.now.transaction.now segment.now) }
    {
        let mut said = Items::new(self.alloc);
        if let Some(number) = number {
            said.push(self.ack_said(false, number, segment))?;
        }
        Ok(said)
    }

    /// A segment that isn't taken renews what is gathered, where something is.
    fn renewed_if(&self) -> ClientTsmChange<A>
        ensures { result ≡ spec.renewed_if self.now.transaction.now.gathering self.now.place }
    {
        let transaction = self.transaction;
        if transaction.gathering.is_some() {
            ClientTsmChange::Renews(self.place)
        } else {
            ClientTsmChange::Stays
        }
    }

    /// A segment of the answer came, and this is said.
    fn gathered(
        &self,
        said: Items<ClientSaid<A>, A>,
        segment: &Segment,
        octets: &[u8],
    ) -> Result<ClientTsmPlan<A>, AllocError>
        ensures { IfOk result (λ plan. plan ≡
            spec.gathered said (spec.taking_of self.now) segment.now octets.now) }
    {
        let octets = Octets::from_slice(self.alloc, octets)?;
        Ok(ClientTsmPlan {
            said,
            told: Items::new(self.alloc),
            change: ClientTsmChange::Gathers(self.place, *segment, octets),
        })
    }

    /// A segment of the answer was taken.
    fn taken(
        &self,
        ack: Option<u8>,
        segment: &Segment,
        octets: &[u8],
    ) -> Result<ClientTsmPlan<A>, AllocError>
        ensures { IfOk result (IsFinished (spec.taken_if segment.now.more_follows
            (spec.ack_if ack self.now.transaction.now segment.now) (spec.taking_of self.now) segment.now octets.now)) }
    {
        let said = self.ack_if(ack, segment)?;
        if segment.more_follows {
            return self.gathered(said, segment, octets);
        }
        let whole = self.transaction.whole_with(self.alloc, octets)?;
        let answer = Answer::Complex(whole.as_slice());
        self.answered(&answer, said, ClientTsmChange::Renews(self.place))
    }

    /// A segment of the answer.
    fn part_heard(&self, segment: &Segment, octets: &[u8]) -> Result<ClientTsmPlan<A>, AllocError>
        ensures { IfOk result (IsFinished
            (spec.part_heard (spec.taking_of self.now) segment.now octets.now)) }
    {
        match self
            .transaction
            .step_on(self.alloc, segment, octets, self.moment)
        {
            Step::Taken(ack) => self.taken(ack, segment, octets),
            Step::Nak(number) => {
                let mut said = Items::new(self.alloc);
                said.push(self.ack_said(true, number, segment))?;
                self.gathered(said, segment, octets)
            }
            Step::Dropped => Ok(quiet(self.alloc, self.renewed_if())),
            Step::Full => self.closing(Items::new(self.alloc), Outcome::TimedOut),
        }
    }

    /// Returns what comes of a SegmentACK of the request.
    fn turned_by(&self, turn: Turn, sender: Sender) -> Result<ClientTsmPlan<A>, AllocError>
        ensures { IfOk result (λ plan. plan ≡
            spec.turned_by turn (spec.taking_of self.now) sender) }
    {
        match turn {
            Turn::Waits => Ok(quiet(self.alloc, ClientTsmChange::Stays)),
            Turn::Sends => {
                let mut said = Items::new(self.alloc);
                self.transaction.ask(self.alloc, Some(sender), &mut said)?;
                Ok(ClientTsmPlan {
                    said,
                    told: Items::new(self.alloc),
                    change: ClientTsmChange::Sends(self.place, Some(sender)),
                })
            }
            Turn::Ends => Ok(quiet(self.alloc, ClientTsmChange::Sends(self.place, None))),
        }
    }

    /// A SegmentACK of the request.
    fn ack_heard(
        &self,
        negative: bool,
        number: u8,
        window: u8,
    ) -> Result<ClientTsmPlan<A>, AllocError>
        ensures { IfOk result (λ plan. plan ≡ spec.ack_heard self.now.transaction.now.sending
            (spec.taking_of self.now) negative number window) }
    {
        let transaction = self.transaction;
        match transaction.sending {
            None => Ok(quiet(self.alloc, ClientTsmChange::Stays)),
            Some(mut sender) => {
                let turn = sender.on_ack(number, window, negative, self.moment);
                self.turned_by(turn, sender)
            }
        }
    }

    /// Whether an APDU that has a service has that of the request.
    fn is_asked(&self, apdu: &Apdu<'_>) -> bool
        ensures { result ≡ spec.is_asked (spec.message_of apdu.now) self.now.transaction.now }
    {
        match apdu {
            Apdu::SimpleAck { service, .. }
            | Apdu::ComplexAck { service, .. }
            | Apdu::Error { service, .. } => *service == self.transaction.service(),
            Apdu::ConfirmedRequest { .. }
            | Apdu::UnconfirmedRequest { .. }
            | Apdu::SegmentAck { .. }
            | Apdu::Reject { .. }
            | Apdu::Abort { .. } => true,
        }
    }

    /// Returns what an APDU comes to, that has the service of the request where it has one.
    #[tactic(auto, using(crate::proofs::Silent::nothing_told))]
    fn asked_told(&self, apdu: &Apdu<'_>) -> Result<ClientTsmPlan<A>, AllocError>
        ensures { IfOk result (IsFinished
            (spec.asked_told (spec.taking_of self.now) (spec.message_of apdu.now))) }
    {
        match apdu {
            Apdu::SimpleAck { .. } => self.whole_heard(&Answer::Simple),
            Apdu::ComplexAck {
                segment: None,
                data,
                ..
            } => self.whole_heard(&Answer::Complex(data)),
            Apdu::ComplexAck {
                segment: Some(segment),
                data,
                ..
            } => self.part_heard(segment, data),
            Apdu::Error { error, .. } => self.whole_heard(&Answer::Error(*error)),
            Apdu::SegmentAck {
                server: true,
                negative,
                sequence_number,
                window,
                ..
            } => self.ack_heard(*negative, *sequence_number, *window),
            Apdu::Reject { reason, .. } => {
                self.closing(Items::new(self.alloc), Outcome::Rejected(*reason))
            }
            Apdu::Abort {
                server: true,
                reason,
                ..
            } => self.closing(Items::new(self.alloc), Outcome::Aborted(*reason)),
            // what no server says is not for a client
            Apdu::SegmentAck { server: false, .. }
            | Apdu::Abort { server: false, .. }
            | Apdu::ConfirmedRequest { .. }
            | Apdu::UnconfirmedRequest { .. } => Ok(quiet(self.alloc, ClientTsmChange::Stays)),
        }
    }

    /// Returns what an APDU comes to.
    fn told_open(&self, apdu: &Apdu<'_>) -> Result<ClientTsmPlan<A>, AllocError>
        ensures { IfOk result (IsFinished
            (spec.told_open (spec.taking_of self.now) (spec.message_of apdu.now))) }
    {
        if self.is_asked(apdu) {
            self.asked_told(apdu)
        } else {
            Ok(quiet(self.alloc, ClientTsmChange::Stays))
        }
    }
}

impl<A: Allocator + Copy> ClientTsm<A> {
    ghost use Rattle.std.specs.Prelude.{◌≡◌, ◌≤◌, ◌^◌, IfOk, OnErr};
    ghost use Rattle.client_tsm.specs.Hearing.{heard_of, place_of};
    ghost use Rattle.client_tsm.specs.Planned.{IsPlanned};
    ghost use Rattle.client_tsm.specs.Steps.{IsPlan, IsStep};
    ghost use Rattle.profile.specs.Times.{MAX_MOMENT_MS};

    /// The place of the first transaction that takes what this station says under this invoke ID.
    fn place_of(&self, now: u64, from: Station, invoke_id: u8) -> Option<usize>
        ensures { result ≡ place_of now from invoke_id self.now.open_ones }
    {
        self.open_ones
            .iter()
            .position(|transaction| transaction.takes(now, from, invoke_id))
    }

    /// Returns what is said, told and left where this station says this APDU to the client at the moment `now`, in
    /// milliseconds.
    ///
    /// # Errors
    /// Want of memory.
    pub fn plan(
        &self,
        from: Station,
        apdu: &Apdu<'_>,
        now: u64,
    ) -> Result<ClientTsmPlan<A>, AllocError>
        ensures is { IfOk result (IsPlan now from (heard_of apdu.now) self.now) }
        ensures planned { IfOk result (λ plan. IsPlanned now self.now plan.change) }
    {
        let Some(place) = self.place_of(now, from, apdu.invoke_id().unwrap_or(0)) else {
            return Ok(quiet(self.alloc, ClientTsmChange::Stays));
        };
        let Some(transaction) = self.open_ones.get(place) else {
            return Ok(quiet(self.alloc, ClientTsmChange::Stays));
        };
        let taker = Taker {
            alloc: self.alloc,
            moment: now,
            place,
            transaction,
        };
        taker.told_open(apdu)
    }

    /// Hears this APDU from this station at the moment `now`, in milliseconds, and answers what is said and told.
    ///
    /// # Errors
    /// Want of memory. The client is then as it was.
    pub fn on_apdu(
        &mut self,
        from: Station,
        apdu: &Apdu<'_>,
        now: u64,
    ) -> Result<ClientTsmTold<A>, AllocError>
        requires greatest { now ≤ MAX_MOMENT_MS }
        requires order { self.old.moment ≤ now }
        ensures step { IfOk result (λ told. IsStep now from (heard_of apdu.now) self.old told self.new) }
        ensures unchanged { OnErr result (self.new ≡ self.old) }
    {
        let ClientTsmPlan { said, told, change } = self.plan(from, apdu, now)?;
        self.commit(change, now)?;
        Ok(ClientTsmTold { said, told })
    }
}
