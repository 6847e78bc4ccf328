//! What a server does with an APDU that it hears (5.4.5).

ghost use Rattle.std.specs.Prelude.{◌≡◌, ◌++◌, IfOk};
ghost use Rattle.server_answers.specs.Plan.{change_of};
ghost use Rattle.server_tsm.specs.Hearing.{
  aborting,
  ack_if,
  request_ack,
  gathered,
  answering,
  rejecting,
};

use crate::gatherings::{gathering_of, is_crowded};
use crate::sending::{Ack, ack_heard, given_up, repeated};
use crate::server::ServerTsm;
use apdu::{AbortReason, Apdu, RejectReason, Segment};
use primitives::{Reply, Request};
use profile::{MAX_SERVICE_DATA_OCTETS, has_no_place, lives};
use segments::{Receiver, Step, granted_window};
use server_answers::{
    AnswerLimits, Asked, Asker, Executed, Executor, Origin, QuietChange, Record, Records,
    RequestGathering, ServerPlan, ServerSaid, ServerTold, answer_chunk, decode_request, fitted,
    kept_answer, push_window, recorded,
};
use std::alloc::{AllocError, Allocator};
use tags::{Items, Octets};

/// A request that is heard at a moment, in milliseconds: who asks, and the octets, of all of it or of a segment.
#[derive(Drop)]
struct HeardRequest<'a, A: Allocator> {
    alloc: A,
    moment: u64,
    asked: Asked,
    octets: &'a [u8],
}

impl<A: Allocator + Copy> HeardRequest<'_, A> {
    /// An Abort is said behind this, and this changes.
    fn aborting(
        &self,
        mut said: Items<ServerSaid<A>, A>,
        reason: AbortReason,
        change: QuietChange<A>,
    ) -> Result<ServerPlan<A>, AllocError>
        ensures { IfOk result (λ plan. plan ≡ aborting said reason self.now.asked (change_of change)) }
    {
        said.push(ServerSaid::Abort {
            way: self.asked.way,
            invoke_id: self.asked.asker.invoke_id,
            reason,
        })?;
        ServerPlan::changing(self.alloc, said, change)
    }

    /// A request is rejected, behind this.
    fn rejecting(
        &self,
        mut said: Items<ServerSaid<A>, A>,
        reason: RejectReason,
    ) -> Result<ServerPlan<A>, AllocError>
        ensures { IfOk result (λ plan. plan ≡ rejecting said reason self.now.asked) }
    {
        said.push(ServerSaid::Reject {
            way: self.asked.way,
            invoke_id: self.asked.asker.invoke_id,
            reason,
        })?;
        ServerPlan::changing(self.alloc, said, QuietChange::GivesUp(self.asked.asker))
    }

    /// A SegmentACK of the request.
    fn request_ack(&self, negative: bool, sequence_number: u8, window: u8) -> ServerSaid<A>
        ensures { result ≡ request_ack negative sequence_number window self.now.asked }
    {
        ServerSaid::SegmentAck {
            way: self.asked.way,
            negative,
            invoke_id: self.asked.asker.invoke_id,
            sequence_number,
            window,
        }
    }

    /// A SegmentACK of the request, where one is due.
    fn ack_if(&self, number: Option<u8>, window: u8) -> Result<Items<ServerSaid<A>, A>, AllocError>
        ensures { IfOk result (λ said. said ≡ ack_if number window self.now.asked) }
    {
        let mut said = Items::new(self.alloc);
        if let Some(number) = number {
            said.push(self.request_ack(false, number, window))?;
        }
        Ok(said)
    }

    /// Its segment joins what came so far, and this is said.
    fn gathered(
        &self,
        said: Items<ServerSaid<A>, A>,
        segment: &Segment,
    ) -> Result<ServerPlan<A>, AllocError>
        ensures { IfOk result (λ plan. plan ≡ gathered said self.now.asked segment.now self.now.octets.now) }
    {
        let octets = Octets::from_slice(self.alloc, self.octets)?;
        let change = QuietChange::Gathers(self.asked, *segment, octets);
        ServerPlan::changing(self.alloc, said, change)
    }

    /// All octets, once those of its segment joined what came so far.
    fn octets_behind(&self, receiver: &Receiver<A>) -> Result<Vec<u8, A>, AllocError>
        ensures { IfOk result (λ octets. octets.items ≡ receiver.now.octets ++ self.now.octets.now) }
    {
        let mut octets = Vec::from_slice(self.alloc, receiver.octets())?;
        octets.extend_from_slice(self.octets)?;
        Ok(octets)
    }
}

/// An answer is said behind this and remembered, and the request executed.
fn answering<A: Allocator + Copy>(
    alloc: A,
    mut said: Items<ServerSaid<A>, A>,
    request: Request<A>,
    reply: Reply<A>,
    entry: Record<A>,
) -> Result<ServerPlan<A>, AllocError>
    ensures { IfOk result (λ plan. plan ≡ answering said request reply entry) }
{
    push_window(alloc, &entry, &mut said)?;
    let executed = Executed::new(alloc, entry.asker, request, reply)?;
    ServerPlan::executing(alloc, said, executed, entry)
}

impl<E: Executor<A> + Drop, A: Allocator + Copy> ServerTsm<E, A> {
    ghost use Rattle.std.specs.Prelude.{◌≡◌, ◌≤◌, ◌^◌, ◌==◌, IfOk, OnErr, Some, option_copied};
    ghost use Rattle.primitives.specs.Sound.{IsSoundRequest};
    ghost use Rattle.server_answers.specs.remembered.Records.{is_full, remembered};
    ghost use Rattle.segments.specs.Receiver.{joining_after};
    ghost use Rattle.server_answers.specs.services.Asked.{replied};
    ghost use Rattle.server_answers.specs.Gathering.{gathering_of};
    ghost use Rattle.server_tsm.specs.Hearing.{
      begins_if,
      completed,
      executing,
      finished_by,
      heard_of,
      is_crowded,
      is_deaf,
      joined,
      joined_by,
      part_heard,
      part_joined,
      request_heard,
      unless,
      whole_heard,
    };
    ghost use Rattle.server_tsm.specs.Steps.{IsFinished, IsPlan, IsPlanned, IsStep};
    ghost use Rattle.profile.specs.Times.{MAX_MOMENT_MS};

    /// The answer to this asker that is remembered and lives.
    fn remembered(&self, asker: Asker, now: u64) -> Option<&Record<A>>
        ensures { option_copied result ≡ remembered now asker self.now.records }
    {
        let entry = self.records.find(asker)?;
        if !lives(entry.at, now) {
            return None;
        }
        Some(entry)
    }

    /// Whether there is no place for another answer.
    fn is_full(&self, now: u64) -> bool
        ensures { result ≡ is_full now self.now.records }
    {
        has_no_place(self.records.len(), self.records.begins_dead(now))
    }

    /// A request is executed, and its answer said behind this and remembered.
    #[tactic(auto, using(crate::proofs::Names::reply_name))]
    fn executing(
        &self,
        heard: &HeardRequest<'_, A>,
        request: Request<A>,
        said: Items<ServerSaid<A>, A>,
    ) -> Result<ServerPlan<A>, AllocError>
        requires { IsSoundRequest request }
        ensures { IfOk result (λ plan. plan ≡ executing heard.now.moment said heard.now.asked request
            (replied self.now.table request) self.now) }
    {
        let asked = &heard.asked;
        let reply = self.executor.reply(&request)?;
        let chunk = answer_chunk(self.max_apdu, &asked.limits);
        let answer = fitted(
            &asked.limits,
            chunk,
            kept_answer(self.alloc, &request, &reply)?,
        );
        let entry = recorded(heard.moment, chunk, asked, &request, answer);
        answering(self.alloc, said, request, reply, entry)
    }

    /// A request came whole: it is rejected or executed by what its service data mean.
    fn finished(
        &self,
        heard: &HeardRequest<'_, A>,
        found: Result<Request<A>, RejectReason>,
        said: Items<ServerSaid<A>, A>,
    ) -> Result<ServerPlan<A>, AllocError>
        requires { IfOk found IsSoundRequest }
        ensures { IfOk result (λ plan. plan ≡
            finished_by found heard.now.moment said heard.now.asked self.now) }
    {
        match found {
            Err(reason) => heard.rejecting(said, reason),
            Ok(_) if self.is_full(heard.moment) => {
                let change = QuietChange::GivesUp(heard.asked.asker);
                heard.aborting(said, AbortReason::OutOfResources, change)
            }
            Ok(request) => self.executing(heard, request, said),
        }
    }

    /// A request came whole, and no answer of it is remembered.
    fn completed(
        &self,
        heard: &HeardRequest<'_, A>,
        said: Items<ServerSaid<A>, A>,
    ) -> Result<ServerPlan<A>, AllocError>
        ensures { IfOk result (IsFinished heard.now.moment (completed (record {
          asked = heard.now.asked;
          octets = heard.now.octets.now;
          says = said;
        })) self.now) }
    {
        let octets = heard.octets;
        if octets.len() > MAX_SERVICE_DATA_OCTETS {
            let change = QuietChange::GivesUp(heard.asked.asker);
            return heard.aborting(said, AbortReason::BufferOverflow, change);
        }
        let found = decode_request(self.alloc, heard.asked.service, octets)?;
        self.finished(heard, found, said)
    }

    /// A request in one APDU.
    fn whole_heard(&self, heard: &HeardRequest<'_, A>) -> Result<ServerPlan<A>, AllocError>
        ensures { IfOk result (IsFinished heard.now.moment (whole_heard
            (remembered heard.now.moment heard.now.asked.asker self.now.records) heard.now.moment heard.now.asked
            heard.now.octets.now) self.now) }
    {
        match self.remembered(heard.asked.asker, heard.moment) {
            Some(entry) => repeated(self.alloc, heard.moment, heard.asked.way, entry),
            None => self.completed(heard, Items::new(self.alloc)),
        }
    }

    /// A request whose last segment is taken, behind what came so far.
    fn whole_joined(
        &self,
        heard: &HeardRequest<'_, A>,
        receiver: &Receiver<A>,
        said: Items<ServerSaid<A>, A>,
    ) -> Result<ServerPlan<A>, AllocError>
        ensures { IfOk result (IsFinished heard.now.moment (completed (record {
          asked = heard.now.asked;
          octets = receiver.now.octets ++ heard.now.octets.now;
          says = said;
        })) self.now) }
    {
        let octets = heard.octets_behind(receiver)?;
        let whole = HeardRequest {
            alloc: self.alloc,
            moment: heard.moment,
            asked: heard.asked,
            octets: octets.as_slice(),
        };
        self.completed(&whole, said)
    }

    /// Returns what comes of a segment, by what the receiver of what came so far does with it.
    fn joined_by(
        &self,
        heard: &HeardRequest<'_, A>,
        step: Step,
        receiver: &Receiver<A>,
        segment: &Segment,
    ) -> Result<ServerPlan<A>, AllocError>
        ensures { IfOk result (IsFinished heard.now.moment (joined_by step heard.now.asked segment.now
            heard.now.octets.now (joining_after step heard.now.moment segment.now.more_follows heard.now.octets.now
            receiver.now)) self.now) }
    {
        match step {
            Step::Taken(ack) => {
                let said = heard.ack_if(ack, receiver.window())?;
                if segment.more_follows {
                    return heard.gathered(said, segment);
                }
                self.whole_joined(heard, receiver, said)
            }
            Step::Nak(number) => {
                let mut said = Items::new(self.alloc);
                said.push(heard.request_ack(true, number, receiver.window()))?;
                heard.gathered(said, segment)
            }
            Step::Dropped => heard.gathered(Items::new(self.alloc), segment),
            Step::Full => {
                let change = QuietChange::GivesUp(heard.asked.asker);
                heard.aborting(Items::new(self.alloc), AbortReason::BufferOverflow, change)
            }
        }
    }

    /// A segment joins what came so far.
    fn joined(
        &self,
        heard: &HeardRequest<'_, A>,
        receiver: &Receiver<A>,
        segment: &Segment,
    ) -> Result<ServerPlan<A>, AllocError>
        ensures { IfOk result (IsFinished heard.now.moment (joined heard.now.moment heard.now.asked receiver.now
            segment.now heard.now.octets.now) self.now) }
    {
        let more = segment.more_follows;
        let step = receiver.step(segment.sequence_number, more, heard.octets, heard.moment);
        self.joined_by(heard, step, receiver, segment)
    }

    /// A segment of a request of which nothing came yet: the first begins, where there is a place.
    fn begun(
        &self,
        heard: &HeardRequest<'_, A>,
        segment: &Segment,
    ) -> Result<ServerPlan<A>, AllocError>
        ensures { IfOk result (IsFinished heard.now.moment (begins_if (segment.now.sequence_number == 0)
            (is_crowded heard.now.moment self.now.gatherings) heard.now.moment heard.now.asked segment.now
            heard.now.octets.now) self.now) }
    {
        if segment.sequence_number != 0 {
            return Ok(ServerPlan::nothing());
        }
        if is_crowded(self.gatherings.as_slice(), heard.moment) {
            let said = Items::new(self.alloc);
            return heard.aborting(said, AbortReason::OutOfResources, QuietChange::Stays);
        }
        let receiver = Receiver::new(self.alloc, granted_window(segment.window));
        self.joined(heard, &receiver, segment)
    }

    /// A segment of a request of which this came so far.
    fn continued(
        &self,
        heard: &HeardRequest<'_, A>,
        gathering: &RequestGathering<A>,
        segment: &Segment,
    ) -> Result<ServerPlan<A>, AllocError>
        ensures { IfOk result (IsFinished heard.now.moment (part_joined (Some gathering.now) heard.now.moment
            heard.now.asked segment.now heard.now.octets.now self.now.gatherings) self.now) }
    {
        if heard.asked.service != gathering.asked.service {
            return Ok(ServerPlan::nothing());
        }
        let asked = Asked {
            way: heard.asked.way,
            ..gathering.asked
        };
        let on = HeardRequest {
            alloc: self.alloc,
            moment: heard.moment,
            asked,
            octets: heard.octets,
        };
        self.joined(&on, &gathering.receiver, segment)
    }

    /// A segment of a request whose answer is not remembered.
    fn part_joined(
        &self,
        heard: &HeardRequest<'_, A>,
        segment: &Segment,
    ) -> Result<ServerPlan<A>, AllocError>
        ensures { IfOk result (IsFinished heard.now.moment (part_joined
            (gathering_of heard.now.moment heard.now.asked.asker self.now.gatherings) heard.now.moment heard.now.asked
            segment.now heard.now.octets.now self.now.gatherings) self.now) }
    {
        match gathering_of(self.gatherings.as_slice(), heard.moment, heard.asked.asker) {
            Some(gathering) => self.continued(heard, gathering, segment),
            None => self.begun(heard, segment),
        }
    }

    /// A segment of a request.
    fn part_heard(
        &self,
        heard: &HeardRequest<'_, A>,
        segment: &Segment,
    ) -> Result<ServerPlan<A>, AllocError>
        ensures { IfOk result (IsFinished heard.now.moment (part_heard
            (remembered heard.now.moment heard.now.asked.asker self.now.records) heard.now.moment heard.now.asked
            segment.now heard.now.octets.now self.now.gatherings) self.now) }
    {
        match self.remembered(heard.asked.asker, heard.moment) {
            Some(entry) => repeated(self.alloc, heard.moment, heard.asked.way, entry),
            None => self.part_joined(heard, segment),
        }
    }

    /// A Confirmed-Request, whole or in segments, which is dropped where the server is deaf.
    fn request_heard(
        &self,
        heard: &HeardRequest<'_, A>,
        by_broadcast: bool,
        segment: Option<Segment>,
    ) -> Result<ServerPlan<A>, AllocError>
        ensures { IfOk result (IsFinished heard.now.moment
            (unless (is_deaf heard.now.moment by_broadcast self.now)
            (request_heard segment heard.now.moment heard.now.asked heard.now.octets.now self.now)) self.now) }
    {
        if by_broadcast || heard.moment < self.quiet_until {
            return Ok(ServerPlan::nothing());
        }
        match segment {
            None => self.whole_heard(heard),
            Some(segment) => self.part_heard(heard, &segment),
        }
    }

    /// Returns what is said, executed and left where the server hears this APDU from there at the moment `now`, in
    /// milliseconds.
    ///
    /// # Errors
    /// Want of memory.
    pub fn plan(
        &self,
        origin: &Origin,
        apdu: &Apdu<'_>,
        now: u64,
    ) -> Result<ServerPlan<A>, AllocError>
        ensures heard { IfOk result (IsPlan now origin.now (heard_of apdu.now) self.now) }
        ensures planned { IfOk result (IsPlanned now self.now) }
    {
        self.heard(origin, apdu, now)
    }

    /// Returns what the server plans for this APDU.
    #[tactic(auto, using(crate::proofs::Meaning::nothing_heard))]
    fn heard(&self, origin: &Origin, apdu: &Apdu<'_>, now: u64) -> Result<ServerPlan<A>, AllocError>
        ensures { IfOk result (IsPlan now origin.now (heard_of apdu.now) self.now) }
    {
        let asker = Asker {
            station: origin.station,
            invoke_id: apdu.invoke_id().unwrap_or(0),
        };
        match apdu {
            Apdu::ConfirmedRequest {
                segment,
                segmented_response_accepted,
                max_segments,
                max_apdu,
                service,
                data,
                ..
            } => {
                let limits = AnswerLimits {
                    segmented: *segmented_response_accepted,
                    max_segments: *max_segments,
                    max_apdu: *max_apdu,
                };
                let asked = Asked {
                    asker,
                    way: origin.way,
                    limits,
                    service: *service,
                };
                let heard = HeardRequest {
                    alloc: self.alloc,
                    moment: now,
                    asked,
                    octets: data,
                };
                self.request_heard(&heard, origin.by_broadcast, *segment)
            }
            Apdu::SegmentAck {
                server: false,
                negative,
                sequence_number,
                window,
                ..
            } => {
                let ack = Ack::new(*negative, *sequence_number, *window);
                ack_heard(
                    self.alloc,
                    self.remembered(asker, now),
                    now,
                    ack,
                    origin.way,
                )
            }
            Apdu::Abort { server: false, .. } => {
                given_up(self.alloc, self.remembered(asker, now), asker)
            }
            // what no client says is not for a server
            Apdu::SegmentAck { server: true, .. }
            | Apdu::Abort { server: true, .. }
            | Apdu::UnconfirmedRequest { .. }
            | Apdu::SimpleAck { .. }
            | Apdu::ComplexAck { .. }
            | Apdu::Error { .. }
            | Apdu::Reject { .. } => Ok(ServerPlan::nothing()),
        }
    }

    /// Hears this APDU from there at the moment `now`, in milliseconds, and answers what is said and executed.
    ///
    /// # Errors
    /// Want of memory. The server is then as it was.
    pub fn on_apdu(
        &mut self,
        origin: &Origin,
        apdu: &Apdu<'_>,
        now: u64,
    ) -> Result<ServerTold<A>, AllocError>
        requires greatest { now ≤ MAX_MOMENT_MS }
        requires order { self.old.moment ≤ now }
        ensures step { IfOk result (λ told. IsStep now origin.now (heard_of apdu.now) self.old told self.new) }
        ensures unchanged { OnErr result (self.new ≡ self.old) }
    {
        let plan = self.plan(origin, apdu, now)?;
        self.take(plan, now)
    }
}
