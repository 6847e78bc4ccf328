//! What a node does on a frame, by its state (9.5.6).

ghost use Rattle.std.specs.Prelude.{◌≡◌, ◌≤◌, ◌++◌, length, OnOk, IfOk, IfErr};
ghost use Rattle.mstp_table.specs.Node as spec;
ghost use Rattle.mstp_table.specs.Node.{all_sent, named};
ghost use Rattle.mstp_table.specs.Table.{after_frame, idle_hears, poll_hears, wait_hears};
ghost use Rattle.profile.specs.Limits as limit;

use crate::node::Node;
use crate::queue::ALL_NODES;
use link::Sent;
use mstp_frame::{Frame, FrameType};
use mstp_table::{State, Whom};
use std::alloc::Allocator;
use tags::{Fault, Items};

/// Whom a frame is for, at the station of the address `ts` (9.3).
fn whom(ts: u8, destination: u8) -> Whom
    ensures { result ≡ spec.whom ts destination }
{
    if destination == ts {
        Whom::ToUs
    } else if destination == ALL_NODES {
        Whom::ToAll
    } else {
        Whom::ToOthers
    }
}

impl<A: Allocator + Copy> Node<A> {
    /// Hears a frame, and tells whether its data are handed up.
    #[tactic(auto, unfolding(mstp_table::specs::Table::hears_in, mstp_table::specs::Table::after_frame))]
    pub(crate) fn hear(
        &mut self,
        frame: &Frame<'_>,
        out: &mut Items<Sent<A>, A>,
        now: u64,
    ) -> Result<bool, Fault>
        requires { length (named frame.now).contents ≤ limit.MAX_FRAME_DATA_OCTETS }
        ensures up { IfOk result (λ up. up ≡ (after_frame (named frame.now) self.old now).up) }
        ensures left { OnOk result (self.new ≡ (after_frame (named frame.now) self.old now).left) }
        ensures frames { OnOk result (out.new ≡ out.old
            ++ all_sent (after_frame (named frame.now) self.old now).frames) }
        ensures memory { IfErr result (λ fault. fault ≡ Fault.Memory) }
    {
        self.moment = now;
        let to = whom(self.ts, frame.destination);
        match self.state {
            State::Idle => self.idle_hears(frame, to, out, now),
            State::AnswerDataRequest(_) => {
                self.state = State::Idle;
                self.idle_hears(frame, to, out, now)
            }
            State::WaitForReply => self.wait_hears(frame.frame_type, to, out, now),
            State::PollForMaster => self.poll_hears(frame, to, out, now),
            State::DoneWithToken | State::PassToken | State::NoToken => Ok(false),
        }
    }

    /// A frame in Idle.
    #[tactic(auto, unfolding(mstp_table::specs::Table::idle_hears))]
    fn idle_hears(
        &mut self,
        frame: &Frame<'_>,
        to: Whom,
        out: &mut Items<Sent<A>, A>,
        now: u64,
    ) -> Result<bool, Fault>
        requires { length (named frame.now).contents ≤ limit.MAX_FRAME_DATA_OCTETS }
        ensures up { IfOk result (λ up. up ≡ (idle_hears self.old (named frame.now) frame.now.frame_type to now).up) }
        ensures left { OnOk result (self.new
            ≡ (idle_hears self.old (named frame.now) frame.now.frame_type to now).left) }
        ensures frames { OnOk result (out.new ≡ out.old
            ++ all_sent (idle_hears self.old (named frame.now) frame.now.frame_type to now).frames) }
        ensures memory { IfErr result (λ fault. fault ≡ Fault.Memory) }
    {
        match (frame.frame_type, to) {
            (FrameType::Token, Whom::ToUs) => {
                self.use_token(out, now)?;
                Ok(false)
            }
            (FrameType::PollForMaster, Whom::ToUs) => {
                self.say(FrameType::ReplyToPollForMaster, frame.source, &[], out, now)?;
                Ok(false)
            }
            (FrameType::TestRequest, Whom::ToUs) => {
                self.say(FrameType::TestResponse, frame.source, frame.data, out, now)?;
                Ok(false)
            }
            (FrameType::BacnetDataNotExpectingReply, Whom::ToUs | Whom::ToAll)
            | (FrameType::BacnetDataExpectingReply, Whom::ToAll) => Ok(true),
            (FrameType::BacnetDataExpectingReply, Whom::ToUs) => {
                self.state = State::AnswerDataRequest(frame.source);
                Ok(true)
            }
            (_, Whom::ToAll | Whom::ToOthers)
            | (
                FrameType::ReplyToPollForMaster
                | FrameType::TestResponse
                | FrameType::ReplyPostponed
                | FrameType::Other(_),
                Whom::ToUs,
            ) => Ok(false),
        }
    }

    /// A frame in Wait_For_Reply.
    #[tactic(auto, unfolding(mstp_table::specs::Table::wait_hears))]
    fn wait_hears(
        &mut self,
        frame_type: FrameType,
        to: Whom,
        out: &mut Items<Sent<A>, A>,
        now: u64,
    ) -> Result<bool, Fault>
        ensures up { IfOk result (λ up. up ≡ (wait_hears self.old frame_type to now).up) }
        ensures left { OnOk result (self.new ≡ (wait_hears self.old frame_type to now).left) }
        ensures frames { OnOk result (out.new ≡ out.old ++ all_sent (wait_hears self.old frame_type to now).frames) }
        ensures memory { IfErr result (λ fault. fault ≡ Fault.Memory) }
    {
        match (frame_type, to) {
            (FrameType::BacnetDataNotExpectingReply, Whom::ToUs) => {
                self.done(out, now)?;
                Ok(true)
            }
            (FrameType::TestResponse | FrameType::ReplyPostponed, Whom::ToUs) => {
                self.done(out, now)?;
                Ok(false)
            }
            (_, Whom::ToAll | Whom::ToOthers)
            | (
                FrameType::Token
                | FrameType::PollForMaster
                | FrameType::ReplyToPollForMaster
                | FrameType::TestRequest
                | FrameType::BacnetDataExpectingReply
                | FrameType::Other(_),
                Whom::ToUs,
            ) => {
                self.state = State::Idle;
                Ok(false)
            }
        }
    }

    /// A frame in Poll_For_Master.
    #[tactic(auto, unfolding(mstp_table::specs::Table::poll_hears))]
    fn poll_hears(
        &mut self,
        frame: &Frame<'_>,
        to: Whom,
        out: &mut Items<Sent<A>, A>,
        now: u64,
    ) -> Result<bool, Fault>
        ensures up { IfOk result (λ up. up ≡ (poll_hears self.old (named frame.now) frame.now.frame_type to now).up) }
        ensures left { OnOk result (self.new
            ≡ (poll_hears self.old (named frame.now) frame.now.frame_type to now).left) }
        ensures frames { OnOk result (out.new ≡ out.old
            ++ all_sent (poll_hears self.old (named frame.now) frame.now.frame_type to now).frames) }
        ensures memory { IfErr result (λ fault. fault ≡ Fault.Memory) }
    {
        match (frame.frame_type, to) {
            (FrameType::ReplyToPollForMaster, Whom::ToUs) => {
                self.sole = false;
                self.ns = frame.source;
                self.ps = self.ts;
                self.count = 0;
                self.retries = 0;
                self.give_token(out, now)?;
                Ok(false)
            }
            (_, Whom::ToAll | Whom::ToOthers)
            | (
                FrameType::Token
                | FrameType::PollForMaster
                | FrameType::TestRequest
                | FrameType::TestResponse
                | FrameType::BacnetDataExpectingReply
                | FrameType::BacnetDataNotExpectingReply
                | FrameType::ReplyPostponed
                | FrameType::Other(_),
                Whom::ToUs,
            ) => {
                self.state = State::Idle;
                Ok(false)
            }
        }
    }
}
