//! What a node does at a tick, by its state (9.5.6).

ghost use Rattle.std.specs.Prelude.{◌≡◌, ◌++◌, true, false, OnOk, OnErr, IfErr};
ghost use Rattle.due_times.specs.Until.{Until};
ghost use Rattle.mstp_table.specs.Node as spec;
ghost use Rattle.mstp_table.specs.Node.{all_sent, first_to};
ghost use Rattle.mstp_table.specs.Table as table;
ghost use Rattle.mstp_table.specs.Table.{after_tick, answer_ticks, answers, pass_ticks, poll_ticks, ticks_in};

use crate::node::Node;
use crate::queue::{keep_young, take_first_to};
use crate::token::after;
use link::Sent;
use mstp_frame::FrameType;
use mstp_table::State;
use profile::{
    N_RETRY_TOKEN, T_NO_TOKEN_MS, T_REPLY_DELAY_MS, T_REPLY_TIMEOUT_MS, T_SLOT_MS,
    T_USAGE_TIMEOUT_MS,
};
use std::alloc::Allocator;
use tags::{Fault, Items};

/// The silence, in milliseconds, that a tick needs to lead on from a state (9.5.6).
fn patience(state: State, ts: u8) -> u64
    ensures { result ≡ table.patience state ts }
{
    match state {
        State::Idle => T_NO_TOKEN_MS,
        State::WaitForReply => T_REPLY_TIMEOUT_MS,
        State::DoneWithToken | State::AnswerDataRequest(_) => 0,
        State::PassToken | State::PollForMaster => T_USAGE_TIMEOUT_MS,
        State::NoToken => T_NO_TOKEN_MS + T_SLOT_MS * u64::from(ts),
    }
}

impl<A: Allocator + Copy> Node<A> {
    /// How long no octet was heard or said, in milliseconds (9.5.2, SilenceTimer).
    fn silence(&self, now: u64) -> u64
        ensures { result ≡ spec.silence self.now now }
    {
        now.saturating_sub(self.last)
    }

    /// Whether anything is due at a tick at the moment `now`, in milliseconds. It takes no memory.
    pub fn is_due(&self, now: u64) -> bool
        ensures { result ≡ table.is_due self.now now }
    {
        self.silence(now) >= patience(self.state, self.ts)
    }

    /// Returns a moment, in milliseconds, before which nothing is due at a tick.
    pub fn next_due(&self) -> u64
        ensures { Until result (λ now. table.is_due self.now now ≡ false) }
    {
        let patience = patience(self.state, self.ts);
        if patience == 0 {
            0
        } else {
            self.last.saturating_add(patience)
        }
    }

    /// Wakes, where anything is due.
    #[tactic(auto, unfolding(mstp_table::specs::Table::after_tick))]
    pub(crate) fn wake(&mut self, out: &mut Items<Sent<A>, A>, now: u64) -> Result<(), Fault>
        ensures left { OnOk result (self.new ≡ (after_tick self.old now).left) }
        ensures frames { OnOk result (out.new ≡ out.old ++ all_sent (after_tick self.old now).frames) }
        ensures memory { IfErr result (λ fault. fault ≡ Fault.Memory) }
        ensures due { OnErr result (table.is_due self.old now ≡ true) }
    {
        let is_due = self.is_due(now);
        self.moment = now;
        if !is_due {
            return Ok(());
        }
        self.tick(out, now)
    }

    /// A tick after such a silence, by the state.
    #[tactic(auto, unfolding(mstp_table::specs::Table::ticks_in))]
    fn tick(&mut self, out: &mut Items<Sent<A>, A>, now: u64) -> Result<(), Fault>
        ensures left { OnOk result (self.new ≡ (ticks_in self.old.state self.old now).left) }
        ensures frames { OnOk result (out.new ≡ out.old ++ all_sent (ticks_in self.old.state self.old now).frames) }
        ensures memory { IfErr result (λ fault. fault ≡ Fault.Memory) }
    {
        match self.state {
            State::Idle => {
                self.state = State::NoToken;
                self.heard = 0;
                Ok(())
            }
            State::WaitForReply => self.done(out, now),
            State::DoneWithToken => self.use_token(out, now),
            State::PassToken => self.pass_tick(out, now),
            State::NoToken => {
                self.ns = self.ts;
                self.count = 0;
                self.poll(after(self.ts), out, now)
            }
            State::PollForMaster => self.poll_tick(out, now),
            State::AnswerDataRequest(asker) => self.answer_tick(asker, out, now),
        }
    }

    /// Pass_Token, and nothing was heard of the next station: it gets the token once more, or another is looked for.
    #[tactic(auto, unfolding(mstp_table::specs::Table::pass_ticks))]
    fn pass_tick(&mut self, out: &mut Items<Sent<A>, A>, now: u64) -> Result<(), Fault>
        ensures left { OnOk result (self.new ≡ (pass_ticks self.old now).left) }
        ensures frames { OnOk result (out.new ≡ out.old ++ all_sent (pass_ticks self.old now).frames) }
        ensures memory { IfErr result (λ fault. fault ≡ Fault.Memory) }
    {
        if self.retries < N_RETRY_TOKEN {
            self.retries += 1;
            return self.give_token(out, now);
        }
        let ps = after(self.ns);
        self.ns = self.ts;
        self.count = 0;
        self.poll(ps, out, now)
    }

    /// Poll_For_Master, and there was no reply.
    #[tactic(auto, unfolding(mstp_table::specs::Table::poll_ticks))]
    fn poll_tick(&mut self, out: &mut Items<Sent<A>, A>, now: u64) -> Result<(), Fault>
        ensures left { OnOk result (self.new ≡ (poll_ticks self.old now).left) }
        ensures frames { OnOk result (out.new ≡ out.old ++ all_sent (poll_ticks self.old now).frames) }
        ensures memory { IfErr result (λ fault. fault ≡ Fault.Memory) }
    {
        if self.sole {
            return self.use_token(out, now);
        }
        if self.ns != self.ts {
            self.retries = 0;
            return self.give_token(out, now);
        }
        if after(self.ps) != self.ts {
            return self.poll(after(self.ps), out, now);
        }
        self.sole = true;
        self.use_token(out, now)
    }

    /// Answer_Data_Request: what is older than 1000 ms is dropped first.
    #[tactic(auto, unfolding(mstp_table::specs::Table::answer_ticks), using(crate::proofs::Queues::queue_rules))]
    fn answer_tick(&mut self, asker: u8, out: &mut Items<Sent<A>, A>, now: u64) -> Result<(), Fault>
        ensures left { OnOk result (self.new ≡ (answer_ticks asker self.old now).left) }
        ensures frames { OnOk result (out.new ≡ out.old ++ all_sent (answer_ticks asker self.old now).frames) }
        ensures memory { IfErr result (λ fault. fault ≡ Fault.Memory) }
    {
        keep_young(&mut self.queue, now);
        self.answer(asker, out, now)
    }

    /// Answer_Data_Request, with what waits.
    #[tactic(auto, unfolding(mstp_table::specs::Table::answers), using(crate::proofs::Queues::queue_rules))]
    fn answer(&mut self, asker: u8, out: &mut Items<Sent<A>, A>, now: u64) -> Result<(), Fault>
        ensures left { OnOk result (self.new ≡ (answers asker self.old (first_to asker self.old.queue) now).left) }
        ensures frames { OnOk result (out.new ≡ out.old
            ++ all_sent (answers asker self.old (first_to asker self.old.queue) now).frames) }
        ensures memory { IfErr result (λ fault. fault ≡ Fault.Memory) }
    {
        if let Some(waiting) = take_first_to(&mut self.queue, asker) {
            self.say_data(FrameType::BacnetDataNotExpectingReply, &waiting, out, now)?;
            self.state = State::Idle;
            return Ok(());
        }
        if self.silence(now) < T_REPLY_DELAY_MS {
            return Ok(());
        }
        self.state = State::Idle;
        self.say(FrameType::ReplyPostponed, asker, &[], out, now)
    }
}
