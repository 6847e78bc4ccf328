//! What a node does with the token: Use_Token and Done_With_Token, which other states pass through (9.5.6).

ghost use Rattle.std.specs.Prelude.{◌≡◌, ◌++◌, false, OnOk, IfErr};
ghost use Rattle.mstp_table.specs.Node as spec;
ghost use Rattle.mstp_table.specs.Node.{all_sent};
ghost use Rattle.mstp_table.specs.Table.{done, use_token, used};

use crate::node::Node;
use crate::queue::{expects_reply, is_broadcast, keep_young, take_first};
use link::Sent;
use mstp_frame::FrameType;
use mstp_table::{State, Waiting};
use profile::N_POLL;
use std::alloc::Allocator;
use tags::{Fault, Items};

/// How many addresses masters have (9.5.2, Nmax_master).
const MASTERS: u8 = 128;

/// The address behind this.
pub(crate) fn after(address: u8) -> u8
    ensures { result ≡ spec.after address }
{
    ((u16::from(address) + 1) % u16::from(MASTERS)) as u8
}

impl<A: Allocator + Copy> Node<A> {
    /// Done_With_Token.
    #[tactic(auto, unfolding(mstp_table::specs::Table::done))]
    pub(crate) fn done(&mut self, out: &mut Items<Sent<A>, A>, now: u64) -> Result<(), Fault>
        ensures up { OnOk result ((done self.old now).up ≡ false) }
        ensures left { OnOk result (self.new ≡ (done self.old now).left) }
        ensures frames { OnOk result (out.new ≡ out.old ++ all_sent (done self.old now).frames) }
        ensures memory { IfErr result (λ fault. fault ≡ Fault.Memory) }
    {
        if self.count < N_POLL - 1 && self.sole {
            self.state = State::DoneWithToken;
            self.count += 1;
            return Ok(());
        }
        if self.count < N_POLL - 1 && self.ns == self.ts {
            return self.poll(after(self.ts), out, now);
        }
        if self.count < N_POLL - 1 {
            self.count += 1;
            self.retries = 0;
            return self.give_token(out, now);
        }
        if after(self.ps) != self.ns {
            return self.poll(after(self.ps), out, now);
        }
        self.count = 1;
        if !self.sole {
            self.ps = self.ts;
            self.retries = 0;
            return self.give_token(out, now);
        }
        let ps = after(self.ns);
        self.ns = self.ts;
        self.poll(ps, out, now)
    }

    /// Use_Token: the first that waits and is at most 1000 ms old is put out, if there is one.
    #[tactic(auto, unfolding(mstp_table::specs::Table::use_token), using(crate::proofs::Queues::queue_rules))]
    pub(crate) fn use_token(&mut self, out: &mut Items<Sent<A>, A>, now: u64) -> Result<(), Fault>
        ensures up { OnOk result ((use_token self.old now).up ≡ false) }
        ensures left { OnOk result (self.new ≡ (use_token self.old now).left) }
        ensures frames { OnOk result (out.new ≡ out.old ++ all_sent (use_token self.old now).frames) }
        ensures memory { IfErr result (λ fault. fault ≡ Fault.Memory) }
    {
        keep_young(&mut self.queue, now);
        self.use_first(out, now)
    }

    /// Use_Token, with what waits.
    #[tactic(auto, unfolding(mstp_table::specs::Table::used), using(crate::proofs::Queues::queue_rules))]
    fn use_first(&mut self, out: &mut Items<Sent<A>, A>, now: u64) -> Result<(), Fault>
        ensures up { OnOk result ((used self.old self.old.queue now).up ≡ false) }
        ensures left { OnOk result (self.new ≡ (used self.old self.old.queue now).left) }
        ensures frames { OnOk result (out.new ≡ out.old ++ all_sent (used self.old self.old.queue now).frames) }
        ensures memory { IfErr result (λ fault. fault ≡ Fault.Memory) }
    {
        let Some(head) = take_first(&mut self.queue) else {
            return self.done(out, now);
        };
        if expects_reply(head.npdu.as_slice()) && !is_broadcast(&head) {
            self.say_data(FrameType::BacnetDataExpectingReply, &head, out, now)?;
            self.state = State::WaitForReply;
            return Ok(());
        }
        self.say_data(FrameType::BacnetDataNotExpectingReply, &head, out, now)?;
        self.done(out, now)
    }
}
