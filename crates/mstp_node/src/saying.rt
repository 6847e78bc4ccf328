//! The frames that are put out.

ghost use Rattle.std.specs.Prelude.{◌≡◌, ◌≤◌, ◌++◌, ◌∷◌, [], length, OnOk, IfErr};
ghost use Rattle.mstp_table.specs.Node.{all_sent, named};
ghost use Rattle.mstp_table.specs.Table.{data_of, gives_token, polls, says};
ghost use Rattle.mstp_node.specs.Queue.{Fits};
ghost use Rattle.profile.specs.Limits as limit;

use crate::node::Node;
use link::Sent;
use mstp_frame::{Frame, FrameType, write_frame};
use mstp_table::{State, Waiting};
use npdu::Mac;
use std::alloc::Allocator;
use tags::{Fault, Items};

/// Puts a frame behind others that are put out.
fn put<A: Allocator + Copy>(
    alloc: A,
    frame: &Frame<'_>,
    stamp: u64,
    out: &mut Items<Sent<A>, A>,
) -> Result<(), Fault>
    requires { length (named frame.now).contents ≤ limit.MAX_FRAME_DATA_OCTETS }
    ensures put { OnOk result (out.new ≡ out.old ++ all_sent (record { frame = named frame.now; stamp = stamp } ∷ [])) }
    ensures memory { IfErr result (λ fault. fault ≡ Fault.Memory) }
{
    let mut octets = Vec::new(alloc);
    write_frame(frame, &mut octets)?;
    out.push(Sent {
        to: Mac::One(frame.destination),
        octets: Items::from_vec(octets),
        stamp,
    })?;
    Ok(())
}

impl<A: Allocator + Copy> Node<A> {
    /// Says a frame at the moment `now`.
    pub(crate) fn say(
        &mut self,
        frame_type: FrameType,
        destination: u8,
        data: &[u8],
        out: &mut Items<Sent<A>, A>,
        now: u64,
    ) -> Result<(), Fault>
        requires { length «data».now ≤ limit.MAX_FRAME_DATA_OCTETS }
        ensures left { OnOk result (self.new ≡ (says frame_type destination «data».now self.old now).left) }
        ensures frames { OnOk result (out.new ≡ out.old
            ++ all_sent (says frame_type destination «data».now self.old now).frames) }
        ensures memory { IfErr result (λ fault. fault ≡ Fault.Memory) }
    {
        let frame = Frame {
            frame_type,
            destination,
            source: self.ts,
            data,
        };
        put(self.alloc(), &frame, now, out)?;
        self.last = now;
        Ok(())
    }

    /// Says what waited, as data of this type, with its stamp.
    pub(crate) fn say_data(
        &mut self,
        frame_type: FrameType,
        waiting: &Waiting<A>,
        out: &mut Items<Sent<A>, A>,
        now: u64,
    ) -> Result<(), Fault>
        requires { Fits waiting.now }
        ensures left { OnOk result (self.new ≡ record self.old { last = now }) }
        ensures frames { OnOk result (out.new ≡ out.old ++ all_sent (data_of frame_type self.old.ts waiting.now ∷ [])) }
        ensures memory { IfErr result (λ fault. fault ≡ Fault.Memory) }
    {
        let frame = Frame {
            frame_type,
            destination: waiting.destination,
            source: self.ts,
            data: waiting.npdu.as_slice(),
        };
        put(self.alloc(), &frame, waiting.stamp, out)?;
        self.last = now;
        Ok(())
    }

    /// Gives the token to NS (9.5.6, Pass_Token).
    pub(crate) fn give_token(&mut self, out: &mut Items<Sent<A>, A>, now: u64) -> Result<(), Fault>
        ensures left { OnOk result (self.new ≡ (gives_token self.old now).left) }
        ensures frames { OnOk result (out.new ≡ out.old ++ all_sent (gives_token self.old now).frames) }
        ensures memory { IfErr result (λ fault. fault ≡ Fault.Memory) }
    {
        self.state = State::PassToken;
        self.heard = 0;
        self.say(FrameType::Token, self.ns, &[], out, now)
    }

    /// Polls the address `ps`, which is PS then (9.5.6, Poll_For_Master).
    pub(crate) fn poll(
        &mut self,
        ps: u8,
        out: &mut Items<Sent<A>, A>,
        now: u64,
    ) -> Result<(), Fault>
        ensures left { OnOk result (self.new ≡ (polls ps self.old now).left) }
        ensures frames { OnOk result (out.new ≡ out.old ++ all_sent (polls ps self.old now).frames) }
        ensures memory { IfErr result (λ fault. fault ≡ Fault.Memory) }
    {
        self.state = State::PollForMaster;
        self.ps = ps;
        self.say(FrameType::PollForMaster, ps, &[], out, now)
    }
}
