//! The node, and its calls.

ghost use Rattle.std.specs.Prelude.{◌≡◌, ◌≤◌, ◌+◌, min};
ghost use Rattle.mstp_table.specs.Table as table;
ghost use Rattle.profile.specs.Limits.{N_MIN_OCTETS};

use crate::queue::{copied, destination_of};
use link::Sent;
use mstp_frame::Frame;
use mstp_table::{State, Waiting};
use npdu::Parcel;
use profile::{N_MIN_OCTETS, N_POLL};
use std::alloc::{AllocError, Allocator};
use std::marker::Model;
use tags::{Fault, Items};

/// What comes of a frame.
#[derive(Drop)]
pub struct NodeStep<A: Allocator> {
    /// Whether the data of the frame are handed up.
    pub hands_up: bool,
    /// The frames that are put out, in order.
    pub out: Items<Sent<A>, A>,
}

/// A master node (9.5). Its calls may come at any moments: a silence is the difference of two, and stops at 0. After
/// want of memory it may hold any state, and isn't used again.
#[derive(Drop)]
pub struct Node<A: Allocator> {
    pub(crate) state: State,
    pub(crate) ts: u8,
    pub(crate) ns: u8,
    pub(crate) ps: u8,
    pub(crate) count: u8,
    pub(crate) retries: u8,
    pub(crate) sole: bool,
    pub(crate) heard: u8,
    pub(crate) last: u64,
    pub(crate) moment: u64,
    pub(crate) queue: Vec<Waiting<A>, A>,
}

impl<A: Allocator> Model for Node<A> {
    ghost use Rattle.std.specs.Prelude.{◌≤◌};
    ghost use Rattle.mstp_node.specs.Queue.{AllFit};
    ghost use Rattle.mstp_table.specs.Node.{NodeState};

    ghost Value = { NodeState A };

    ghost view = { λ n. record {
      state = n.state;
      ts = n.ts;
      ns = n.ns;
      ps = n.ps;
      count = n.count;
      retries = n.retries;
      sole = n.sole;
      heard = n.heard;
      last = n.last;
      moment = n.moment;
      queue = n.queue.items;
    } };

    ghost invariant = { λ n. (n.heard ≤ 4) × AllFit n.queue.items };
}

impl<A: Allocator + Copy> Node<A> {
    ghost use Rattle.std.specs.Prelude.{◌≡◌, ◌≤◌, true, OnOk, OnErr, IfOk, IfErr, length};
    ghost use Rattle.mstp_table.specs.Node.{IsForBus, all_sent, named};
    ghost use Rattle.mstp_table.specs.Table.{after_frame, after_octets, after_queued, after_tick, made};
    ghost use Rattle.mstp_table.specs.Table as table;
    ghost use Rattle.profile.specs.Limits as limit;

    /// A node at the address `ts`, 0 to 127, made at the moment `now`, in milliseconds (9.5.2).
    pub fn new(alloc: A, ts: u8, now: u64) -> Self
        ensures { result ≡ made ts now }
    {
        Node {
            state: State::Idle,
            ts,
            ns: ts,
            ps: ts,
            count: N_POLL,
            retries: 0,
            sole: false,
            heard: 0,
            last: now,
            moment: now,
            queue: Vec::new(alloc),
        }
    }

    /// Its address (9.5.2, TS).
    pub fn address(&self) -> u8
        ensures { result ≡ self.now.ts }
    {
        self.ts
    }

    /// The moment of the last call but `queue`, in milliseconds.
    pub fn moment(&self) -> u64
        ensures { result ≡ self.now.moment }
    {
        self.moment
    }

    /// An equal node, in the same memory.
    ///
    /// # Errors
    /// Want of memory.
    pub fn copy(&self) -> Result<Self, AllocError>
        ensures { IfOk result (λ copy. copy ≡ self.now) }
    {
        Ok(Node {
            state: self.state,
            ts: self.ts,
            ns: self.ns,
            ps: self.ps,
            count: self.count,
            retries: self.retries,
            sole: self.sole,
            heard: self.heard,
            last: self.last,
            moment: self.moment,
            queue: copied(self.alloc(), self.queue.as_slice())?,
        })
    }

    /// The memory that it takes.
    pub(crate) fn alloc(&self) -> A {
        *self.queue.allocator()
    }

    /// Queues a parcel from this node to all or to a master, 0 to 127, of at most 501 octets. It is put out when the
    /// node has the token, with its stamp, or dropped where it is older than 1000 ms by then.
    ///
    /// # Errors
    /// Want of memory. The node is then as it was.
    #[tactic(auto, unfolding(mstp_table::specs::Table::after_queued), using(crate::proofs::Queues::queue_rules))]
    pub fn queue(&mut self, parcel: &Parcel<A>) -> Result<(), AllocError>
        requires { IsForBus self.old.ts parcel.now }
        ensures queued { OnOk result (self.new ≡ after_queued parcel.now self.old) }
        ensures unchanged { OnErr result (self.new ≡ self.old) }
    {
        let waiting = Waiting {
            destination: destination_of(parcel.to),
            npdu: parcel.npdu.copy(self.alloc())?,
            stamp: parcel.stamp,
        };
        self.queue.push(waiting)?;
        Ok(())
    }

    /// So many octets are heard on the bus at the moment `now`, in milliseconds, in a frame or not: it is told of them
    /// before the frame that they end (9.5.2). No octets are no input.
    #[tactic(auto, unfolding(mstp_table::specs::Table::after_octets))]
    pub fn on_octets(&mut self, count: usize, now: u64)
        ensures { self.new ≡ after_octets count self.old now }
    {
        self.moment = now;
        if count == 0 {
            return;
        }
        self.last = now;
        self.heard = counted(self.heard, count);
        self.state = heeded(self.state, self.heard);
    }

    /// Hears a frame of at most 501 octets of data at the moment `now`, in milliseconds.
    ///
    /// # Errors
    /// `Memory` alone.
    pub fn on_frame(&mut self, frame: &Frame<'_>, now: u64) -> Result<NodeStep<A>, Fault>
        requires size { length (named frame.now).contents ≤ limit.MAX_FRAME_DATA_OCTETS }
        ensures up { IfOk result (λ step. step.hands_up ≡ (after_frame (named frame.now) self.old now).up) }
        ensures out { IfOk result (λ step. step.out ≡ all_sent (after_frame (named frame.now) self.old now).frames) }
        ensures left { OnOk result (self.new ≡ (after_frame (named frame.now) self.old now).left) }
        ensures memory { IfErr result (λ fault. fault ≡ Fault.Memory) }
    {
        let mut out = Items::new(self.alloc());
        let hands_up = self.hear(frame, &mut out, now)?;
        Ok(NodeStep { hands_up, out })
    }

    /// Wakes at the moment `now`, in milliseconds, and answers the frames that it puts out, in order.
    ///
    /// # Errors
    /// `Memory` alone, and only where something is due.
    pub fn on_tick(&mut self, now: u64) -> Result<Items<Sent<A>, A>, Fault>
        ensures out { IfOk result (λ out. out ≡ all_sent (after_tick self.old now).frames) }
        ensures left { OnOk result (self.new ≡ (after_tick self.old now).left) }
        ensures memory { IfErr result (λ fault. fault ≡ Fault.Memory) }
        ensures due { OnErr result (table.is_due self.old now ≡ true) }
    {
        let mut out = Items::new(self.alloc());
        self.wake(&mut out, now)?;
        Ok(out)
    }

    /// Restarts at the moment `now`, in milliseconds: what waited is gone, and the silence counts from then. It takes
    /// no memory.
    pub fn restart(&mut self, now: u64)
        ensures { self.new ≡ made self.old.ts now }
    {
        *self = Node::new(self.alloc(), self.ts, now);
    }
}

/// How many octets were heard, with so many more, at most four being counted (9.5.2, EventCount).
fn counted(heard: u8, more: usize) -> u8
    requires { heard ≤ 4 }
    ensures { result ≡ min N_MIN_OCTETS (heard + more) }
{
    if more >= usize::from(N_MIN_OCTETS) {
        N_MIN_OCTETS
    } else {
        std::cmp::min(N_MIN_OCTETS, heard + more as u8)
    }
}

/// The state where so many octets were heard: four show that the token is in use.
fn heeded(state: State, heard: u8) -> State
    ensures { result ≡ table.heeded state heard }
{
    match state {
        State::PassToken | State::NoToken if heard >= N_MIN_OCTETS => State::Idle,
        State::Idle
        | State::WaitForReply
        | State::DoneWithToken
        | State::PassToken
        | State::NoToken
        | State::PollForMaster
        | State::AnswerDataRequest(_) => state,
    }
}
