//! The port, and its calls.

ghost use Rattle.std.specs.Prelude.{◌≡◌, ◌++◌, OnOk};
ghost use Rattle.link.specs.Step.{PutsOver, over_port};

use link::{Change, PortSent, Sent, Up, is_target};
use mstp_frame::Frame;
use mstp_node::Node;
use npdu::{Mac, Parcel, Station};
use std::alloc::{AllocError, Allocator};
use std::marker::Model;
use std::mem;
use tags::{Fault, Items};

/// A port on a bus of MS/TP: one end of it, at an address, with its node there. What is handed down waits in the node
/// for the token (9.5). After want of memory it may hold any state, and isn't used again.
#[derive(Drop)]
pub struct BusPort<A: Allocator> {
    alloc: A,
    net: u16,
    node: Node<A>,
}

impl<A: Allocator> Model for BusPort<A> {
    ghost use Rattle.link_bus.specs.Port.{BusPortState};

    ghost Value = { BusPortState A };

    ghost view = { λ p. record { net = p.net; node = p.node } };
}

impl<A: Allocator + Copy> BusPort<A> {
    ghost use Rattle.due_times.specs.Until.{Until};
    ghost use Rattle.std.specs.Prelude.{◌≡◌, ◌≤◌, false, None, IfOk, IfErr, OnOk, length};
    ghost use Rattle.link.specs.Carrying as carrying;
    ghost use Rattle.link.specs.Limits.{max_npdu_at};
    ghost use Rattle.link.specs.Step.{PutsOver, step_of};
    ghost use Rattle.link_bus.specs.Port.{at_moment, changed, moment_of, new_port, restarted, station_of};
    ghost use Rattle.link_bus.specs.Steps as spec;
    ghost use Rattle.link_bus.specs.Steps.{Counts, Downs, Hears, HearsIt, Wakes};
    ghost use Rattle.mstp_table.specs.Node.{named};
    ghost use Rattle.link.specs.Up.{parcel_if};
    ghost use Rattle.profile.specs.Limits as limit;

    /// A port on the network of this number, 1 to 65534, at this address, 0 to 127, made at the moment `now`, in
    /// milliseconds (9.5.2).
    pub fn new(alloc: A, net: u16, address: u8, now: u64) -> Self
        ensures { result ≡ new_port net address now }
    {
        BusPort {
            alloc,
            net,
            node: Node::new(alloc, address, now),
        }
    }

    /// The network, and this station's address on it (9.5.2, TS).
    pub fn station(&self) -> Station
        ensures { result ≡ station_of self.now }
    {
        Station {
            net: self.net,
            mac: Mac::One(self.node.address()),
        }
    }

    /// The moment of the last call that was not refused, in milliseconds.
    pub fn moment(&self) -> u64
        ensures { result ≡ moment_of self.now }
    {
        self.node.moment()
    }

    /// An equal port, in the same memory.
    ///
    /// # Errors
    /// Want of memory.
    pub fn copy(&self) -> Result<Self, AllocError>
        ensures { IfOk result (λ copy. copy ≡ self.now) }
    {
        Ok(BusPort {
            alloc: self.alloc,
            net: self.net,
            node: self.node.copy()?,
        })
    }

    /// The port that an event so far leaves, to be changed further: an equal one of its own where none is there yet.
    ///
    /// # Errors
    /// Want of memory.
    pub(crate) fn changing(&self, change: &mut Change<Self>, now: u64) -> Result<Self, AllocError>
        ensures { IfOk result (λ port. port ≡ changed now self.now change.old) }
    {
        match mem::replace(change, Change::Nothing) {
            Change::Nothing => self.copy(),
            Change::Moment => {
                let mut port = self.copy()?;
                port.come_to(now);
                Ok(port)
            }
            Change::Whole(port) => Ok(port),
        }
    }

    /// Whether anything is due where the port wakes that an event so far leaves.
    pub(crate) fn is_due_after(&self, change: &Change<Self>, now: u64) -> bool
        ensures { result ≡ spec.is_due now (changed now self.now change.now) }
    {
        match change {
            Change::Nothing | Change::Moment => self.node.is_due(now),
            Change::Whole(port) => port.node.is_due(now),
        }
    }

    /// The port that an event so far leaves comes to the moment `now`, in milliseconds. It takes no memory.
    pub(crate) fn come_later(&self, change: &mut Change<Self>, now: u64)
        ensures { changed now self.now change.new ≡ at_moment now (changed now self.now change.old) }
    {
        match change {
            Change::Nothing | Change::Moment => *change = Change::Moment,
            Change::Whole(port) => port.come_to(now),
        }
    }

    /// Wakes where nothing is due: it comes to that moment, and no more. It takes no memory.
    pub(crate) fn rest(&self, change: &mut Change<Self>, now: u64)
        requires quiet { spec.is_due now (changed now self.now change.old) ≡ false }
        ensures { Wakes now (changed now self.now change.old) carrying.nothing (changed now self.now change.new) }
    {
        self.come_later(change, now);
    }

    /// Comes to the moment `now`, in milliseconds: no octets are heard.
    #[tactic(auto, unfolding(mstp_table::specs::Table::after_octets))]
    pub(crate) fn come_to(&mut self, now: u64)
        ensures { self.new ≡ at_moment now self.old }
    {
        self.node.on_octets(0, now);
    }

    /// Whether a parcel is from here, and for all or for a master (9.1, 9.3).
    fn is_taken(&self, parcel: &Parcel<A>) -> bool
        ensures { result ≡ spec.is_taken (station_of self.now).mac parcel.now }
    {
        let own = self.station().mac;
        parcel.from == own && is_target(own, parcel.to)
    }

    /// Queues a parcel at the moment `now`, in milliseconds, until the node has the token (9.5.6, Use_Token).
    ///
    /// # Errors
    /// Want of memory.
    #[tactic(auto, unfolding(mstp_table::specs::Table::step))]
    pub(crate) fn queue(&mut self, parcel: &Parcel<A>, now: u64) -> Result<(), AllocError>
        requires fits { length parcel.now.npdu ≤ max_npdu_at (station_of self.old).mac }
        ensures { OnOk result (Downs now parcel.now self.old carrying.nothing self.new) }
    {
        let is_taken = self.is_taken(parcel);
        self.come_to(now);
        if is_taken {
            self.node.queue(parcel)?;
        }
        Ok(())
    }

    /// Hears the octets of a whole frame, and puts out over the port of this number what its node says to it.
    ///
    /// # Errors
    /// `Memory` alone.
    #[tactic(auto, using(crate::proofs::Doing::doing_rules))]
    pub(crate) fn hear<'o>(
        &mut self,
        from: Mac,
        octets: &'o [u8],
        stamp: u64,
        port: usize,
        now: u64,
        out: &mut Items<PortSent<A>, A>,
    ) -> Result<Option<Up<'o>>, Fault>
        ensures hears { IfOk result (λ up. Hears now from octets.entry.now stamp self.old
            (step_of (parcel_if up) out.old out.new) self.new) }
        ensures over { PutsOver port out.old out.new }
        ensures memory { IfErr result (λ fault. fault ≡ Fault.Memory) }
    {
        match (from, Frame::read(octets)) {
            (Mac::One(_), Some(frame)) => self.hear_frame(&frame, stamp, port, now, out),
            (Mac::One(_), None) | (Mac::Six(_), _) => {
                self.come_to(now);
                Ok(None)
            }
        }
    }

    /// Hears a frame of at most 501 octets of data.
    #[tactic(auto, unfolding(mstp_table::specs::Table::step), using(crate::proofs::Doing::doing_rules))]
    fn hear_frame<'o>(
        &mut self,
        frame: &Frame<'o>,
        stamp: u64,
        port: usize,
        now: u64,
        out: &mut Items<PortSent<A>, A>,
    ) -> Result<Option<Up<'o>>, Fault>
        requires { length (named frame.now).contents ≤ limit.MAX_FRAME_DATA_OCTETS }
        ensures does { IfOk result (λ up. HearsIt now (named frame.now) stamp self.old
            (step_of (parcel_if up) out.old out.new) self.new) }
        ensures over { PutsOver port out.old out.new }
        ensures memory { IfErr result (λ fault. fault ≡ Fault.Memory) }
    {
        let step = self.node.on_frame(frame, now)?;
        put_over(port, step.out, out)?;
        Ok(self.handed_up(step.hands_up, frame, stamp))
    }

    /// Wakes at the moment `now`, in milliseconds, and puts out the frames of its node (9.5.6).
    ///
    /// # Errors
    /// `Memory` alone, and only where something is due.
    #[tactic(auto, unfolding(mstp_table::specs::Table::step), using(crate::proofs::Doing::doing_rules))]
    pub(crate) fn wake(
        &mut self,
        port: usize,
        now: u64,
        out: &mut Items<PortSent<A>, A>,
    ) -> Result<(), Fault>
        ensures wakes { OnOk result (Wakes now self.old (step_of None out.old out.new) self.new) }
        ensures over { PutsOver port out.old out.new }
        ensures memory { IfErr result (λ fault. fault ≡ Fault.Memory) }
    {
        let frames = self.node.on_tick(now)?;
        put_over(port, frames, out)?;
        Ok(())
    }

    /// Whether anything is due where it wakes at the moment `now`, in milliseconds. It takes no memory.
    pub fn is_due(&self, now: u64) -> bool
        ensures { result ≡ spec.is_due now self.now }
    {
        self.node.is_due(now)
    }

    /// Returns a moment, in milliseconds, before which nothing is due where it wakes.
    pub fn next_due(&self) -> u64
        ensures { Until result (λ now. spec.is_due now self.now ≡ false) }
    {
        self.node.next_due()
    }

    /// So many octets are heard on the bus at the moment `now`, in milliseconds, in a frame or not: the port is told of
    /// them before the frame that they end (9.5.2). No octets are no input. It takes no memory.
    #[tactic(auto, unfolding(mstp_table::specs::Table::step))]
    pub(crate) fn count(&mut self, count: usize, now: u64)
        ensures { Counts count now self.old carrying.nothing self.new }
    {
        self.node.on_octets(count, now);
    }

    /// Restarts at the moment `now`, in milliseconds: what waited is gone, and the node is as one just made, its
    /// silence counting from then (9.5.6, Initialize). It takes no memory.
    pub(crate) fn begin_anew(&mut self, now: u64)
        ensures { self.new ≡ restarted now self.old }
    {
        self.node.restart(now);
    }
}

/// All of these go out over a port, in order.
#[tactic(auto, using(crate::proofs::Doing::doing_rules))]
fn put_over<A: Allocator>(
    port: usize,
    all: Items<Sent<A>, A>,
    out: &mut Items<PortSent<A>, A>,
) -> Result<(), AllocError>
    ensures put { OnOk result (out.new ≡ out.old ++ over_port port all) }
    ensures over { PutsOver port out.old out.new }
{
    for sent in all.into_vec() {
        out.push(PortSent { port, sent })?;
    }
    Ok(())
}
