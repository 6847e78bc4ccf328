//! What the sockets of a wire have: who is asked, and when.

ghost use Rattle.std.specs.Prelude.{◌≡◌, ◌≤◌, ◌<◌, false, length, IfNone, IfOk, IfSome, OnErr};
ghost use Rattle.std.specs.Option.{ForSome};
ghost use Rattle.profile.specs.Limits as limit;
ghost use Rattle.wire.specs.Turns.{IsNext, MayHaveMore, brought, marked, passed};
ghost use Rattle.wire.specs.Wires.{KeepsCounts, KeepsLatest};

use crate::socket::{Arrival, receive_from};
use crate::turns::Turns;
use crate::udp::UdpWire;
use mio::{Events, Token};
use std::alloc::Allocator;
use std::io;
use std::time::Duration;

/// Notes which sockets may have a datagram, as the system told it.
#[tactic(auto, using(crate::proofs::TurnLaws::more_rules))]
fn mark_all<A: Allocator>(turns: &mut Turns<A>, events: &Events<A>)
    ensures { MayHaveMore turns.old turns.new }
{
    for event in events.iter() {
        let Token(number) = event.token();
        turns.mark(number);
    }
}

impl<A: Allocator> UdpWire<A> {
    /// Asks each socket that may have a datagram, beginning with the one whose turn it is, until one has.
    fn receive(&mut self) -> io::Result<Option<Arrival>>
        ensures fits { IfOk result (λ came. ForSome came (λ a. a.count ≤ limit.MAX_DATAGRAM_OCTETS)) }
        ensures counts { KeepsCounts self.old self.new }
    {
        for _ in 0..=self.sockets.len() {
            let Some(place) = self.turns.next() else {
                break;
            };
            if let Some(arrival) = self.receive_at(place)? {
                return Ok(Some(arrival));
            }
        }
        Ok(None)
    }

    /// What the socket at a place has, if anything is there. One that fails again and again keeps no other waiting.
    fn receive_at(&mut self, place: usize) -> io::Result<Option<Arrival>>
        requires within { place < length self.old.turns.ready }
        requires next { IsNext place self.old.turns }
        ensures brought { IfOk result (λ came. IfSome came
            (λ a. MayHaveMore (brought place self.old.turns) self.new.turns)) }
        ensures silent { IfOk result (λ came. IfNone came (self.new.turns ≡ marked false place self.old.turns)) }
        ensures failed { OnErr result (self.new.turns ≡ passed place self.old.turns) }
        ensures fits { IfOk result (λ came. ForSome came (λ a. a.count ≤ limit.MAX_DATAGRAM_OCTETS)) }
        ensures counts { KeepsCounts self.old self.new }
    {
        let received = match self.sockets.get(place) {
            Some(socket) => receive_from(socket, &mut self.buffer),
            None => Ok(None),
        };
        match received {
            Ok(Some(arrival)) => {
                self.has_brought(place);
                Ok(Some(arrival))
            }
            Ok(None) => {
                self.turns.unmark(place);
                Ok(None)
            }
            Err(error) => {
                self.turns.pass(place);
                Err(error)
            }
        }
    }

    /// The socket at a place brought a datagram. Where another one is asked next, the system tells of those that were
    /// silent before.
    #[tactic(auto, using(crate::proofs::TurnLaws::more_rules))]
    fn has_brought(&mut self, place: usize)
        requires within { place < length self.old.turns.ready }
        ensures kept { KeepsLatest self.old self.new }
        ensures turn { MayHaveMore (brought place self.old.turns) self.new.turns }
    {
        self.turns.bring(place);
        if self.turns.is_another() {
            let _ = self.look(Duration::ZERO);
        }
    }

    /// Has the system tell which sockets may have a datagram, once so much time has passed at the latest.
    #[tactic(auto, using(crate::proofs::TurnLaws::more_rules))]
    pub(crate) fn look(&mut self, at_most: Duration) -> io::Result<()>
        ensures kept { KeepsLatest self.old self.new }
        ensures turns { MayHaveMore self.old.turns self.new.turns }
    {
        self.poll.poll(&mut self.events, Some(at_most))?;
        mark_all(&mut self.turns, &self.events);
        Ok(())
    }

    /// Asks each socket that may have a datagram, and, where none has one, each that the system tells of then.
    pub(crate) fn receive_any(&mut self) -> io::Result<Option<Arrival>>
        ensures fits { IfOk result (λ came. ForSome came (λ a. a.count ≤ limit.MAX_DATAGRAM_OCTETS)) }
        ensures counts { KeepsCounts self.old self.new }
    {
        if let Some(arrival) = self.receive()? {
            return Ok(Some(arrival));
        }
        self.look(Duration::ZERO)?;
        self.receive()
    }
}
