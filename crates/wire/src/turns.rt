//! Whose turn it is among sockets: each that may have a datagram is asked in turn, and none is kept waiting for ever.

ghost use Rattle.std.specs.Prelude.{◌≡◌, ◌≤◌, ◌<◌, ◌*◌, ◌↔◌, true, false, IfNone, IfOk, IfSome, IsTrue, length, replicate};
ghost use Rattle.wire.specs.Turns.{AreUnmarked, IsFirstIn, IsInRange, IsNext, IsQuiet, IsReady};
ghost use Rattle.wire.specs.Turns.{MAX_IN_ROW as MOST, brought, marked, passed, waits};

use std::alloc::{AllocError, Allocator};
use std::marker::Model;

/// How many datagrams a socket may bring in a row before the next one is asked.
const MAX_IN_ROW: u8 = 16;

/// Sockets by their places: which of them may have a datagram, and whose turn it is.
#[derive(Drop)]
pub struct Turns<A: Allocator> {
    ready: Vec<bool, A>,
    /// The place of the socket that is asked first, or the number of all sockets.
    turn: usize,
    /// How many datagrams it brought in a row.
    in_row: u8,
}

impl<A: Allocator> Model for Turns<A> {
    ghost use Rattle.wire.specs.Turns.{IsInRange, TurnsState};

    ghost Value = { TurnsState };

    ghost view = { λ s. record { ready = s.ready.items; turn = s.turn; in_row = s.in_row } };

    ghost invariant = { λ s. IsInRange (record { ready = s.ready.items; turn = s.turn; in_row = s.in_row }) };
}

/// The first place from one up to another that is marked.
fn first_in(ready: &[bool], from: usize, to: usize) -> Option<usize>
    requires within { to ≤ length ready.now }
    ensures first { IfSome result (IsFirstIn ready.now from to) }
    ensures none { IfNone result (AreUnmarked ready.now from to) }
{
    for place in from..to {
        if ready[place] {
            return Some(place);
        }
    }
    None
}

/// So many marks that say that a socket may have a datagram.
fn all_ready<A: Allocator>(alloc: A, count: usize) -> Result<Vec<bool, A>, AllocError>
    ensures { IfOk result (λ all. all.items ≡ replicate count true) }
{
    let mut all = Vec::new(alloc);
    for _ in 0..count {
        all.push(true)?;
    }
    Ok(all)
}

impl<A: Allocator> Turns<A> {
    /// So many sockets, each of which may have a datagram; the first one's turn is next.
    ///
    /// # Errors
    /// Want of memory.
    pub fn new(alloc: A, count: usize) -> Result<Self, AllocError>
        ensures { IfOk result (λ turns. turns ≡ record { ready = replicate count true; turn = 0; in_row = 0 }) }
    {
        Ok(Turns {
            ready: all_ready(alloc, count)?,
            turn: 0,
            in_row: 0,
        })
    }

    /// The place of the socket that is asked next, if one may have a datagram.
    #[tactic(auto, using(crate::proofs::TurnLaws::next_rules))]
    pub fn next(&self) -> Option<usize>
        ensures next { IfSome result (λ place. IsNext place self.now) }
        ensures quiet { IfNone result (IsQuiet self.now) }
        ensures within { IfSome result (λ place. place < length self.now.ready) }
    {
        let ready = self.ready.as_slice();
        match first_in(ready, self.turn, ready.len()) {
            Some(place) => Some(place),
            None => first_in(ready, 0, self.turn),
        }
    }

    /// The socket at this place may have a datagram. A place without a socket is none.
    pub fn mark(&mut self, place: usize)
        ensures { self.new ≡ marked true place self.old }
    {
        if place < self.ready.len() {
            self.ready[place] = true;
        }
    }

    /// The socket at this place has no datagram.
    pub fn unmark(&mut self, place: usize)
        requires within { place < length self.old.ready }
        ensures { self.new ≡ marked false place self.old }
    {
        self.ready[place] = false;
    }

    /// The socket at this place brought a datagram: it is asked first again, unless it has brought sixteen in a row.
    pub fn bring(&mut self, place: usize)
        requires within { place < length self.old.ready }
        ensures { self.new ≡ brought place self.old }
    {
        let in_row = if place == self.turn {
            self.in_row + 1
        } else {
            1
        };
        if in_row < MAX_IN_ROW {
            self.turn = place;
            self.in_row = in_row;
        } else {
            self.pass(place);
        }
    }

    /// Whether the socket that is asked first has brought nothing in a row yet.
    pub fn is_another(&self) -> bool
        ensures { IsTrue result ↔ (self.now.in_row ≡ 0) }
    {
        self.in_row == 0
    }

    /// The next turn is that of the socket behind this place: one that fails again and again keeps no other waiting.
    pub fn pass(&mut self, place: usize)
        requires within { place < length self.old.ready }
        ensures { self.new ≡ passed place self.old }
    {
        if place < self.ready.len() {
            self.turn = place + 1;
            self.in_row = 0;
        }
    }
}

/// A socket that may have a datagram is asked in the end: what it waits for falls with each datagram that another one
/// brings, and with each failure of another one, and nothing else makes it rise; it never was more than sixteen for
/// each socket.
#[tactic(auto, using(crate::proofs::TurnLaws::fairness))]
pub fn no_socket_starves()
    ensures brought { (s : _) (place other : _) → IsInRange s → IsReady place s → IsNext other s → (other ≡ place → ⊥)
        → waits place (brought other s) < waits place s }
    ensures failed { (s : _) (place other : _) → IsInRange s → IsReady place s → IsNext other s → (other ≡ place → ⊥)
        → waits place (passed other s) < waits place s }
    ensures marks { (s : _) (mark : _) (place other : _) → waits place (marked mark other s) ≡ waits place s }
    ensures most { (s : _) (place : _) → IsInRange s → IsReady place s → waits place s ≤ MOST * length s.ready }
{}
