//! Who sent the first so many items.

ghost use Rattle.std.specs.Prelude.{◌≡◌, ◌-◌, [], true, false};
ghost use Rattle.senders.specs.Senders as spec;
ghost use Rattle.senders.specs.Senders.{AreKnown, AreOthers, senders_of};

use npdu::Mac;
use std::alloc::Allocator;
use std::marker::Model;
use traffic::Item;

/// Who sent the first so many items of a world.
#[derive(Drop)]
pub struct Senders<A: Allocator> {
    known: Vec<Mac, A>,
    seen: usize,
}

impl<A: Allocator> Model for Senders<A> {
    ghost use Rattle.senders.specs.Senders.{SendersState};

    ghost Value = { SendersState };

    ghost view = { λ s. record { known = s.known.items; seen = s.seen } };
}

/// Whether an address is one of these.
fn is_among(mac: Mac, all: &[Mac]) -> bool
    ensures { result ≡ spec.is_among mac all.now }
{
    all.contains(&mac)
}

/// Puts an address among others, if it isn't there. Tells whether it is there then.
#[tactic(auto, using(crate::proofs::SendersLaws::sender_laws))]
fn put<A: Allocator>(all: &mut Vec<Mac, A>, mac: Mac) -> bool
    ensures there { (result ≡ true) → spec.is_among mac all.new.items ≡ true }
    ensures kept { (other : Mac) → spec.is_among other all.old.items ≡ true → spec.is_among other all.new.items ≡ true }
{
    if is_among(mac, all.as_slice()) {
        return true;
    }
    match all.push(mac) {
        Ok(()) => true,
        Err(_) => false,
    }
}

impl<A: Allocator> Senders<A> {
    /// Nobody has sent anything.
    pub fn new(alloc: A) -> Self
        ensures { result ≡ record { known = []; seen = 0 } }
    {
        Senders {
            known: Vec::new(alloc),
            seen: 0,
        }
    }

    /// Takes note of who sent the items behind those that it saw, as far as there is memory for it.
    #[tactic(auto, using(crate::proofs::SendersLaws::sender_laws))]
    pub fn see<B: Allocator>(&mut self, items: &[Item<B>])
        requires known { AreKnown self.old (senders_of items.now) }
        ensures known { AreKnown self.new (senders_of items.now) }
    {
        while self.seen < items.len() {
            if !put(&mut self.known, items[self.seen].from) {
                return;
            }
            self.seen += 1;
        }
    }

    /// The first so many of the items are gone: whoever sent them is known still.
    pub fn forget(&mut self, count: usize)
        ensures { self.new ≡ record self.old { seen = self.old.seen - count } }
    {
        self.seen = self.seen.saturating_sub(count);
    }

    /// Whether it saw all items, and none of them is from this address.
    #[tactic(auto, using(crate::proofs::SendersLaws::sender_laws))]
    pub fn is_stranger<B: Allocator>(&self, items: &[Item<B>], from: Mac) -> bool
        requires known { AreKnown self.now (senders_of items.now) }
        ensures nobody { (result ≡ true) → AreOthers from (senders_of items.now) }
    {
        if self.seen != items.len() {
            return false;
        }
        if is_among(from, self.known.as_slice()) {
            return false;
        }
        true
    }
}
