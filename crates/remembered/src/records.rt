//! What remembers answers, in terms of their list. `execute` is a method of each form and not of the trait: the
//! checker can't yet relate an impl to a trait whose method has a parameter under a bound with ghost members.

use crate::record::{Asker, Record};
use npdu::Way;
use segments::Sender;
use std::alloc::{AllocError, Allocator};

/// Remembers answers, in order of execution. A contract sees their list.
pub trait Records<A: Allocator> {
    ghost use Rattle.std.specs.Prelude.{◌≡◌, List, [], IfOk, option_copied, length, slice_get};
    ghost use Rattle.remembered.specs.declared.record.Record.{Record};
    ghost use Rattle.remembered.specs.Records.{newest, forgotten, begins_dead, said_again};

    ghost content: { Self → List (Record A) };

    /// The newest record of this asker, dead or living.
    fn find(&self, asker: Asker) -> Option<&Record<A>>
        ensures found { option_copied result ≡ newest asker (content self.now) };

    /// Forgets the oldest records, as long as they are dead at the moment `now`, in milliseconds.
    fn forget_dead(&mut self, now: u64)
        ensures forgotten { content self.new ≡ forgotten now (content self.old) };

    /// Has the newest record of this asker said on this way by this sender. It takes no memory.
    fn replace(&mut self, asker: Asker, way: Way, sending: Option<Sender>)
        ensures replaced { content self.new ≡ said_again asker way sending (content self.old) };

    /// Forgets all. It takes no memory.
    fn clear(&mut self)
        ensures cleared { content self.new ≡ [] };

    /// The record at this place, from 0 on, in order of execution.
    fn at(&self, place: usize) -> Option<&Record<A>>
        ensures there { option_copied result ≡ slice_get (content self.now) place };

    /// How many there are.
    fn len(&self) -> usize
        ensures count { result ≡ length (content self.now) };

    /// Whether the oldest record is dead at the moment `now`, in milliseconds.
    fn begins_dead(&self, now: u64) -> bool
        ensures dead { result ≡ begins_dead now (content self.now) };

    /// Equal records.
    ///
    /// # Errors
    /// Want of memory.
    fn copy(&self) -> Result<Self, AllocError>
    where
        Self: Sized,
        ensures copied { IfOk result (λ copy. content copy ≡ content self.now) };
}
