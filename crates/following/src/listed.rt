//! The transactions that ended, the last of them.

use diagnosis_parts::{Key, Transaction};
use std::alloc::{AllocError, Allocator};
use std::collections::VecDeque;
use std::marker::Model;

/// The last transactions that ended. A contract sees how many are listed, and how many that may be.
#[derive(Drop)]
pub(crate) struct Listed<A: Allocator> {
    past: VecDeque<(Key, Transaction), A>,
    most: usize,
}

impl<A: Allocator> Model for Listed<A> {
    ghost use Rattle.std.specs.Prelude.{ℕ, ◌≤◌};
    ghost use Rattle.std.specs.VecDeque.{deque_len};

    ghost Value = { ℕ × ℕ };

    ghost view = { λ l. (deque_len l.past, l.most) };

    ghost invariant = { λ l. deque_len l.past ≤ l.most };
}

impl<A: Allocator> Listed<A> {
    ghost use Rattle.std.specs.Prelude.{◌≡◌, ◌≤◌};

    /// None yet, of so many at most.
    pub(crate) fn new(alloc: A, most: usize) -> Listed<A>
        ensures { result ≡ (0, most) }
    {
        Listed {
            past: VecDeque::new(alloc),
            most,
        }
    }

    /// Lists a transaction, in place of the one that was listed first where there are as many as may be. Returns
    /// whether one left.
    ///
    /// # Errors
    /// Want of memory.
    pub(crate) fn push(&mut self, key: Key, transaction: Transaction) -> Result<bool, AllocError>
        ensures few { self.new.0 ≤ self.new.1 }
        ensures most { self.new.1 ≡ self.old.1 }
    {
        let is_full = self.most <= self.past.len();
        if is_full && self.past.pop_front().is_none() {
            return Ok(true);
        }
        self.past.push_back((key, transaction))?;
        Ok(is_full)
    }

    /// Appends those that are listed, the first that ended first.
    ///
    /// # Errors
    /// Want of memory.
    pub(crate) fn append_to(&self, all: &mut Vec<(Key, Transaction), A>) -> Result<(), AllocError> {
        for one in &self.past {
            all.push(*one)?;
        }
        Ok(())
    }
}
