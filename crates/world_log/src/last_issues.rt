//! The last issue of each client under each invoke ID.

ghost use Rattle.std.specs.Prelude.{◌≡◌, ◌<◌, ◌+◌, ◌^◌, IfOk, OnOk, length};
ghost use Rattle.world_log.specs.Issues as spec;
ghost use Rattle.world_log.specs.Issues.{KeepsKeys, LeadsToLast, folded, gap_after, keys_in};

use crate::keeping::push_reserved;
use crate::key::{Key, Run};
use crate::last_numbers::{LastNumbers, copy_of, make_place, number_in, put_number};
use npdu::Station;
use std::alloc::{AllocError, Allocator};
use std::marker::Model;

/// Who issued, and under which invoke ID, of each issue, in order. The last issue of each client under each invoke ID
/// is found without a walk over the others, of which any may be forgotten.
#[derive(Drop)]
pub struct LastIssues<A: Allocator> {
    /// How many there were.
    issued: usize,
    runs: Vec<Run, A>,
    last: LastNumbers<A>,
    /// Whose issue room was made for.
    ready: Option<Key>,
    /// How many are kept where the next are forgotten.
    due: usize,
}

impl<A: Allocator> Model for LastIssues<A> {
    ghost use Rattle.world_log.specs.Issues.{AreLast, IssuesState, keys_in};

    ghost Value = { IssuesState };

    ghost view = { λ s. record { keys = keys_in s.runs.items; ready = s.ready } };

    ghost invariant = { λ s. AreLast s.issued s.runs s.last.items s.ready };
}

/// Returns whether this is the number that was found.
fn is_number(number: usize, found: Option<usize>) -> bool
    ensures { result ≡ spec.is_number number found }
{
    match found {
        Some(found) => found == number,
        None => false,
    }
}

/// Takes an issue over behind those that are kept, where so many before it are forgotten, if it is the last of its key.
/// Returns how many are forgotten then.
fn fold<A: Allocator>(
    kept: &mut Vec<Run, A>,
    gap: usize,
    run: Run,
    is_last: bool,
) -> Result<usize, AllocError>
    requires { gap + (run.before + 1) < 2 ^ 64 }
    ensures kept { OnOk result (kept.new.items ≡ folded is_last gap run kept.old.items) }
    ensures gap { IfOk result (λ next. next ≡ gap_after is_last gap run) }
{
    if !is_last {
        return Ok(gap + (run.before + 1));
    }
    kept.push(Run {
        key: run.key,
        before: gap + run.before,
    })?;
    Ok(0)
}

/// Returns the last issue of each key alone.
///
/// # Errors
/// Want of memory.
#[tactic(auto, using(crate::proofs::IssueLaws::folding_rules))]
fn last_runs<A: Allocator + Copy>(
    alloc: A,
    runs: &[Run],
    last: &LastNumbers<A>,
) -> Result<Vec<Run, A>, AllocError>
    requires leads { LeadsToLast last.now.items (keys_in runs.now) }
    requires fits { length (keys_in runs.now) < 2 ^ 64 }
    ensures { IfOk result (λ kept. KeepsKeys (keys_in runs.now) (keys_in kept.items)) }
{
    let mut kept = Vec::new(alloc);
    let mut number = 0;
    let mut gap = 0;
    for run in runs {
        let own = number + run.before;
        let is_last = is_number(own, number_in(last, run.key));
        gap = fold(&mut kept, gap, *run, is_last)?;
        number = own + 1;
    }
    Ok(kept)
}

impl<A: Allocator + Copy> LastIssues<A> {
    ghost use Rattle.std.specs.Prelude.{◌≡◌, ◌∷◌, ◌++◌, [], None, Some, IfOk, OnOk, length};
    ghost use Rattle.carry_ends.specs.carry_world.PlainWorld.{last_key};
    ghost use Rattle.world_log.specs.Issues.{KeepsKeys, key_of};

    /// Returns the issues of a world in which nobody has issued. It takes no memory yet.
    #[tactic(auto, using(crate::proofs::IssueLaws::new_rules))]
    pub fn new(alloc: A) -> Self
        ensures { result ≡ record { keys = []; ready = None } }
    {
        LastIssues {
            issued: 0,
            runs: Vec::new(alloc),
            last: Vec::new(alloc),
            ready: None,
            due: 0,
        }
    }

    /// Returns how many there were.
    pub fn len(&self) -> usize
        ensures { result ≡ length self.now.keys }
    {
        self.issued
    }

    /// Returns how many of them aren't forgotten: the last of each client under each invoke ID, and at most as many
    /// that were replaced, once [`Self::forget`] was called.
    pub fn kept(&self) -> usize {
        self.runs.len()
    }

    /// Returns the number of the last issue of a client under an invoke ID (5.4.1).
    #[tactic(auto, using(crate::proofs::IssueLaws::last_rules))]
    pub fn last(&self, client: Station, invoke_id: u8) -> Option<usize>
        ensures { result ≡ last_key client invoke_id self.now.keys }
    {
        number_in(&self.last, Key { client, invoke_id })
    }

    /// Makes room for the next issue, which is of this key.
    ///
    /// # Errors
    /// Want of memory, or of numbers.
    #[tactic(auto, using(crate::proofs::IssueLaws::preparing_rules))]
    pub fn prepare(&mut self, key: Key) -> Result<(), AllocError>
        ensures same { self.new.keys ≡ self.old.keys }
        ensures ready { OnOk result (self.new.ready ≡ Some key) }
    {
        self.ready = None;
        if self.issued == usize::MAX {
            return Err(AllocError);
        }
        self.runs.reserve(1)?;
        make_place(&mut self.last, key)?;
        self.ready = Some(key);
        Ok(())
    }

    /// Puts the issue of a key behind the others, where room was made for it. It takes no memory.
    #[tactic(auto, using(crate::proofs::IssueLaws::pushing_rules))]
    pub fn push(&mut self, key: Key)
        requires ready { self.old.ready ≡ Some key }
        ensures { self.new.keys ≡ self.old.keys ++ key_of key ∷ [] }
    {
        put_number(&mut self.last, key, self.issued);
        push_reserved(&mut self.runs, Run { key, before: 0 });
        self.issued += 1;
        self.ready = None;
    }

    /// Forgets the issues that a later one of their key replaced, once there are as many more as were kept the last
    /// time. Where memory is wanted it forgets none.
    #[tactic(auto, using(crate::proofs::IssueLaws::forgetting_rules))]
    pub fn forget(&mut self)
        ensures { KeepsKeys self.old.keys self.new.keys }
    {
        if self.runs.len() < self.due {
            return;
        }
        let kept = last_runs(*self.runs.allocator(), self.runs.as_slice(), &self.last);
        if let Ok(kept) = kept {
            self.due = kept.len().saturating_mul(2);
            self.runs = kept;
            self.ready = None;
        }
    }

    /// Returns equal issues, in memory of `alloc`.
    ///
    /// # Errors
    /// Want of memory.
    #[tactic(auto, using(crate::proofs::IssueLaws::copying_rules))]
    pub fn copy(&self, alloc: A) -> Result<Self, AllocError>
        ensures { IfOk result (λ copy. copy.keys ≡ self.now.keys) }
    {
        Ok(LastIssues {
            issued: self.issued,
            runs: Vec::from_slice(alloc, self.runs.as_slice())?,
            last: copy_of(alloc, self.last.as_slice())?,
            ready: None,
            due: self.due,
        })
    }
}
