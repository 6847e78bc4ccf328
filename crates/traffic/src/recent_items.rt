//! Items by their numbers, of which those that are too old to be heard may be forgotten.

ghost use Rattle.std.specs.Prelude.{◌≡◌, ◌≤◌, ◌-◌, IfOk, false, length, take};
ghost use Rattle.std.specs.List.{AllByRecursion};
ghost use Rattle.traffic.specs.Seeking.{is_young};

use crate::item::Item;
use crate::seeking::{first_young, item_at, next_waiting};
use npdu::Mac;
use profile::is_heard_in_time;
use std::alloc::{AllocError, Allocator};
use std::marker::Model;
use tags::{Fault, Octets};

/// All items that were put out, in order: each has its place as its number. One that is too old to be heard may be
/// forgotten: a blank stands in its place then, which is as old as can be and goes to nobody.
#[derive(Drop)]
pub struct RecentItems<A: Allocator> {
    /// How many are forgotten: they stand before the others.
    first: usize,
    forgotten: Item<A>,
    kept: Vec<Item<A>, A>,
}

impl<A: Allocator> Model for RecentItems<A> {
    ghost use Rattle.std.specs.Prelude.{◌≡◌, ◌<◌, ◌+◌, ◌^◌, length};
    ghost use Rattle.traffic.specs.Recent.{RecentState, behind_blanks, blank};

    ghost Value = { RecentState A };

    ghost view = { λ s. record { first = s.first; items = behind_blanks s.first s.kept.items } };

    ghost invariant = { λ s. (s.forgotten ≡ blank) × (s.first + length s.kept.items < 2 ^ 64) };
}

/// How many of these, but for the last so many, were put out too long ago to be heard at the moment `now`, in
/// milliseconds.
fn most_old<A: Allocator>(items: &[Item<A>], latest: usize, now: u64) -> usize
    ensures bound { result ≤ length items.now }
    ensures latest { result ≤ length items.now - latest }
{
    first_young(items, now).min(items.len().saturating_sub(latest))
}

/// How many of these, from the first on and at most so many, are too old to be heard at the moment `now`, in
/// milliseconds.
fn old_count<A: Allocator>(items: &[Item<A>], most: usize, now: u64) -> usize
    ensures within { result ≤ length items.now }
    ensures most { result ≤ most }
    ensures old { AllByRecursion (λ i. is_young now i ≡ false) (take result items.now) }
{
    let mut count = 0;
    while count < most && count < items.len() && !is_heard_in_time(items[count].stamp, now) {
        count += 1;
    }
    count
}

/// Equal items.
fn copies_of<A: Allocator + Copy>(
    alloc: A,
    items: &[Item<A>],
) -> Result<Vec<Item<A>, A>, AllocError>
    ensures { IfOk result (λ copies. copies.items ≡ items.now) }
{
    let mut copies = Vec::new(alloc);
    for item in items {
        copies.push(item.copy(alloc)?)?;
    }
    Ok(copies)
}

impl<A: Allocator + Copy> RecentItems<A> {
    ghost use Rattle.std.specs.Prelude.{◌≡◌, ◌≤◌, ◌<◌, [], Some, None, IfErr, IfOk, IfSome, OnErr, OnOk};
    ghost use Rattle.std.specs.Prelude.{◌-◌, drop, length, max, slice_get};
    ghost use Rattle.traffic.specs.Recent.{IsMarkedIn, KeepsRecent, cut_items, with_item};
    ghost use Rattle.traffic.specs.Seeking.{Waits};

    /// Returns items of which none was put out. It takes no memory yet.
    pub fn new(alloc: A) -> Self
        ensures { result ≡ record { first = 0; items = [] } }
    {
        RecentItems {
            first: 0,
            forgotten: Item {
                net: 0,
                from: Mac::One(0),
                to: Mac::One(0),
                octets: Octets::new(alloc),
                stamp: 0,
                put_out: 0,
                is_delivered: true,
            },
            kept: Vec::new(alloc),
        }
    }

    /// Returns how many were put out.
    #[tactic(auto, using(crate::proofs::RecentLaws::count_rules))]
    pub fn len(&self) -> usize
        ensures count { result ≡ length self.now.items }
        ensures first { self.now.first ≤ result }
    {
        self.first + self.kept.len()
    }

    /// Returns the number of the first that is kept.
    pub fn first(&self) -> usize
        ensures { result ≡ self.now.first }
    {
        self.first
    }

    /// Returns those that are kept, in order.
    #[tactic(auto, using(crate::proofs::RecentLaws::kept_rules))]
    pub fn kept(&self) -> &[Item<A>]
        ensures { result.now ≡ drop self.now.first self.now.items }
    {
        self.kept.as_slice()
    }

    /// Returns the item of this number, counted from 0 in the order in which they were put out.
    ///
    /// # Errors
    /// `NoSuch` where there is none.
    #[tactic(auto, using(crate::proofs::RecentLaws::finding_rules))]
    pub fn item_at(&self, number: u64) -> Result<&Item<A>, Fault>
        ensures item { IfOk result (λ item. slice_get self.now.items number ≡ Some item.now) }
        ensures cause { IfErr result (λ fault. fault ≡ Fault.NoSuch) }
        ensures none { OnErr result (slice_get self.now.items number ≡ None) }
    {
        if number < self.first as u64 {
            return Ok(&self.forgotten);
        }
        item_at(self.kept.as_slice(), number - self.first as u64)
    }

    /// Returns the number of the next item from this one on, and before another, that was not yet delivered and may
    /// still be heard at the moment `now`, in milliseconds.
    #[tactic(auto, using(crate::proofs::RecentLaws::waiting_rules))]
    pub fn next_waiting(&self, from: usize, before: usize, now: u64) -> Option<usize>
        ensures { IfSome result (λ number. Waits now from before self.now.items number) }
    {
        let first = self.first;
        let from = from.saturating_sub(first);
        let before = before.saturating_sub(first);
        match next_waiting(self.kept.as_slice(), from, before, now) {
            Some(place) => Some(first + place),
            None => None,
        }
    }

    /// Puts an item behind the others.
    ///
    /// # Errors
    /// Want of memory, or of numbers. All is then as it was.
    #[tactic(auto, using(crate::proofs::RecentLaws::pushing_rules))]
    pub fn push(&mut self, item: Item<A>) -> Result<(), AllocError>
        ensures pushed { OnOk result (self.new ≡ with_item item self.old) }
        ensures unchanged { OnErr result (self.new ≡ self.old) }
    {
        if self.first + self.kept.len() == usize::MAX {
            return Err(AllocError);
        }
        self.kept.push(item)?;
        Ok(())
    }

    /// Leaves the first so many.
    #[tactic(auto, using(crate::proofs::RecentLaws::cutting_rules))]
    pub fn truncate(&mut self, count: usize)
        ensures { self.new ≡ cut_items count self.old }
    {
        if count < self.first {
            self.first = count;
            self.kept.clear();
        } else {
            self.kept.truncate(count - self.first);
        }
    }

    /// The item of this number was delivered.
    #[tactic(auto, using(crate::proofs::RecentLaws::marking_rules))]
    pub fn mark(&mut self, number: u64)
        requires { number < length self.old.items }
        ensures { IsMarkedIn number self.old self.new }
    {
        let number = number as usize;
        if number >= self.first {
            self.kept[number - self.first].is_delivered = true;
        }
    }

    /// Forgets what is too old to be heard at the moment `now`, in milliseconds, but for the last so many, once that is
    /// half of what is kept, so that each item is moved once for each that was put out.
    #[tactic(auto, using(crate::proofs::RecentLaws::forgetting_rules))]
    pub fn forget(&mut self, latest: usize, now: u64)
        ensures keeps { KeepsRecent now self.old.items self.new.items }
        ensures count { length self.new.items ≡ length self.old.items }
        ensures first { self.old.first ≤ self.new.first }
        ensures kept { drop self.new.first self.new.items ≡ drop self.new.first self.old.items }
        ensures latest { self.new.first ≤ max self.old.first (length self.new.items - latest) }
    {
        let most = most_old(self.kept.as_slice(), latest, now);
        if most == 0 || most < self.kept.len() - most {
            return;
        }
        let old = old_count(self.kept.as_slice(), most, now);
        self.kept.rotate_left(old);
        self.kept.truncate(self.kept.len() - old);
        self.first += old;
    }

    /// Returns equal items, in memory of `alloc`.
    ///
    /// # Errors
    /// Want of memory.
    pub fn copy(&self, alloc: A) -> Result<Self, AllocError>
        ensures { IfOk result (λ copy. copy ≡ self.now) }
    {
        Ok(RecentItems {
            first: self.first,
            forgotten: self.forgotten.copy(alloc)?,
            kept: copies_of(alloc, self.kept.as_slice())?,
        })
    }
}
