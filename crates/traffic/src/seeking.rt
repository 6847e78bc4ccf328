//! Which item is meant, and which is to be delivered next.

ghost use Rattle.std.specs.Prelude.{◌≡◌, ◌≤◌, Some, None, true, false, IfOk, IfErr, IfSome, OnOk, OnErr, length};
ghost use Rattle.std.specs.Prelude.{slice_get};
ghost use Rattle.traffic.specs.Seeking.{Waits, is_young};

use crate::item::Item;
use profile::{LIFE_MS, is_heard_in_time};
use std::alloc::Allocator;
use tags::Fault;

/// The item of this number, counted from 0 in the order in which they were put out.
///
/// # Errors
/// `NoSuch` where there is none.
pub(crate) fn item_at<A: Allocator>(items: &[Item<A>], number: u64) -> Result<&Item<A>, Fault>
    ensures item { IfOk result (λ item. slice_get items.now number ≡ Some item.now) }
    ensures cause { IfErr result (λ fault. fault ≡ Fault.NoSuch) }
    ensures none { OnErr result (slice_get items.now number ≡ None) }
{
    match items.get(number as usize) {
        Some(item) => Ok(item),
        None => Err(Fault::NoSuch),
    }
}

/// Whether an item may be heard at the moment `now`, in milliseconds: at most 1000 after it was said.
///
/// # Errors
/// `Expired` where it is older.
pub fn in_time<A: Allocator>(item: &Item<A>, now: u64) -> Result<(), Fault>
    ensures young { OnOk result (is_young now item.now ≡ true) }
    ensures cause { IfErr result (λ fault. fault ≡ Fault.Expired) }
    ensures old { OnErr result (is_young now item.now ≡ false) }
{
    if is_heard_in_time(item.stamp, now) {
        Ok(())
    } else {
        Err(Fault::Expired)
    }
}

/// The number of the first item that was put out at most so long ago that it may still be heard at the moment `now`:
/// items stand in the order in which they were put out.
pub(crate) fn first_young<A: Allocator>(items: &[Item<A>], now: u64) -> usize
    ensures bound { result ≤ length items.now }
{
    items.partition_point(|item| now.saturating_sub(item.put_out) > LIFE_MS)
}

/// The number of the next item from this one on, and before another, that was not yet delivered and may still be heard
/// at the moment `now`, in milliseconds.
pub fn next_waiting<A: Allocator>(
    items: &[Item<A>],
    from: usize,
    before: usize,
    now: u64,
) -> Option<usize>
    ensures waits { IfSome result (λ number. Waits now from before items.now number) }
{
    let first = first_young(items, now);
    let mut number = if from < first { first } else { from };
    while number < before && number < items.len() {
        if !items[number].is_delivered && is_heard_in_time(items[number].stamp, now) {
            return Some(number);
        }
        number += 1;
    }
    None
}
