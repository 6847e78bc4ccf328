//! Which item a datagram is.

ghost use Rattle.std.specs.Prelude.{◌≡◌, ◌<◌, ◌↔◌, true, Some, IfSome, IfNone, IsTrue, length, slice_get, take};
ghost use Rattle.runner.specs.Seeking as spec;
ghost use Rattle.runner.specs.Seeking.{AreLate, IsLastMatch, IsMatch, IsStray};
ghost use Rattle.traffic.specs.declared.item.Item.{Item};
ghost use Rattle.wire.specs.Datagrams.{datagram_of};

use profile::is_heard_in_time;
use simulator::Internetwork;
use std::alloc::Allocator;
use traffic::Item;
use wire::Got;

/// Whether an item is this datagram, and may be heard at the moment `now`, in milliseconds.
fn is_match<A: Allocator>(item: &Item<A>, got: &Got<'_>, now: u64) -> bool
    ensures { IsTrue result ↔ IsMatch now (datagram_of got.now) item.now }
{
    item.from == got.from
        && item.to == got.to
        && item.octets.as_slice() == got.octets
        && is_heard_in_time(item.stamp, now)
}

/// The item of a number.
#[tactic(auto, using(crate::proofs::SeekingLaws::finding_rules))]
pub(crate) fn item_at<A: Allocator + Copy>(world: &Internetwork<A>, number: usize) -> &Item<A>
    requires { number < length world.now.items }
    ensures { slice_get world.now.items number ≡ Some result.now }
{
    world.item_at(number).unwrap()
}

/// Whether an item was put out at most 1000 ms before the moment `now`, in milliseconds.
fn is_recent<A: Allocator>(item: &Item<A>, now: u64) -> bool
    ensures { result ≡ spec.is_recent now item.now }
{
    is_heard_in_time(item.put_out, now)
}

/// Whether nothing was put out before the item of a number, or what was put out last before it is heard no more, nor
/// sought: it was put out more than 1000 ms ago.
#[tactic(auto, using(crate::proofs::SeekingLaws::late_rules))]
pub(crate) fn are_late_before<A: Allocator + Copy>(world: &Internetwork<A>, number: usize) -> bool
    ensures { result ≡ true → AreLate world.now.moment (take number world.now.items) }
{
    if number == 0 {
        return true;
    }
    if number > world.item_count() {
        return false;
    }
    !is_recent(item_at(world, number - 1), world.moment())
}

/// The number of the item that a datagram is: the last one with these ends and octets that may still be heard. It is
/// sought among those alone that were put out at most 1000 ms ago.
#[tactic(auto, using(crate::proofs::SeekingLaws::match_rules))]
pub(crate) fn last_match<A: Allocator + Copy>(
    world: &Internetwork<A>,
    got: &Got<'_>,
) -> Option<usize>
    ensures is { IfSome result (IsLastMatch world.now.moment (datagram_of got.now) world.now.items) }
    ensures stray { IfNone result (IsStray world.now.moment (datagram_of got.now) world.now.items) }
{
    let now = world.moment();
    let mut number = world.item_count();
    while number > 0 {
        number -= 1;
        let item = item_at(world, number);
        if !is_recent(item, now) {
            return None;
        }
        if is_match(item, got, now) {
            return Some(number);
        }
    }
    None
}
