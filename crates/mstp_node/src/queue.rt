//! What waits for the token.

ghost use Rattle.std.specs.Prelude.{◌≡◌, ◌∷◌, [], IfOk, IfSome, IfNone, Some, None};
ghost use Rattle.mstp_table.specs.Node as spec;

use mstp_table::Waiting;
use npdu::{Mac, Target};
use profile::is_heard_in_time;
use std::alloc::{AllocError, Allocator};

/// The destination that is all nodes of a bus (9.3).
pub(crate) const ALL_NODES: u8 = 255;

/// The destination of a target on a bus: an address of one octet, or all (9.3).
pub(crate) fn destination_of(to: Target) -> u8
    ensures { result ≡ spec.destination_of to }
{
    match to {
        Target::One(Mac::One(address)) => address,
        Target::One(Mac::Six(_)) | Target::All => ALL_NODES,
    }
}

/// Whether it is for all.
pub(crate) fn is_broadcast<A: Allocator>(waiting: &Waiting<A>) -> bool
    ensures { result ≡ spec.is_broadcast waiting.now }
{
    waiting.destination == ALL_NODES
}

/// Whether it is for the node of this address alone.
fn is_to<A: Allocator>(address: u8, waiting: &Waiting<A>) -> bool
    ensures { result ≡ spec.is_to address waiting.now }
{
    !is_broadcast(waiting) && waiting.destination == address
}

/// Whether bit 2 of the control octet is set, the second of an NPDU (6.2.2).
pub(crate) fn expects_reply(npdu: &[u8]) -> bool
    ensures { result ≡ spec.expects_reply npdu.now }
{
    npdu.len() > 1 && (npdu[1] >> 2) & 1 == 1
}

/// Drops what is older than 1000 ms.
pub(crate) fn keep_young<A: Allocator>(queue: &mut Vec<Waiting<A>, A>, now: u64)
    ensures { queue.new.items ≡ spec.young queue.old.items now }
{
    queue.retain(|waiting| is_heard_in_time(waiting.stamp, now));
}

/// Takes out the first.
pub(crate) fn take_first<A: Allocator>(queue: &mut Vec<Waiting<A>, A>) -> Option<Waiting<A>>
    ensures some { IfSome result (λ w. queue.old.items ≡ w ∷ queue.new.items) }
    ensures none { IfNone result ((queue.old.items ≡ []) × (queue.new.items ≡ [])) }
{
    if queue.is_empty() {
        return None;
    }
    Some(queue.remove(0))
}

/// Takes out the first that is for the node of this address.
pub(crate) fn take_first_to<A: Allocator>(
    queue: &mut Vec<Waiting<A>, A>,
    address: u8,
) -> Option<Waiting<A>>
    ensures some { IfSome result (λ w. spec.first_to address queue.old.items
        ≡ Some (record { picked = w; rest = queue.new.items })) }
    ensures none { IfNone result ((spec.first_to address queue.old.items ≡ None)
        × (queue.new.items ≡ queue.old.items)) }
{
    for place in 0..queue.len() {
        if is_to(address, &queue[place]) {
            return Some(queue.remove(place));
        }
    }
    None
}

/// Equal ones, in memory of `alloc`.
pub(crate) fn copied<A: Allocator + Copy>(
    alloc: A,
    queue: &[Waiting<A>],
) -> Result<Vec<Waiting<A>, A>, AllocError>
    ensures { IfOk result (λ all. all.items ≡ queue.now) }
{
    let mut all = Vec::new(alloc);
    for waiting in queue {
        all.push(Waiting {
            destination: waiting.destination,
            npdu: waiting.npdu.copy(alloc)?,
            stamp: waiting.stamp,
        })?;
    }
    Ok(all)
}
