//! All that was put out is sent.

ghost use Rattle.std.specs.Prelude.{◌≡◌, ◌-◌, ◌<◌, true, false, IfErr, OnErr, OnOk, length};
ghost use Rattle.wire.specs.Counts.{IsRisen, raised};

use crate::seeking::item_at;
use simulator::Internetwork;
use std::alloc::Allocator;
use tags::Fault;
use wire::Wire;

/// Sends the item of a number. Tells whether it could be sent.
fn send_one<A: Allocator + Copy, W: Wire>(
    wire: &mut W,
    world: &Internetwork<A>,
    number: usize,
) -> bool
    requires there { number < length world.now.items }
    ensures sends { W.sends wire.new ≡ raised (W.sends wire.old) 1 }
    ensures recvs { W.recvs wire.new ≡ W.recvs wire.old }
    ensures latest { W.latest wire.new ≡ W.latest wire.old }
    ensures sound { result ≡ true → W.faults wire.new ≡ W.faults wire.old }
    ensures failed { result ≡ false → W.faults wire.new ≡ raised (W.faults wire.old) 1 }
{
    let item = item_at(world, number);
    wire.send(item.from, item.to, item.octets.as_slice())
        .is_ok()
}

/// Sends each item behind the first so many, all of them also where one fails.
///
/// # Errors
/// `Wire` where one failed.
#[tactic(auto, using(crate::proofs::SendingLaws::sending_rules))]
pub(crate) fn send_all<A: Allocator + Copy, W: Wire>(
    wire: &mut W,
    world: &Internetwork<A>,
    sent: usize,
) -> Result<(), Fault>
    ensures sends { W.sends wire.new ≡ raised (W.sends wire.old) (length world.now.items - sent) }
    ensures recvs { W.recvs wire.new ≡ W.recvs wire.old }
    ensures latest { W.latest wire.new ≡ W.latest wire.old }
    ensures sound { OnOk result (W.faults wire.new ≡ W.faults wire.old) }
    ensures failed { OnErr result (IsRisen (W.faults wire.old) (W.faults wire.new)) }
    ensures cause { IfErr result (λ fault. fault ≡ Fault.Wire) }
{
    // Counts are read where their range is to be known.
    let _counts = (wire.sends(), wire.faults());
    let mut failed = false;
    let mut number = sent;
    while number < world.item_count() {
        if !send_one(wire, world, number) {
            failed = true;
        }
        number += 1;
    }
    if failed { Err(Fault::Wire) } else { Ok(()) }
}
