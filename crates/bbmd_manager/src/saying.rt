//! A datagram to each of several addressees.

ghost use Rattle.std.specs.Prelude.{◌≡◌, ◌<◌, ◌^◌, ◌⊎◌, true, false, ◌&&◌, nat_lt, length, IfOk, IfErr, OnOk};
ghost use Rattle.bvll.specs.Datagram.{datagram_of, forwarded, whole_length};
ghost use Rattle.bbmd_manager.specs.Manager.{is_over_long, sent_to};

use bvll::{Address, Bvll};
use profile::LinkKind;
use std::alloc::Allocator;
use tags::{Fault, Items, Octets};

/// The octets of a datagram that goes out, and whom they go to.
#[derive(Drop)]
pub struct Outgoing<A: Allocator> {
    pub to: Address,
    pub octets: Octets<A>,
}

/// The datagram to each of these, in order.
///
/// # Errors
/// `Memory` alone.
pub(crate) fn say_to<A: Allocator + Copy>(
    alloc: A,
    to: &[Address],
    what: &Bvll<'_>,
) -> Result<Items<Outgoing<A>, A>, Fault>
    requires { whole_length (datagram_of what.now) < 2 ^ 16 }
    ensures said { IfOk result (λ all. all ≡ sent_to to.now (datagram_of what.now)) }
    ensures memory { IfErr result (λ e. e ≡ Fault.Memory) }
{
    let mut octets = Vec::new(alloc);
    what.write(&mut octets)?;
    let mut all = Items::new(alloc);
    for address in to {
        let octets = Items::from_slice(alloc, octets.as_slice())?;
        all.push(Outgoing {
            to: *address,
            octets,
        })?;
    }
    Ok(all)
}

/// A forwarded NPDU to each of these, in order (J.2.5).
///
/// # Errors
/// `TooLong` for an NPDU that is longer than one may be on BACnet/IP, where it would go to somebody, `Memory`.
pub(crate) fn forward<A: Allocator + Copy>(
    alloc: A,
    to: &[Address],
    origin: Address,
    npdu: &[u8],
) -> Result<Items<Outgoing<A>, A>, Fault>
    ensures said { IfOk result (λ all. all ≡ sent_to to.now (forwarded origin npdu.now)) }
    ensures fits { OnOk result ((is_over_long npdu.now && nat_lt 0 (length to.now)) ≡ false) }
    ensures cause { IfErr result (λ e. (e ≡ Fault.Memory) ⊎
        ((e ≡ Fault.TooLong) × ((is_over_long npdu.now && nat_lt 0 (length to.now)) ≡ true))) }
{
    if to.is_empty() {
        return Ok(Items::new(alloc));
    }
    if npdu.len() > usize::from(LinkKind::BacnetIp.max_npdu()) {
        return Err(Fault::TooLong);
    }
    say_to(alloc, to, &Bvll::ForwardedNpdu { origin, npdu })
}
