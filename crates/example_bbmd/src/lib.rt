//! An example of a caller: a broadcast manager hears a datagram (`bbmd`).
#![tactic(auto)]

use bbmd::Bbmd;
use bvll::Address;
use profile::MAX_MOMENT_MS;
use std::alloc::Allocator;
use tags::Fault;

/// How many datagrams the manager says on hearing one from this address at the moment `now`, in milliseconds: none
/// where `now` is no moment, or one before the last.
///
/// # Errors
/// `TooLong` for an NPDU that is too long to be forwarded, or `Memory`.
pub fn heard<A: Allocator + Copy>(
    manager: &mut Bbmd<A>,
    from: Address,
    octets: &[u8],
    now: u64,
) -> Result<usize, Fault> {
    if now > MAX_MOMENT_MS || now < manager.moment() {
        return Ok(0);
    }
    let said = manager.on_datagram(from, octets, now)?;
    Ok(said.len())
}
