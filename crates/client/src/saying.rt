//! What a client says to all, in a parcel.

ghost use Rattle.std.specs.Prelude.{◌≡◌, IfOk, IfErr};
ghost use Rattle.client.specs.Saying.{who_is_parcel};

use apdu::{Limits, UnconfirmedService, WhoIs, write_who_is};
use npdu::{Mac, Parcel};
use std::alloc::Allocator;
use tags::Fault;
use unitdata::announced;

/// The parcel of a Who-Is from the address `mac` at the moment `now`.
pub(crate) fn who_is_parcel<A: Allocator + Copy>(
    alloc: A,
    mac: Mac,
    now: u64,
    limits: Option<Limits>,
) -> Result<Parcel<A>, Fault>
    ensures parcel { IfOk result (λ parcel. parcel ≡ who_is_parcel now mac limits) }
    ensures memory { IfErr result (λ fault. fault ≡ Fault.Memory) }
{
    let mut octets = Vec::new(alloc);
    write_who_is(&WhoIs { limits }, &mut octets)?;
    let service = u8::from(UnconfirmedService::WhoIs);
    announced(alloc, mac, now, service, octets.as_slice())
}
