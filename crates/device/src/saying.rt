//! What a device says, in parcels.

ghost use Rattle.std.specs.Prelude.{◌≡◌, ◌<◌, ◌^◌, IfOk, IfErr};
ghost use Rattle.device.specs.Saying.{i_am_parcel};
ghost use Rattle.device.specs.Saying as spec;

use apdu::{IAm, UnconfirmedService, write_i_am};
use npdu::{Mac, Parcel};
use server_tsm::{ServerPlan, WholeAnswer};
use std::alloc::Allocator;
use tags::{Fault, Items};
use unitdata::{announced, parcels_of, push_parcel};

/// All that a plan says from the address `mac` at the moment `now`, in parcels. A remembered answer that goes whole is
/// written from where it is remembered.
#[tactic(auto, using(crate::proofs::SayLaws::say_rules))]
pub(crate) fn said_parcels<A: Allocator + Copy>(
    alloc: A,
    mac: Mac,
    now: u64,
    plan: &ServerPlan<A>,
) -> Result<Items<Parcel<A>, A>, Fault>
    ensures parcels { IfOk result (λ parcels. parcels ≡ spec.parcels_of now mac plan.now.said) }
    ensures memory { IfErr result (λ fault. fault ≡ Fault.Memory) }
{
    let said = plan.said();
    let mut parcels = parcels_of(alloc, mac, now, said.listed)?;
    if let Some(entry) = said.whole {
        push_parcel(alloc, mac, now, &WholeAnswer { entry }, &mut parcels)?;
    }
    Ok(parcels)
}

/// The parcel of an I-Am from the address `mac` at the moment `now`.
pub(crate) fn i_am_parcel<A: Allocator + Copy>(
    alloc: A,
    mac: Mac,
    now: u64,
    i_am: &IAm,
) -> Result<Parcel<A>, Fault>
    requires { i_am.now.instance < 2 ^ 22 }
    ensures parcel { IfOk result (λ parcel. parcel ≡ i_am_parcel now mac i_am.now) }
    ensures memory { IfErr result (λ fault. fault ≡ Fault.Memory) }
{
    let mut octets = Vec::new(alloc);
    write_i_am(i_am, &mut octets)?;
    let service = u8::from(UnconfirmedService::IAm);
    announced(alloc, mac, now, service, octets.as_slice())
}
