//! What a station says, in parcels.

ghost use Rattle.std.specs.Prelude.{◌≡◌, ◌++◌, true, IfOk, IfErr, OnOk};
ghost use Rattle.std.specs.List.{flat_map};
ghost use Rattle.unitdata.specs.Saying.{announced, announcing_npdu, is_spelled, npdu_of, parcel_of, parcel_to};

use crate::saying::{begin, begin_global, is_spelled};
use apdu::Apdu;
use apdu::tags::{Fault, Items, Octets};
use npdu::{Mac, Parcel, Target, Way};
use std::alloc::Allocator;

/// What a station says: an APDU on its way.
pub trait Say {
    ghost use Rattle.std.specs.Prelude.{◌≡◌, ◌++◌, IfErr, OnOk};
    ghost use Rattle.unitdata.specs.Saying.{Spoken};

    ghost spoken: { Self → Spoken };

    /// Where it goes (6.5.2).
    fn way(&self) -> Way
        ensures { result ≡ (spoken self.now).way };

    /// Whether a reply is expected to it (6.2.2).
    fn expects_reply(&self) -> bool
        ensures { result ≡ (spoken self.now).expects_reply };

    /// Appends the octets of its APDU.
    ///
    /// # Errors
    /// `Memory` alone.
    fn write<B: Allocator>(&self, out: &mut Vec<u8, B>) -> Result<(), Fault>
        ensures written { OnOk result (out.new.items ≡ out.old.items ++ (spoken self.now).apdu) }
        ensures memory { IfErr result (λ fault. fault ≡ Fault.Memory) };
}

/// The octets of the NPDU of what is said, written into one buffer.
fn npdu_of<S: Say, A: Allocator + Copy>(alloc: A, said: &S) -> Result<Octets<A>, Fault>
    requires { is_spelled (S.spoken said.now).way.destination ≡ true }
    ensures npdu { IfOk result (λ octets. octets ≡ npdu_of (S.spoken said.now)) }
    ensures memory { IfErr result (λ fault. fault ≡ Fault.Memory) }
{
    let mut npdu = begin(alloc, said.expects_reply(), said.way().destination)?;
    said.write(&mut npdu)?;
    Ok(Octets::from_vec(npdu))
}

/// What is said from the address `mac` at the moment `now`, in a parcel.
fn parcel_to<S: Say, A: Allocator + Copy>(
    alloc: A,
    mac: Mac,
    now: u64,
    said: &S,
) -> Result<Parcel<A>, Fault>
    requires { is_spelled (S.spoken said.now).way.destination ≡ true }
    ensures parcel { IfOk result (λ parcel. parcel ≡ parcel_to now mac (S.spoken said.now)) }
    ensures memory { IfErr result (λ fault. fault ≡ Fault.Memory) }
{
    Ok(Parcel {
        from: mac,
        to: Target::One(said.way().to),
        npdu: npdu_of(alloc, said)?,
        stamp: now,
    })
}

/// Appends what is said from the address `mac` at the moment `now`, in milliseconds, in a parcel. Where DNET and DADR
/// can't name who it is for, nothing is appended (6.2.2).
///
/// # Errors
/// `Memory` alone.
pub fn push_parcel<S: Say, A: Allocator + Copy>(
    alloc: A,
    mac: Mac,
    now: u64,
    said: &S,
    parcels: &mut Items<Parcel<A>, A>,
) -> Result<(), Fault>
    ensures pushed { OnOk result (parcels.new ≡ parcels.old ++ parcel_of now mac (S.spoken said.now)) }
    ensures memory { IfErr result (λ fault. fault ≡ Fault.Memory) }
{
    if !is_spelled(said.way().destination) {
        return Ok(());
    }
    let parcel = parcel_to(alloc, mac, now, said)?;
    parcels.push(parcel)?;
    Ok(())
}

/// All that is said from the address `mac` at the moment `now`, in milliseconds, in parcels, in order.
///
/// # Errors
/// `Memory` alone.
pub fn parcels_of<S: Say, A: Allocator + Copy>(
    alloc: A,
    mac: Mac,
    now: u64,
    says: &[S],
) -> Result<Items<Parcel<A>, A>, Fault>
    ensures parcels { IfOk result (λ parcels. parcels ≡ flat_map (λ s. parcel_of now mac (S.spoken s)) says.now) }
    ensures memory { IfErr result (λ fault. fault ≡ Fault.Memory) }
{
    let mut parcels = Items::new(alloc);
    for said in says {
        push_parcel(alloc, mac, now, said, &mut parcels)?;
    }
    Ok(parcels)
}

/// The octets of the NPDU of an unconfirmed request to all stations of all networks.
#[tactic(auto, unfolding(crate::specs::Saying::announcing_npdu))]
fn announcing_npdu<A: Allocator + Copy>(
    alloc: A,
    service: u8,
    octets: &[u8],
) -> Result<Octets<A>, Fault>
    ensures npdu { IfOk result (λ npdu. npdu ≡ announcing_npdu service octets.now) }
    ensures memory { IfErr result (λ fault. fault ≡ Fault.Memory) }
{
    let apdu = Apdu::UnconfirmedRequest {
        service,
        data: octets,
    };
    let mut npdu = begin_global(alloc)?;
    apdu.write(&mut npdu)?;
    Ok(Octets::from_vec(npdu))
}

/// An unconfirmed request of this service with these octets, from the address `mac` at the moment `now`, in
/// milliseconds, to all stations of all networks, in a parcel (6.3.2, 16.10).
///
/// # Errors
/// `Memory` alone.
pub fn announced<A: Allocator + Copy>(
    alloc: A,
    mac: Mac,
    now: u64,
    service: u8,
    octets: &[u8],
) -> Result<Parcel<A>, Fault>
    ensures parcel { IfOk result (λ parcel. parcel ≡ announced now mac service octets.now) }
    ensures memory { IfErr result (λ fault. fault ≡ Fault.Memory) }
{
    Ok(Parcel {
        from: mac,
        to: Target::All,
        npdu: announcing_npdu(alloc, service, octets)?,
        stamp: now,
    })
}
