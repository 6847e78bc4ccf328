//! A device hears a request in segments (ANSI/ASHRAE 135, clause 5.4.5.2).

use crate::answering::FROM;
use crate::opened::{OWN, device};
use apdu::{Apdu, ConfirmedService, MaxApdu, MaxSegments, Segment};
use npdu::{Parcel, Target};
use std::alloc::Allocator;
use tags::{Fault, Octets};

/// The NPDU of one segment of a WritePropertyMultiple, which more segments follow.
fn segment_npdu<A: Allocator + Copy>(
    alloc: A,
    number: u8,
    octets: &[u8],
) -> Result<Octets<A>, Fault> {
    let apdu = Apdu::ConfirmedRequest {
        segment: Some(Segment {
            more_follows: true,
            sequence_number: number,
            window: 4,
        }),
        segmented_response_accepted: true,
        max_segments: MaxSegments::SixtyFour,
        max_apdu: MaxApdu::UpTo1476,
        invoke_id: 1,
        service: u8::from(ConfirmedService::WritePropertyMultiple),
        data: octets,
    };
    let mut npdu = Vec::from_slice(alloc, &[1, 4])?;
    apdu.write(&mut npdu)?;
    Ok(Octets::from_vec(npdu))
}

/// A device hears the first `segments` of a request, each with these octets and more to follow, at one moment: how many
/// parcels it says.
///
/// # Errors
/// `Memory`.
pub fn gather<A: Allocator + Copy>(alloc: A, segments: u8, octets: &[u8]) -> Result<u64, Fault> {
    let mut device = device(alloc, 1)?;
    let mut said = 0u64;
    for number in 0..segments {
        let parcel = Parcel {
            from: FROM,
            to: Target::One(OWN),
            npdu: segment_npdu(alloc, number, octets)?,
            stamp: 0,
        };
        if device.moment() > 0 {
            return Ok(said);
        }
        let told = device.on_parcel(&parcel, 0)?;
        said = said.saturating_add(told.said.len() as u64);
    }
    Ok(said)
}
