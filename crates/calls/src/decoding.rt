//! Decoding a datagram, down to its request.

use apdu::Apdu;
use bvll::Bvll;
use npdu::View;
use services::decode_request;
use std::alloc::Allocator;

/// Where the invoke ID of a datagram lies whose NPDU has neither DNET nor SNET.
pub(crate) const INVOKE_ID: usize = 8;

/// A number that depends on the request of a datagram, 0 where it has none.
fn decode_one<A: Allocator + Copy>(alloc: A, datagram: &[u8]) -> u64 {
    let Ok(Bvll::OriginalUnicastNpdu(npdu)) = Bvll::read(datagram) else {
        return 0;
    };
    let Ok(view) = View::read(npdu) else {
        return 0;
    };
    let Ok(
        Apdu::ConfirmedRequest {
            invoke_id,
            service,
            data,
            ..
        },
    ) = Apdu::read(view.body)
    else {
        return 0;
    };
    match decode_request(alloc, service, data) {
        Ok(Ok(_)) => u64::from(invoke_id).saturating_add(1),
        _ => 0,
    }
}

/// Decodes a datagram so many times, each time with another invoke ID, and answers the sum of them, each one higher.
pub fn decode<A: Allocator + Copy>(alloc: A, datagram: &mut [u8], times: u64) -> u64 {
    let mut sum = 0u64;
    for turn in 0..times {
        if let Some(octet) = datagram.get_mut(INVOKE_ID) {
            *octet = (turn % 256) as u8;
        }
        sum = sum.saturating_add(decode_one(alloc, datagram));
    }
    sum
}
