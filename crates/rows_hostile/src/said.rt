//! What is said: it is read again, whatever was heard.

use apdu::Apdu;
use bvll::Bvll;
use npdu::View;
use sheets::{Stop, differs};
use std::alloc::Global;

/// Whether octets are an NPDU whose header and APDU can be read (6.2, 20.1).
fn is_npdu(octets: &[u8]) -> bool {
    match View::read(octets) {
        Ok(view) => view.message.is_some() || Apdu::read(view.body).is_ok(),
        Err(_) => false,
    }
}

/// Whether octets are a datagram of BACnet/IP, and what it carries an NPDU (J.2).
fn is_datagram(octets: &[u8]) -> bool {
    match Bvll::read(octets) {
        Ok(
            Bvll::ForwardedNpdu { npdu, .. }
            | Bvll::DistributeBroadcastToNetwork(npdu)
            | Bvll::OriginalUnicastNpdu(npdu)
            | Bvll::OriginalBroadcastNpdu(npdu),
        ) => is_npdu(npdu),
        Ok(_) => true,
        Err(_) => false,
    }
}

/// A datagram that a device says.
///
/// # Errors
/// `Differs` for octets that are none.
pub(crate) fn check_datagram(alloc: Global, octets: &[u8]) -> Result<(), Stop> {
    if is_datagram(octets) {
        return Ok(());
    }
    Err(differs(alloc, "a device that says what is no datagram"))
}
