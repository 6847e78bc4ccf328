//! Addresses, as `127.0.0.1:47808`.

use bvll::Address;
use std::net::SocketAddrV4;

/// The address that a text says: four octets and a port, all without leading zeros (J.1.2).
pub fn address_of(text: &str) -> Option<Address> {
    let Ok(address) = text.parse::<SocketAddrV4>() else {
        return None;
    };
    let (_, port) = text.split_once(':')?;
    if port.len() > 1 && port.starts_with('0') {
        return None;
    }
    Some(Address {
        ip: address.ip().octets(),
        port: address.port(),
    })
}
