//! The addresses of BACnet/IP in the system's form (J.1.2).

ghost use Rattle.std.specs.Prelude.{◌≡◌, Some, IfSome};
ghost use Rattle.std.specs.Option.{option_map};
ghost use Rattle.wire.specs.Ends.{IsEnd, address_of, mac_at};

use bvll::Address;
use npdu::Mac;
use std::net::{Ipv4Addr, SocketAddr, SocketAddrV4};

/// An address in the system's form.
pub(crate) fn system_address(address: Address) -> SocketAddr
    ensures { address_of result ≡ Some address }
{
    let [a, b, c, d] = address.ip;
    SocketAddr::V4(SocketAddrV4::new(Ipv4Addr::new(a, b, c, d), address.port))
}

/// The link address of a sender, unless it is one of IPv6.
pub(crate) fn mac_of(sender: SocketAddr) -> Option<Mac>
    ensures { result ≡ option_map mac_at (address_of sender) }
{
    match sender {
        SocketAddr::V4(sender) => {
            let address = Address {
                ip: sender.ip().octets(),
                port: sender.port(),
            };
            Some(Mac::Six(address.to_octets()))
        }
        SocketAddr::V6(_) => None,
    }
}

/// A station's address in the system's form, unless it is one of a bus.
pub(crate) fn end_of(station: Mac) -> Option<SocketAddr>
    ensures { IfSome result (IsEnd station) }
{
    match station {
        Mac::Six(octets) => Some(system_address(Address::from_octets(&octets))),
        Mac::One(_) => None,
    }
}
