//! The addresses of BACnet/IP.

use byteorder::{BigEndian, ByteOrder};

/// The octets of an address.
pub const ADDRESS_OCTETS: usize = 6;

/// An address of BACnet/IP: four octets of the Internet address, and a port of UDP (J.1.2).
#[derive(Clone, Copy, Debug, PartialEq, Eq)]
pub struct Address {
    pub ip: [u8; 4],
    pub port: u16,
}

impl Address {
    ghost use Rattle.std.specs.Prelude.{◌≡◌, ◌≤◌, length};
    ghost use Rattle.bvll.specs.Address.{address_at, address_octets, IsAddress};

    /// The address in the first six octets.
    pub fn from_octets(octets: &[u8]) -> Address
        requires { 6 ≤ length octets.now }
        ensures { result ≡ address_at octets.now }
    {
        Address {
            ip: [octets[0], octets[1], octets[2], octets[3]],
            port: BigEndian::read_u16(&octets[4..]),
        }
    }

    /// The six octets that spell the address.
    pub fn to_octets(&self) -> [u8; ADDRESS_OCTETS]
        ensures octets { result ≡ address_octets self.now }
        ensures fields { IsAddress self.now }
    {
        let [a, b, c, d] = self.ip;
        let [high, low] = self.port.to_be_bytes();
        [a, b, c, d, high, low]
    }
}
