//! The longest APDU of each kind of link (9, J.1).

ghost use Rattle.std.specs.Prelude.{◌≡◌, ◌<◌};
ghost use Rattle.apdu.specs.Sizes.{apdu_code};
ghost use Rattle.unitdata.specs.Sizes.{longest_apdu};

use apdu::MaxApdu;
use profile::LinkKind;

/// What a station on this kind of link says of the longest APDU that it takes: 1476 octets on BACnet/IP, 480 on MS/TP
/// (9, J.1, 20.1.2.5).
pub fn longest_apdu(link: LinkKind) -> MaxApdu
    ensures size { result ≡ longest_apdu link }
    ensures code { apdu_code result < 16 }
{
    match link {
        LinkKind::BacnetIp => MaxApdu::UpTo1476,
        LinkKind::MsTp => MaxApdu::UpTo480,
    }
}
