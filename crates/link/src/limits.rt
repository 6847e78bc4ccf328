//! What a network carries, by the kind of its addresses.

ghost use Rattle.std.specs.Prelude.{◌≡◌};
ghost use Rattle.link.specs.Limits as spec;

use npdu::{Mac, Target};
use profile::LinkKind;

/// How many octets the NPDUs of a network with such an address have at most: 1497 on BACnet/IP, 501 on MS/TP (9, J).
pub fn max_npdu_at(mac: Mac) -> u16
    ensures { result ≡ spec.max_npdu_at mac }
{
    match mac {
        Mac::One(_) => LinkKind::MsTp.max_npdu(),
        Mac::Six(_) => LinkKind::BacnetIp.max_npdu(),
    }
}

/// Whether a target is one on a network with such an address: all, or an address of its kind; master nodes of MS/TP
/// are 0 to 127 (Table 6-2, 9.1).
pub fn is_target(mac: Mac, to: Target) -> bool
    ensures { result ≡ spec.is_target mac to }
{
    match (mac, to) {
        (_, Target::All) | (Mac::Six(_), Target::One(Mac::Six(_))) => true,
        (Mac::One(_), Target::One(Mac::One(octet))) => octet < 128,
        (Mac::One(_), Target::One(Mac::Six(_))) | (Mac::Six(_), Target::One(Mac::One(_))) => false,
    }
}
