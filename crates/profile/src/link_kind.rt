//! The kinds of link, and how long a message may be there (clauses 9 and J).

ghost use Rattle.std.specs.Prelude.{◌≡◌};
ghost use Rattle.profile.specs.LinkKind as spec;

use crate::limits::MAX_FRAME_DATA_OCTETS;

/// What a network's messages go over.
#[derive(Clone, Copy, Debug, PartialEq, Eq)]
pub enum LinkKind {
    /// BACnet/IP (Annex J), where a link address has six octets.
    BacnetIp,
    /// MS/TP (clause 9), where a link address has one octet.
    MsTp,
}

impl LinkKind {
    ghost use Rattle.std.specs.Prelude.{◌≡◌};
    ghost use Rattle.profile.specs.LinkKind as spec;

    /// The longest APDU that a station on this kind of link takes, in octets (clauses 9 and J).
    pub fn max_apdu(self) -> u16
        ensures { result ≡ spec.max_apdu self }
    {
        match self {
            LinkKind::BacnetIp => 1476,
            LinkKind::MsTp => 480,
        }
    }

    /// The longest NPDU on this kind of link, in octets (clauses 9 and J).
    pub fn max_npdu(self) -> u16
        ensures { result ≡ spec.max_npdu self }
    {
        match self {
            LinkKind::BacnetIp => 1497,
            LinkKind::MsTp => MAX_FRAME_DATA_OCTETS as u16,
        }
    }
}
