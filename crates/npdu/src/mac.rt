//! Link addresses, and the stations and targets that they name.

ghost use Rattle.std.specs.Prelude.{◌≡◌, ◌≢◌, ◌⊎◌, IfSome, IfNone, length};
ghost use Rattle.npdu.specs.Mac.{is_address, mac_octets, mac_of};

/// The address of a station on its own network: one octet on MS/TP, six on BACnet/IP (Table 6-2).
#[derive(Clone, Copy, Debug, PartialEq, Eq, PartialOrd, Ord)]
pub enum Mac {
    /// The address of an MS/TP node.
    One(u8),
    /// Four octets of an IP address and two of its port.
    Six([u8; 6]),
}

// The count of an array is known to a contract where the array is a parameter.
fn six_octets(octets: &[u8; 6]) -> &[u8]
    ensures octets { result.now ≡ octets.now }
    ensures count { length result.now ≡ 6 }
{
    octets.as_slice()
}

impl Mac {
    /// The address whose octets these are: one octet or six, and no other count.
    #[tactic(auto, using(crate::proofs::Stations::mac_rules))]
    pub fn from_octets(octets: &[u8]) -> Option<Mac>
        ensures is { result ≡ mac_of octets.now }
        ensures octets { IfSome result (λ mac. mac_octets mac ≡ octets.now) }
        ensures other { IfNone result ((length octets.now ≢ 1) × (length octets.now ≢ 6)) }
    {
        match octets {
            [a] => Some(Mac::One(*a)),
            [a, b, c, d, e, f] => Some(Mac::Six([*a, *b, *c, *d, *e, *f])),
            _ => None,
        }
    }

    /// The octets of the address, as they stand in DADR and SADR: one or six.
    pub fn as_octets(&self) -> &[u8]
        ensures octets { result.now ≡ mac_octets self.now }
        ensures count { (length result.now ≡ 1) ⊎ (length result.now ≡ 6) }
    {
        match self {
            Mac::One(octet) => std::slice::from_ref(octet),
            Mac::Six(octets) => six_octets(octets),
        }
    }

    /// Whether it has one octet or six, as each has: a contract sees it by this.
    pub fn is_address(&self) -> bool
        ensures { result ≡ is_address self.now }
    {
        match self {
            Mac::One(_) => true,
            Mac::Six(octets) => six_octets(octets).len() == 6,
        }
    }
}

/// A station of the internetwork: its network's number, 1..=65534, and its address there.
#[derive(Clone, Copy, Debug, PartialEq, Eq, PartialOrd, Ord)]
pub struct Station {
    pub net: u16,
    pub mac: Mac,
}

/// Whom a message on one network is for.
#[derive(Clone, Copy, Debug, PartialEq, Eq)]
pub enum Target {
    /// The station of this address.
    One(Mac),
    /// All stations of the network.
    All,
}

/// Where an answer goes (5.4.5, 6.5.2).
#[derive(Clone, Copy, Debug, PartialEq, Eq)]
pub struct Way {
    /// The station on this network that it is handed to: the asker itself, or a router towards it.
    pub to: Mac,
    /// The asker, where it is on another network: DNET and DADR name it then.
    pub destination: Option<Station>,
}
