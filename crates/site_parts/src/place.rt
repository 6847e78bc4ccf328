//! Where a station stands: on a network, or beyond all subnets of one.

use bvll::Address;
use npdu::Mac;
use profile::LinkKind;
use std::alloc::Allocator;
use tags::Octets;

/// Where a station stands on a network: a manager, a device, a client, or a port of a router (6.1).
#[derive(Clone, Copy, Debug, PartialEq, Eq)]
pub enum Link {
    /// On a subnet, 1 to 255, of a BACnet/IP network (J.1.2).
    Ip {
        network: u16,
        subnet: u8,
        address: Address,
    },
    /// On an MS/TP network, at a MAC address of a master node, 0 to 127 (9).
    Bus {
        network: u16,
        mac: u8,
    },
}

/// A place beyond all subnets of a BACnet/IP network: a foreign device, which registers at a broadcast manager (J.5).
#[derive(Drop)]
#[derive_where(PartialEq, Eq, Debug)]
pub struct Foreign<A: Allocator> {
    /// The network's number, where the site tells it: it is that of the manager.
    pub network: Option<u16>,
    /// The BACnet/IP address of the station itself.
    pub address: Address,
    /// The manager's name.
    pub manager: Octets<A>,
    /// For how many seconds it registers: 1 to 65535.
    pub seconds_to_live: u16,
}

/// Where a device or a client stands.
#[derive(Drop)]
#[derive_where(PartialEq, Eq, Debug)]
pub enum Place<A: Allocator> {
    /// On a network.
    On(Link),
    /// Beyond all subnets.
    Beyond(Foreign<A>),
}

impl Link {
    ghost use Rattle.std.specs.Prelude.{◌≡◌};
    ghost use Rattle.profile.specs.LinkKind.{max_apdu, max_npdu};
    ghost use Rattle.site_parts.specs.Places as spec;

    /// The number of the network.
    pub fn network(self) -> u16
        ensures { result ≡ spec.network_of self }
    {
        match self {
            Link::Ip { network, .. } | Link::Bus { network, .. } => network,
        }
    }

    /// The kind of link that the place is of.
    pub fn link_kind(self) -> LinkKind
        ensures { result ≡ spec.kind_of self }
    {
        match self {
            Link::Ip { .. } => LinkKind::BacnetIp,
            Link::Bus { .. } => LinkKind::MsTp,
        }
    }

    /// The longest APDU that goes there, in octets: 1476 on BACnet/IP, 480 on MS/TP (9, J).
    pub fn max_apdu(self) -> u16
        ensures { result ≡ max_apdu (spec.kind_of self) }
    {
        self.link_kind().max_apdu()
    }

    /// The longest NPDU that goes there, in octets: 1497 on BACnet/IP, 501 on MS/TP (9, J).
    pub fn max_npdu(self) -> u16
        ensures { result ≡ max_npdu (spec.kind_of self) }
    {
        self.link_kind().max_npdu()
    }

    /// The station's address on its own network: six octets of BACnet/IP, or one of MS/TP (Table 6-2).
    pub fn mac(self) -> Mac
        ensures { result ≡ spec.mac_of self }
    {
        match self {
            Link::Ip { address, .. } => Mac::Six(address.to_octets()),
            Link::Bus { mac, .. } => Mac::One(mac),
        }
    }

    /// The station of the internetwork that is there: its network's number, and its address on that (6.1).
    pub fn station(self) -> npdu::Station
        ensures { result ≡ spec.station_of self }
    {
        npdu::Station {
            net: self.network(),
            mac: self.mac(),
        }
    }
}

impl<A: Allocator> Place<A> {
    ghost use Rattle.std.specs.Prelude.{◌≡◌, option_copied};
    ghost use Rattle.site_parts.specs.Places as spec;

    /// The link, where the place is on a network, and none where it is beyond all subnets.
    pub fn links(&self) -> &[Link]
        ensures { result.now ≡ spec.links_at self.now }
    {
        match self {
            Place::On(link) => std::slice::from_ref(link),
            Place::Beyond(_) => &[],
        }
    }

    /// What the place is, where it is beyond all subnets.
    pub fn beyond(&self) -> Option<&Foreign<A>>
        ensures { option_copied result ≡ spec.beyond_at self.now }
    {
        match self {
            Place::On(_) => None,
            Place::Beyond(foreign) => Some(foreign),
        }
    }

    /// The kind of link that the place is of: BACnet/IP, where it is beyond all subnets.
    pub fn link_kind(&self) -> LinkKind
        ensures { result ≡ spec.kind_at self.now }
    {
        match self {
            Place::On(link) => link.link_kind(),
            Place::Beyond(_) => LinkKind::BacnetIp,
        }
    }
}
