//! What is inside a datagram or a frame: who says it, whom it is for, and the octets of its APDU (6.2, 9.3, J.2).

use bvll::Bvll;
use mstp_frame::{Frame, FrameType};
use npdu::{Destination as NpduDestination, Dnet, Mac, Source, Station, View};

/// The destination of a frame that is for all of the bus (9.3).
const ALL_NODES: u8 = 255;

/// Whom a message is for (6.3).
#[derive(Clone, Copy, Debug, PartialEq, Eq)]
pub enum Destination {
    /// A station.
    Station(Station),
    /// All stations of the network of this number.
    Network(u16),
    /// All stations of all networks.
    All,
}

/// What an application entity says.
#[derive(Clone, Copy, Debug, PartialEq, Eq)]
pub struct Message<'a> {
    pub source: Station,
    pub destination: Destination,
    pub apdu: &'a [u8],
    /// The moment at which it was said, in milliseconds.
    pub stamp: u64,
}

/// What was put out on a network, with the stamp of what is in it.
#[derive(Clone, Copy, Debug, PartialEq, Eq)]
pub enum Sent<'a> {
    /// A datagram on a network of BACnet/IP (J.2).
    Datagram {
        network: u16,
        from: Mac,
        to: Mac,
        octets: &'a [u8],
        stamp: u64,
    },
    /// A frame on a bus of MS/TP (9.3).
    Frame {
        network: u16,
        octets: &'a [u8],
        stamp: u64,
    },
}

/// An NPDU on one network, with its ends there.
#[derive(Clone, Copy)]
struct Linked<'a> {
    network: u16,
    from: Mac,
    to: LinkTarget,
    npdu: &'a [u8],
}

/// Whom an NPDU is for on its network.
#[derive(Clone, Copy)]
enum LinkTarget {
    One(Mac),
    All,
}

/// What is inside what was put out, if anything is: the message of its one NPDU, unless it is one of the network layer.
pub fn message_in<'a>(sent: &Sent<'a>) -> Option<Message<'a>> {
    match *sent {
        Sent::Datagram {
            network,
            from,
            to,
            octets,
            stamp,
        } => message_of(datagram_npdu(network, from, to, octets)?, stamp),
        Sent::Frame {
            network,
            octets,
            stamp,
        } => message_of(frame_npdu(network, octets)?, stamp),
    }
}

/// The NPDU of a datagram (J.2.5, J.2.10 to J.2.12). A Forwarded-NPDU comes from its origin.
fn datagram_npdu<'a>(network: u16, from: Mac, to: Mac, octets: &'a [u8]) -> Option<Linked<'a>> {
    let Ok(datagram) = Bvll::read(octets) else {
        return None;
    };
    let (from, to, npdu) = match datagram {
        Bvll::OriginalUnicastNpdu(npdu) => (from, LinkTarget::One(to), npdu),
        Bvll::OriginalBroadcastNpdu(npdu) | Bvll::DistributeBroadcastToNetwork(npdu) => (
            from,
            LinkTarget::All,
            npdu,
        ),
        Bvll::ForwardedNpdu { origin, npdu } => (
            Mac::Six(origin.to_octets()),
            LinkTarget::All,
            npdu,
        ),
        Bvll::Result(_)
        | Bvll::WriteBroadcastDistributionTable(_)
        | Bvll::ReadBroadcastDistributionTable
        | Bvll::ReadBroadcastDistributionTableAck(_)
        | Bvll::RegisterForeignDevice { .. }
        | Bvll::ReadForeignDeviceTable
        | Bvll::ReadForeignDeviceTableAck(_)
        | Bvll::DeleteForeignDeviceTableEntry(_) => return None,
    };
    Some(Linked {
        network,
        from,
        to,
        npdu,
    })
}

/// The NPDU of a frame: of one with data (9.3.6, 9.3.7).
fn frame_npdu<'a>(network: u16, octets: &'a [u8]) -> Option<Linked<'a>> {
    let frame = Frame::read(octets)?;
    match frame.frame_type {
        FrameType::BacnetDataExpectingReply | FrameType::BacnetDataNotExpectingReply => Some(
            Linked {
                network,
                from: Mac::One(frame.source),
                to: node_target(frame.destination),
                npdu: frame.data,
            },
        ),
        FrameType::Token
        | FrameType::PollForMaster
        | FrameType::ReplyToPollForMaster
        | FrameType::TestRequest
        | FrameType::TestResponse
        | FrameType::ReplyPostponed
        | FrameType::Other(_) => None,
    }
}

/// Whom a frame to a node is for.
fn node_target(node: u8) -> LinkTarget {
    if node == ALL_NODES {
        LinkTarget::All
    } else {
        LinkTarget::One(Mac::One(node))
    }
}

/// The message of an NPDU: SNET and SADR are its source where they stand there, and DNET and DADR its destination
/// (6.2.2).
fn message_of<'a>(linked: Linked<'a>, stamp: u64) -> Option<Message<'a>> {
    let Ok(view) = View::read(linked.npdu) else {
        return None;
    };
    if view.message.is_some() {
        return None;
    }
    Some(Message {
        source: source_of(&linked, view.source)?,
        destination: destination_of(&linked, view.destination)?,
        apdu: view.body,
        stamp,
    })
}

/// The station that says a message.
fn source_of(linked: &Linked<'_>, source: Option<Source<'_>>) -> Option<Station> {
    let Some(source) = source else {
        return Some(Station {
            net: linked.network,
            mac: linked.from,
        });
    };
    station_at(source.net, source.mac)
}

/// Whom a message is for. DNET FFFF is all networks, and no octet of DADR all stations of the network.
fn destination_of(
    linked: &Linked<'_>,
    destination: Option<NpduDestination<'_>>,
) -> Option<Destination> {
    let Some(destination) = destination else {
        return Some(match linked.to {
            LinkTarget::One(mac) => Destination::Station(Station {
                net: linked.network,
                mac,
            }),
            LinkTarget::All => Destination::Network(linked.network),
        });
    };
    match destination.net {
        Dnet::Global => Some(Destination::All),
        Dnet::Network(network) if destination.mac.is_empty() => Some(Destination::Network(network)),
        Dnet::Network(network) => Some(Destination::Station(station_at(network, destination.mac)?)),
    }
}

/// The station of a network at an address of one octet or six.
fn station_at(net: u16, address: &[u8]) -> Option<Station> {
    match address {
        [a] => Some(Station {
            net,
            mac: Mac::One(*a),
        }),
        [a, b, c, d, e, f] => Some(Station {
            net,
            mac: Mac::Six([*a, *b, *c, *d, *e, *f]),
        }),
        _ => None,
    }
}
