//! Between whom a packet is.

use bvll::Bvll;
use captures::{Carried, Datagram, Packet};
use diagnosis_parts::{LinkAddress, Party};
use mstp_frame::{Frame, FrameType};
use npdu::View;

/// The address that stands for all nodes of a bus (9.1.2).
const ALL_NODES: u8 = 255;

/// Between whom a packet is.
#[derive(Clone, Copy)]
pub struct Ends<'a> {
    /// Who says what it carries; of a broadcast that a manager forwards, whoever said it first.
    pub sender: Party,
    /// Whom it is for; `None` where it is for several.
    pub receiver: Option<Party>,
    /// The APDU that it carries.
    pub apdu: Option<&'a [u8]>,
}

/// Between whom a packet is; `None` of what isn't read.
pub fn ends_of<'a>(packet: &Packet<'a>) -> Option<Ends<'a>> {
    match packet.carried {
        Carried::Datagram(datagram) => ends_in_datagram(datagram),
        Carried::Frame(octets) => ends_in_frame(packet.interface, Frame::read(octets)?),
        Carried::Other(_) => None,
    }
}

/// The ends of what a datagram carries (J.2).
fn ends_in_datagram<'a>(datagram: Datagram<'a>) -> Option<Ends<'a>> {
    let from = LinkAddress::from(datagram.from);
    let to = LinkAddress::from(datagram.to);
    let Ok(bvll) = Bvll::read(datagram.octets) else {
        return Some(ends_on_link(from, Some(to)));
    };
    match bvll {
        Bvll::OriginalUnicastNpdu(npdu) => ends_in_npdu(from, Some(to), npdu),
        Bvll::OriginalBroadcastNpdu(npdu) | Bvll::DistributeBroadcastToNetwork(npdu) => {
            ends_in_npdu(from, None, npdu)
        }
        Bvll::ForwardedNpdu { origin, npdu } => ends_in_npdu(LinkAddress::from(origin), None, npdu),
        Bvll::RegisterForeignDevice { .. }
        | Bvll::Result(_)
        | Bvll::WriteBroadcastDistributionTable(_)
        | Bvll::ReadBroadcastDistributionTable
        | Bvll::ReadBroadcastDistributionTableAck(_)
        | Bvll::ReadForeignDeviceTable
        | Bvll::ReadForeignDeviceTableAck(_)
        | Bvll::DeleteForeignDeviceTableEntry(_) => Some(ends_on_link(from, Some(to))),
    }
}

/// The ends of what a frame carries on the bus of this interface (9.3).
fn ends_in_frame<'a>(bus: u32, frame: Frame<'a>) -> Option<Ends<'a>> {
    let from = LinkAddress::Node(bus, frame.source);
    let to = if frame.destination == ALL_NODES {
        None
    } else {
        Some(LinkAddress::Node(bus, frame.destination))
    };
    match frame.frame_type {
        FrameType::BacnetDataExpectingReply | FrameType::BacnetDataNotExpectingReply => {
            ends_in_npdu(from, to, frame.data)
        }
        FrameType::Token
        | FrameType::PollForMaster
        | FrameType::ReplyToPollForMaster
        | FrameType::TestRequest
        | FrameType::TestResponse
        | FrameType::ReplyPostponed
        | FrameType::Other(_) => Some(ends_on_link(from, to)),
    }
}

/// The ends of a message of the network layer (6.2); `None` where its sender has an address that isn't followed.
fn ends_in_npdu<'a>(
    from: LinkAddress,
    to: Option<LinkAddress>,
    npdu: &'a [u8],
) -> Option<Ends<'a>> {
    let Ok(view) = View::read(npdu) else {
        return Some(ends_on_link(from, to));
    };
    let sender = Party::sender(from, view.source)?;
    let receiver = match to {
        Some(to) => Party::receiver(to, view.destination),
        None => None,
    };
    let apdu = match view.message {
        Some(_) => None,
        None => Some(view.body),
    };
    Some(Ends {
        sender,
        receiver,
        apdu,
    })
}

/// The ends of what stations of a link tell one another.
fn ends_on_link<'a>(from: LinkAddress, to: Option<LinkAddress>) -> Ends<'a> {
    Ends {
        sender: on_link(from),
        receiver: to.map(on_link),
        apdu: None,
    }
}

/// The station at an address on a link.
fn on_link(link: LinkAddress) -> Party {
    Party { link, remote: None }
}
