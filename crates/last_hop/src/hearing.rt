//! The message of a request in what a station receives.

ghost use Rattle.std.specs.Prelude.{◌≡◌, IfNone, IfSome, option_map};
ghost use Rattle.bvll.specs.Datagram.{datagram_of};
ghost use Rattle.last_hop.specs.Hearing as spec;
ghost use Rattle.last_hop.specs.Hearing.{Hears, HearsNone, IsInDatagram, IsInFrame, NoneInDatagram, NoneInFrame};
ghost use Rattle.mstp_frame.specs.FrameType.{type_number};

use crate::part::{HeardPart, part_in};
use bvll::Bvll;
use mstp_frame::{Frame, FrameType};
use npdu::{Mac, Station, Target};
use unitdata::hear;

/// The message of a request in an NPDU that was sent to a station alone on a network, if it brings one there (6.2.2).
#[tactic(auto, using(crate::proofs::HearLaws::hear_laws))]
fn heard_at(net: u16, from: Mac, to: Mac, npdu: &[u8]) -> Option<HeardPart>
    ensures hears { IfSome result (Hears net from to npdu.now) }
    ensures none { IfNone result (HearsNone net from to npdu.now) }
{
    let heard = hear(net, from, Target::One(to), npdu)?;
    part_in(Station { net, mac: to }, heard.station, heard.content)
}

/// The message of a request in a datagram that goes from one address to another on a network (J.2.11). It takes no
/// memory.
#[tactic(auto, using(crate::proofs::HearLaws::datagram_laws))]
pub fn heard_in_datagram(net: u16, from: Mac, to: Mac, octets: &[u8]) -> Option<HeardPart>
    ensures hears { IfSome result (IsInDatagram net from to octets.now) }
    ensures none { IfNone result (NoneInDatagram net from to octets.now) }
{
    let Ok(bvll) = Bvll::read(octets) else {
        return None;
    };
    let npdu = npdu_in(bvll)?;
    heard_at(net, from, to, npdu)
}

/// The NPDU to one station that a datagram is, if it is one (J.2.11).
fn npdu_in(bvll: Bvll<'_>) -> Option<&[u8]>
    ensures { option_map (λ npdu. npdu.now) result ≡ spec.npdu_in (datagram_of bvll.entry) }
{
    match bvll {
        Bvll::OriginalUnicastNpdu(npdu) => Some(npdu),
        Bvll::Result(_)
        | Bvll::WriteBroadcastDistributionTable(_)
        | Bvll::ReadBroadcastDistributionTable
        | Bvll::ReadBroadcastDistributionTableAck(_)
        | Bvll::ForwardedNpdu { .. }
        | Bvll::RegisterForeignDevice { .. }
        | Bvll::ReadForeignDeviceTable
        | Bvll::ReadForeignDeviceTableAck(_)
        | Bvll::DeleteForeignDeviceTableEntry(_)
        | Bvll::DistributeBroadcastToNetwork(_)
        | Bvll::OriginalBroadcastNpdu(_) => None,
    }
}

/// The message of a request in a frame, for the node of an address on a bus (9.3). It takes no memory.
#[tactic(auto, using(crate::proofs::HearLaws::frame_laws))]
pub fn heard_in_frame(net: u16, to: u8, octets: &[u8]) -> Option<HeardPart>
    ensures hears { IfSome result (IsInFrame net to octets.now) }
    ensures none { IfNone result (NoneInFrame net to octets.now) }
{
    let frame = Frame::read(octets)?;
    if frame.destination != to {
        return None;
    }
    if !carries_data(frame.frame_type) {
        return None;
    }
    heard_at(net, Mac::One(frame.source), Mac::One(to), frame.data)
}

/// Whether a frame of this type carries an NPDU (9.3.6, 9.3.7).
fn carries_data(frame_type: FrameType) -> bool
    ensures { result ≡ spec.carries_data (type_number frame_type) }
{
    let number = u8::from(frame_type);
    number == u8::from(FrameType::BacnetDataExpectingReply)
        || number == u8::from(FrameType::BacnetDataNotExpectingReply)
}
