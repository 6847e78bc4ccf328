//! The label of a message, from its headers: the service or the type, and the invoke ID.

use crate::header_names::{ConfirmedName, MessageName, TypeName, UnconfirmedName, function_name};
use apdu::{Apdu, PduType};
use bvll::Bvll;
use ladder::Kind;
use mstp_frame::{Frame, FrameType};
use npdu::View;
use std::fmt;

/// The label of a datagram (J.2): `ReadProperty, invoke 1`, `Forwarded-NPDU: Who-Is`, `Register-Foreign-Device`,
/// `unread: BadLength`.
#[derive(Clone, Copy)]
pub struct DatagramLabel<'a>(pub &'a [u8]);

impl fmt::Display for DatagramLabel<'_> {
    fn fmt<W: fmt::Write>(&self, f: &mut fmt::Formatter<W>) -> fmt::Result {
        match Bvll::read(self.0) {
            Ok(bvll) => fmt_bvll(bvll, f),
            Err(fault) => write!(f, "unread: {fault}"),
        }
    }
}

/// Writes the label of what the link on BACnet/IP says.
fn fmt_bvll<W: fmt::Write>(bvll: Bvll<'_>, f: &mut fmt::Formatter<W>) -> fmt::Result {
    let name = function_name(bvll.function());
    match bvll {
        Bvll::OriginalUnicastNpdu(npdu) | Bvll::OriginalBroadcastNpdu(npdu) => fmt_npdu(npdu, f),
        Bvll::ForwardedNpdu { npdu, .. } | Bvll::DistributeBroadcastToNetwork(npdu) => {
            write!(f, "{name}: ")?;
            fmt_npdu(npdu, f)
        }
        Bvll::Result(_)
        | Bvll::WriteBroadcastDistributionTable(_)
        | Bvll::ReadBroadcastDistributionTable
        | Bvll::ReadBroadcastDistributionTableAck(_)
        | Bvll::RegisterForeignDevice { .. }
        | Bvll::ReadForeignDeviceTable
        | Bvll::ReadForeignDeviceTableAck(_)
        | Bvll::DeleteForeignDeviceTableEntry(_) => f.write_str(name),
    }
}

/// The label of a frame (9.3): `Data Expecting Reply: ReadProperty, invoke 1`, `Reply Postponed`.
#[derive(Clone, Copy)]
pub struct FrameLabel<'a>(pub Frame<'a>);

impl fmt::Display for FrameLabel<'_> {
    fn fmt<W: fmt::Write>(&self, f: &mut fmt::Formatter<W>) -> fmt::Result {
        write!(f, "{}", TypeName(self.0.frame_type))?;
        match npdu_in_frame(self.0) {
            Some(npdu) => {
                f.write_str(": ")?;
                fmt_npdu(npdu, f)
            }
            None => Ok(()),
        }
    }
}

/// The NPDU that a frame carries, if it carries one (9.3).
pub fn npdu_in_frame(frame: Frame<'_>) -> Option<&[u8]> {
    match frame.frame_type {
        FrameType::BacnetDataExpectingReply | FrameType::BacnetDataNotExpectingReply => {
            Some(frame.data)
        }
        FrameType::Token
        | FrameType::PollForMaster
        | FrameType::ReplyToPollForMaster
        | FrameType::TestRequest
        | FrameType::TestResponse
        | FrameType::ReplyPostponed
        | FrameType::Other(_) => None,
    }
}

/// Writes the label of an NPDU (6.2).
fn fmt_npdu<W: fmt::Write>(octets: &[u8], f: &mut fmt::Formatter<W>) -> fmt::Result {
    let view = match View::read(octets) {
        Ok(view) => view,
        Err(fault) => return write!(f, "unread: {fault}"),
    };
    if let Some(message) = view.message {
        return write!(f, "{}", MessageName(message));
    }
    match Apdu::read(view.body) {
        Ok(apdu) => fmt_apdu(apdu, f),
        Err(fault) => write!(f, "unread: {fault}"),
    }
}

/// Writes the label of an APDU (20.1).
fn fmt_apdu<W: fmt::Write>(apdu: Apdu<'_>, f: &mut fmt::Formatter<W>) -> fmt::Result {
    match apdu {
        Apdu::ConfirmedRequest {
            invoke_id,
            service,
            ..
        } => fmt_call("", service, invoke_id, f),
        Apdu::UnconfirmedRequest { service, .. } => write!(f, "{}", UnconfirmedName(service)),
        Apdu::SimpleAck { invoke_id, service } => fmt_call("SimpleACK ", service, invoke_id, f),
        Apdu::ComplexAck {
            invoke_id,
            service,
            ..
        } => fmt_call("ComplexACK ", service, invoke_id, f),
        Apdu::SegmentAck {
            negative,
            invoke_id,
            ..
        } => {
            let front = if negative { "negative " } else { "" };
            write!(f, "{front}SegmentACK, invoke {invoke_id}")
        }
        Apdu::Error {
            invoke_id,
            service,
            ..
        } => fmt_call("Error ", service, invoke_id, f),
        Apdu::Reject { invoke_id, reason } => {
            write!(f, "Reject {}, invoke {invoke_id}", u8::from(reason))
        }
        Apdu::Abort {
            invoke_id,
            reason,
            ..
        } => write!(f, "Abort {}, invoke {invoke_id}", u8::from(reason)),
    }
}

/// Writes a service behind the type of its APDU, and its invoke ID.
fn fmt_call<W: fmt::Write>(
    front: &str,
    service: u8,
    invoke_id: u8,
    f: &mut fmt::Formatter<W>,
) -> fmt::Result {
    write!(f, "{front}{}, invoke {invoke_id}", ConfirmedName(service))
}

/// The NPDU that a datagram carries, if it carries one (J.2).
pub fn npdu_in_datagram(octets: &[u8]) -> Option<&[u8]> {
    match Bvll::read(octets) {
        Ok(
            Bvll::ForwardedNpdu { npdu, .. }
            | Bvll::DistributeBroadcastToNetwork(npdu)
            | Bvll::OriginalUnicastNpdu(npdu)
            | Bvll::OriginalBroadcastNpdu(npdu),
        ) => Some(npdu),
        Ok(_) | Err(_) => None,
    }
}

/// Whether a datagram goes to all on a subnet, or as one of those that carry a broadcast on (J.2.6, J.2.12).
pub fn is_broadcast(octets: &[u8]) -> bool {
    matches!(
        Bvll::read(octets),
        Ok(Bvll::ForwardedNpdu { .. } | Bvll::OriginalBroadcastNpdu(_))
    )
}

/// What a datagram is.
pub fn kind_of_datagram(octets: &[u8]) -> Kind {
    match npdu_in_datagram(octets) {
        Some(npdu) => kind_of_npdu(npdu),
        None => Kind::Other,
    }
}

/// What a frame is.
pub fn kind_of_frame(frame: Frame<'_>) -> Kind {
    match npdu_in_frame(frame) {
        Some(npdu) => kind_of_npdu(npdu),
        None => Kind::Other,
    }
}

/// What an NPDU is.
fn kind_of_npdu(octets: &[u8]) -> Kind {
    let Ok(view) = View::read(octets) else {
        return Kind::Other;
    };
    if view.message.is_some() {
        return Kind::Other;
    }
    match Apdu::read(view.body) {
        Ok(apdu) => kind_of(apdu.pdu_type()),
        Err(_) => Kind::Other,
    }
}

/// What an APDU of this type is.
fn kind_of(pdu_type: PduType) -> Kind {
    match pdu_type {
        PduType::ConfirmedRequest => Kind::Request,
        PduType::UnconfirmedRequest => Kind::Unconfirmed,
        PduType::SimpleAck | PduType::ComplexAck | PduType::SegmentAck => Kind::Answer,
        PduType::Error | PduType::Reject | PduType::Abort => Kind::Refusal,
    }
}
