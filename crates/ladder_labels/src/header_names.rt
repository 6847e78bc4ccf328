//! The standard's names of what the headers of a message number (6.4, 9.3, 15, 16, 20.1 and J.2).

use apdu::{ConfirmedService, UnconfirmedService};
use bvll::Function;
use mstp_frame::FrameType;
use npdu::Message;
use std::fmt;

/// The name of a function of the link on BACnet/IP (J.2).
pub(crate) fn function_name(function: Function) -> &'static str {
    match function {
        Function::Result => "BVLC-Result",
        Function::WriteBroadcastDistributionTable => "Write-Broadcast-Distribution-Table",
        Function::ReadBroadcastDistributionTable => "Read-Broadcast-Distribution-Table",
        Function::ReadBroadcastDistributionTableAck => "Read-Broadcast-Distribution-Table-Ack",
        Function::ForwardedNpdu => "Forwarded-NPDU",
        Function::RegisterForeignDevice => "Register-Foreign-Device",
        Function::ReadForeignDeviceTable => "Read-Foreign-Device-Table",
        Function::ReadForeignDeviceTableAck => "Read-Foreign-Device-Table-Ack",
        Function::DeleteForeignDeviceTableEntry => "Delete-Foreign-Device-Table-Entry",
        Function::DistributeBroadcastToNetwork => "Distribute-Broadcast-To-Network",
        Function::OriginalUnicastNpdu => "Original-Unicast-NPDU",
        Function::OriginalBroadcastNpdu => "Original-Broadcast-NPDU",
    }
}

/// The name of a type of frames (9.3).
#[derive(Clone, Copy)]
pub(crate) struct TypeName(pub(crate) FrameType);

impl fmt::Display for TypeName {
    fn fmt<W: fmt::Write>(&self, f: &mut fmt::Formatter<W>) -> fmt::Result {
        match self.0 {
            FrameType::Token => f.write_str("Token"),
            FrameType::PollForMaster => f.write_str("Poll For Master"),
            FrameType::ReplyToPollForMaster => f.write_str("Reply To Poll For Master"),
            FrameType::TestRequest => f.write_str("Test_Request"),
            FrameType::TestResponse => f.write_str("Test_Response"),
            FrameType::BacnetDataExpectingReply => f.write_str("Data Expecting Reply"),
            FrameType::BacnetDataNotExpectingReply => f.write_str("Data Not Expecting Reply"),
            FrameType::ReplyPostponed => f.write_str("Reply Postponed"),
            FrameType::Other(number) => write!(f, "frame type {number}"),
        }
    }
}

/// The name of a network message (6.4).
#[derive(Clone, Copy)]
pub(crate) struct MessageName(pub(crate) Message);

impl fmt::Display for MessageName {
    fn fmt<W: fmt::Write>(&self, f: &mut fmt::Formatter<W>) -> fmt::Result {
        match self.0 {
            Message::WhoIsRouterToNetwork => f.write_str("Who-Is-Router-To-Network"),
            Message::IAmRouterToNetwork => f.write_str("I-Am-Router-To-Network"),
            Message::RejectMessageToNetwork => f.write_str("Reject-Message-To-Network"),
            Message::Other(kind) => write!(f, "network message {kind}"),
            Message::Proprietary { kind, vendor } => {
                write!(f, "network message {kind} of vendor {vendor}")
            }
        }
    }
}

/// The name of the confirmed service of a number (15).
#[derive(Clone, Copy)]
pub(crate) struct ConfirmedName(pub(crate) u8);

impl fmt::Display for ConfirmedName {
    fn fmt<W: fmt::Write>(&self, f: &mut fmt::Formatter<W>) -> fmt::Result {
        match ConfirmedService::try_from(self.0) {
            Ok(ConfirmedService::ReadProperty) => f.write_str("ReadProperty"),
            Ok(ConfirmedService::ReadPropertyMultiple) => f.write_str("ReadPropertyMultiple"),
            Ok(ConfirmedService::WriteProperty) => f.write_str("WriteProperty"),
            Ok(ConfirmedService::WritePropertyMultiple) => f.write_str("WritePropertyMultiple"),
            Err(_) => write!(f, "service {}", self.0),
        }
    }
}

/// The name of the unconfirmed service of a number (16).
#[derive(Clone, Copy)]
pub(crate) struct UnconfirmedName(pub(crate) u8);

impl fmt::Display for UnconfirmedName {
    fn fmt<W: fmt::Write>(&self, f: &mut fmt::Formatter<W>) -> fmt::Result {
        match UnconfirmedService::try_from(self.0) {
            Ok(UnconfirmedService::IAm) => f.write_str("I-Am"),
            Ok(UnconfirmedService::WhoIs) => f.write_str("Who-Is"),
            Err(_) => write!(f, "unconfirmed service {}", self.0),
        }
    }
}
