//! The ends of a packet, as they stand in its line.

use bvll::Address;
use mstp_frame::FrameType;
use std::fmt;

/// An address of BACnet/IP: `127.0.0.1:47808`.
#[derive(Clone, Copy)]
pub(crate) struct At(pub(crate) Address);

impl fmt::Display for At {
    fn fmt<W: fmt::Write>(&self, f: &mut fmt::Formatter<W>) -> fmt::Result {
        let Address {
            ip: [a, b, c, d],
            port,
        } = self.0;
        write!(f, "{a}.{b}.{c}.{d}:{port}")
    }
}

/// The address of a node on a bus: `5`, and `all` for the one that stands for all (9.1.2).
#[derive(Clone, Copy)]
pub(crate) struct Node(pub(crate) u8);

/// The address that stands for all nodes of a bus (9.1.2).
const ALL_NODES: u8 = 255;

impl fmt::Display for Node {
    fn fmt<W: fmt::Write>(&self, f: &mut fmt::Formatter<W>) -> fmt::Result {
        if self.0 == ALL_NODES {
            return f.write_str("all");
        }
        write!(f, "{}", self.0)
    }
}

/// The name of a type of frames behind a space (9.3); nothing for one that the standard doesn't name.
#[derive(Clone, Copy)]
pub(crate) struct TypeName(pub(crate) FrameType);

impl fmt::Display for TypeName {
    fn fmt<W: fmt::Write>(&self, f: &mut fmt::Formatter<W>) -> fmt::Result {
        match self.0 {
            FrameType::Token => f.write_str(" Token"),
            FrameType::PollForMaster => f.write_str(" Poll For Master"),
            FrameType::ReplyToPollForMaster => f.write_str(" Reply To Poll For Master"),
            FrameType::TestRequest => f.write_str(" Test_Request"),
            FrameType::TestResponse => f.write_str(" Test_Response"),
            FrameType::BacnetDataExpectingReply => f.write_str(" BACnet Data Expecting Reply"),
            FrameType::BacnetDataNotExpectingReply => {
                f.write_str(" BACnet Data Not Expecting Reply")
            }
            FrameType::ReplyPostponed => f.write_str(" Reply Postponed"),
            FrameType::Other(_) => Ok(()),
        }
    }
}
