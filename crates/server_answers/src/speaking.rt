//! What a server says goes out as all that a station says (6.1, 6.2.2).

use crate::said::{ServerSaid, write_whole};
use apdu::PduType;
use npdu::Way;
use remembered::Record;
use std::alloc::Allocator;
use tags::Fault;
use unitdata::Say;

impl<A: Allocator> Say for ServerSaid<A> {
    ghost use Rattle.server_answers.specs.Said.{spoken_of};

    ghost spoken = { spoken_of };

    fn way(&self) -> Way {
        ServerSaid::way(self)
    }

    fn expects_reply(&self) -> bool {
        match self {
            ServerSaid::Answer { .. } => unitdata::expects_reply(PduType::ComplexAck, false),
            ServerSaid::Segment { .. } => unitdata::expects_reply(PduType::ComplexAck, true),
            ServerSaid::SegmentAck { .. } => unitdata::expects_reply(PduType::SegmentAck, false),
            ServerSaid::Reject { .. } => unitdata::expects_reply(PduType::Reject, false),
            ServerSaid::Abort { .. } => unitdata::expects_reply(PduType::Abort, false),
        }
    }

    fn write<B: Allocator>(&self, out: &mut Vec<u8, B>) -> Result<(), Fault> {
        ServerSaid::write(self, out)
    }
}

/// A remembered answer, said whole: its octets are written from where it is remembered.
#[derive(Clone, Copy)]
pub struct WholeAnswer<'a, A: Allocator> {
    /// What is remembered of it.
    pub entry: &'a Record<A>,
}

impl<A: Allocator> Say for WholeAnswer<'_, A> {
    ghost use Rattle.server_answers.specs.Answering.{whole_answer};
    ghost use Rattle.server_answers.specs.Said.{spoken_of};

    ghost spoken = { λ s. spoken_of (whole_answer s.entry.now) };

    fn way(&self) -> Way {
        self.entry.way
    }

    fn expects_reply(&self) -> bool {
        unitdata::expects_reply(PduType::ComplexAck, false)
    }

    fn write<B: Allocator>(&self, out: &mut Vec<u8, B>) -> Result<(), Fault> {
        write_whole(self.entry, out)
    }
}
