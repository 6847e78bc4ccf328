//! The message in a frame.

ghost use Rattle.std.specs.Prelude.{◌≡◌};
ghost use Rattle.carry.specs.Frames.{framed_to};
ghost use Rattle.link_bus.specs.Steps.{handed_up};
ghost use Rattle.mstp_table.specs.Node.{named};
ghost use Rattle.link.specs.Up.{parcel_if};

use crate::port::BusPort;
use link::Up;
use mstp_frame::Frame;
use npdu::{Mac, Target};
use std::alloc::Allocator;

/// The destination that is all nodes of a bus (9.3).
const ALL_NODES: u8 = 255;

/// Whom a frame is for (9.3).
fn target_of(destination: u8) -> Target
    ensures { result ≡ framed_to destination }
{
    if destination == ALL_NODES {
        Target::All
    } else {
        Target::One(Mac::One(destination))
    }
}

impl<A: Allocator + Copy> BusPort<A> {
    /// The data of a frame, as a message from its source to its destination, where they are handed up (9.3).
    pub(crate) fn handed_up<'o>(
        &self,
        hands_up: bool,
        frame: &Frame<'o>,
        stamp: u64,
    ) -> Option<Up<'o>>
        ensures { parcel_if {A = A} result ≡ handed_up hands_up stamp (named frame.now) }
    {
        if !hands_up {
            return None;
        }
        Some(Up {
            from: Mac::One(frame.source),
            to: target_of(frame.destination),
            npdu: frame.data,
            stamp,
        })
    }
}
