//! What was said: what is inside each message that an application entity said, and when.

ghost use Rattle.std.specs.Prelude.{◌≡◌, ◌≤◌, ◌+◌, length};
ghost use Rattle.std.specs.Vec.{vec_capacity, vec_len};
ghost use Rattle.carry_ends.specs.carry_world.carry_said.Said.{HasInsides, HasSomething};
ghost use Rattle.inside.specs.Inside.{IsInsideOf};
ghost use Rattle.world_log.specs.Kept.{said_of};
ghost use Rattle.world_log.specs.Log.{Says};

use crate::keeping::push_reserved;
use inside::{Reach, inside_of};
use npdu::{Parcel, Station};
use std::alloc::Allocator;
use tags::{Items, Octets};

/// What is inside a message that an application entity said (6.2, 6.3).
#[derive(Drop)]
#[derive_where(Debug, PartialEq, Eq)]
pub struct SaidMessage<A: Allocator> {
    /// The station that said it.
    pub source: Station,
    /// Whom it is for.
    pub reach: Reach,
    /// The octets of its NPDU, where they were written.
    pub npdu: Octets<A>,
    /// How many of these stand before its APDU.
    pub header: usize,
    /// The moment at which it was said, in milliseconds.
    pub stamp: u64,
}

impl<A: Allocator> SaidMessage<A> {
    ghost use Rattle.std.specs.Prelude.{◌≡◌};
    ghost use Rattle.world_log.specs.Kept.{apdu_in};

    /// Returns the octets of its APDU.
    pub fn apdu(&self) -> &[u8]
        ensures { result.now ≡ apdu_in self.now }
    {
        match self.npdu.as_slice().get(self.header..) {
            Some(apdu) => apdu,
            None => &[],
        }
    }
}

/// Returns what is inside a parcel on the network `net`, which has something inside. Its octets stay where they lie.
#[tactic(auto, using(crate::proofs::SaidLaws::something_rules))]
fn message_in<A: Allocator>(net: u16, parcel: Parcel<A>) -> SaidMessage<A>
    requires something { HasSomething net parcel }
    ensures inside { IsInsideOf net parcel (said_of result) }
{
    let view = inside_of(net, &parcel).unwrap();
    let source = view.source;
    let reach = view.reach;
    let header = parcel.npdu.len() - view.apdu.len();
    SaidMessage {
        source,
        reach,
        npdu: parcel.npdu,
        header,
        stamp: parcel.stamp,
    }
}

/// Appends what is inside each of these parcels on the network `net`, in order, each of which has something inside,
/// where there is room.
#[tactic(auto, using(crate::proofs::SaidLaws::saying_rules))]
pub(crate) fn say<A: Allocator>(
    list: &mut Vec<SaidMessage<A>, A>,
    net: u16,
    parcels: Items<Parcel<A>, A>,
)
    requires room { vec_len list.old + length parcels ≤ vec_capacity list.old }
    requires insides { HasInsides net parcels }
    ensures { Says net parcels list.old.items list.new.items }
{
    for parcel in parcels.into_vec() {
        push_reserved(list, message_in(net, parcel));
    }
}
