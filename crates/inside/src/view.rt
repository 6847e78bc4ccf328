//! What is inside a message, by a slice of its octets.

ghost use Rattle.std.specs.Prelude.{IfSome, IfNone};
ghost use Rattle.inside.specs.Inside.{HasInside, HasNothingInside};
ghost use Rattle.inside.specs.View.{inside_in};

use crate::reach::{Reach, reach_of};
use npdu::{Parcel, Station, View};
use std::alloc::Allocator;

/// What is inside a message.
#[derive(Clone, Copy, Debug, PartialEq, Eq)]
pub struct InsideView<'a> {
    /// The station that says it.
    pub source: Station,
    /// Whom it is for.
    pub reach: Reach,
    /// The octets of its APDU.
    pub apdu: &'a [u8],
}

/// What is inside a message on the network `net` (1..=65534): who says it by SNET and SADR, else by who sent it there;
/// whom it is for by DNET and DADR, else by the target on the link; and its APDU (6.2.2). `None` where its octets are
/// no header, for a network message, and where SADR or DADR is the address of no station. It takes no memory.
#[tactic(auto, using(crate::proofs::Nothing::nothing_rules))]
pub fn inside_of<A: Allocator>(net: u16, parcel: &Parcel<A>) -> Option<InsideView<'_>>
    ensures inside { IfSome result (λ view. HasInside net parcel.now.from parcel.now.to parcel.now.npdu
        (inside_in view)) }
    ensures nothing { IfNone result (HasNothingInside net parcel.now) }
{
    let Ok(view) = View::read(parcel.npdu.as_slice()) else {
        return None;
    };
    if view.message.is_some() {
        return None;
    }
    let source = view.sender(net, parcel.from)?;
    let reach = reach_of(net, parcel.to, view.destination)?;
    Some(InsideView {
        source,
        reach,
        apdu: view.body,
    })
}
