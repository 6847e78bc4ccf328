//! Whom a message is for.

ghost use Rattle.std.specs.Prelude.{◌≡◌, option_map};
ghost use Rattle.npdu.specs.Header.{destination_of};
ghost use Rattle.inside.specs.Inside as spec;

use npdu::{Destination, Dnet, Mac, Station, Target};

/// Whom a message is for (6.3).
#[derive(Clone, Copy, Debug, PartialEq, Eq)]
pub enum Reach {
    /// One station.
    One(Station),
    /// All stations of the network of this number, 1..=65534.
    Network(u16),
    /// All stations of all networks.
    All,
}

/// Whom a target on the network `net` is.
fn linked(net: u16, to: Target) -> Reach
    ensures { result ≡ spec.linked net to }
{
    match to {
        Target::One(mac) => Reach::One(Station { net, mac }),
        Target::All => Reach::Network(net),
    }
}

/// Whom DNET and DADR name: without an octet in DADR all of the network.
fn named(destination: Destination<'_>) -> Option<Reach>
    ensures { result ≡ spec.named destination.entry.net destination.entry.mac.now }
{
    let Dnet::Network(net) = destination.net else {
        return Some(Reach::All);
    };
    if destination.mac.is_empty() {
        return Some(Reach::Network(net));
    }
    let mac = Mac::from_octets(destination.mac)?;
    Some(Reach::One(Station { net, mac }))
}

/// Whom a message on the network `net` is for: whom DNET and DADR name, else whom the target on the link is. `None`
/// where DADR has another count of octets than none, one or six (6.2.2).
pub(crate) fn reach_of(net: u16, to: Target, destination: Option<Destination<'_>>) -> Option<Reach>
    ensures { result ≡ spec.reach_of net to (option_map destination_of destination.entry) }
{
    match destination {
        None => Some(linked(net, to)),
        Some(destination) => named(destination),
    }
}
