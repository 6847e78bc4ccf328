//! What a router does with a message, by its header (6.5, 6.6.3). It is decided on slices, without memory.

ghost use Rattle.std.specs.Prelude.{◌≡◌, option_map, slice_get};
ghost use Rattle.npdu.specs.Header.{destination_of, header_of};
ghost use Rattle.inside.specs.Routed as routed;
ghost use Rattle.router.specs.Handling as spec;
ghost use Rattle.router.specs.Handling.{answering, by_port, by_route, forwarding, handling};
ghost use Rattle.router.specs.Handling.{own_port, reaches, route_to};

use crate::router::Router;
use npdu::{Destination, Dnet, Mac, Message, Station, Target, View};
use std::alloc::Allocator;

/// What a router does with a message.
#[derive(Clone, Copy, Debug, PartialEq, Eq)]
pub enum Handling {
    /// It drops the message.
    Discard,
    /// It passes it on to all stations of each other network.
    Spread,
    /// It passes it on to the next router: over this port, from its own address there.
    Relay { port: usize, own: Mac, next: Mac },
    /// It passes it on to whom it is for, on the last network, without DNET, DADR and hop count.
    Deliver { port: usize, own: Mac, to: Target },
    /// It knows no route to this network: it asks for one on its other ports, tells the source, and drops the message.
    FindRoute(u16),
    /// It names the networks behind its other ports.
    NameAll,
    /// It says that it has a route to the network that was asked for.
    NameAsked,
    /// It asks on its other ports what it was asked.
    AskOthers,
    /// It learns routes to the networks named, and passes the announcement on to its other ports.
    Learn,
    /// It tells the source that it doesn't know this type of network message.
    RefuseType,
}

/// Whether an address is one on a network where the router has the address `own`.
fn is_like(own: Mac, mac: Mac) -> bool
    ensures { result ≡ spec.is_like own mac }
{
    match (own, mac) {
        (Mac::Six(_), Mac::Six(_)) => true,
        (Mac::One(_), Mac::One(octet)) => octet < 128,
        (Mac::Six(_), Mac::One(_)) => false,
        (Mac::One(_), Mac::Six(_)) => false,
    }
}

/// Whether a target is one on such a network.
fn is_on(own: Mac, to: Target) -> bool
    ensures { result ≡ spec.is_on own to }
{
    match to {
        Target::All => true,
        Target::One(mac) => is_like(own, mac),
    }
}

/// Whom DADR names on the last network: all, without an octet.
fn target_of(address: &[u8]) -> Option<Target>
    ensures { result ≡ routed.target_of address.now }
{
    if address.is_empty() {
        return Some(Target::All);
    }
    let mac = Mac::from_octets(address)?;
    Some(Target::One(mac))
}

/// Returns what is done with a message on its last network.
fn delivered(port: usize, own: Mac, to: Option<Target>) -> Handling
    ensures { result ≡ spec.delivered port own to }
{
    match to {
        Some(to) if is_on(own, to) => Handling::Deliver { port, own, to },
        _ => Handling::Discard,
    }
}

/// The first port on this network, and the router's address there.
fn port_on(ports: &[Station], net: u16) -> Option<(usize, Mac)>
    ensures { result ≡ own_port net ports.now }
{
    for (number, port) in ports.iter().enumerate() {
        if port.net == net {
            return Some((number, port.mac));
        }
    }
    None
}

/// Returns what is done with an announcement of networks.
fn announcing(contents: &[u8]) -> Handling
    ensures { result ≡ spec.announcing contents.now }
{
    if contents.len() % 2 == 0 {
        Handling::Learn
    } else {
        Handling::Discard
    }
}

/// Returns what is done with a network message of a type that is not known.
fn unknown(to: Target) -> Handling
    ensures { result ≡ spec.unknown to }
{
    match to {
        Target::One(_) => Handling::RefuseType,
        Target::All => Handling::Discard,
    }
}

impl<A: Allocator + Copy> Router<A> {
    /// Returns what is done with a message that comes on the port of this number, to this target on its network (6.5,
    /// 6.6.3). It takes no memory.
    pub fn handling(&self, port: usize, to: Target, view: &View<'_>) -> Handling
        ensures { result ≡ handling self.now port to (header_of view.now) }
    {
        match (&view.destination, &view.message) {
            (Some(destination), _) => self.forwarding(destination),
            (None, Some(message)) => self.answering(port, to, *message, view.body),
            (None, None) => Handling::Discard,
        }
    }

    /// Returns what is done with a message for a network, or for all.
    fn forwarding(&self, destination: &Destination<'_>) -> Handling
        ensures { result ≡ forwarding self.now (destination_of destination.now) }
    {
        if destination.hops <= 1 {
            return Handling::Discard;
        }
        match destination.net {
            Dnet::Global => Handling::Spread,
            Dnet::Network(net) => self.to_network(net, destination.mac),
        }
    }

    /// Returns what is done with a message for this network.
    fn to_network(&self, net: u16, address: &[u8]) -> Handling
        ensures { result ≡ by_port self.now net address.now (own_port net self.now.ports) }
    {
        match port_on(self.ports(), net) {
            Some((port, own)) => delivered(port, own, target_of(address)),
            None => self.by_route(net),
        }
    }

    /// Returns what is done with a message for a network that is none of its own.
    fn by_route(&self, net: u16) -> Handling
        ensures { result ≡ by_route self.now net (route_to net self.now.routes) }
    {
        let Some(route) = self.routes.get(net) else {
            return Handling::FindRoute(net);
        };
        match self.port(route.port) {
            None => Handling::Discard,
            Some(station) => Handling::Relay {
                port: route.port,
                own: station.mac,
                next: route.next,
            },
        }
    }

    /// Returns what is done with a network message for the router itself.
    fn answering(&self, port: usize, to: Target, message: Message, contents: &[u8]) -> Handling
        ensures { result ≡ answering self.now port to message contents.now }
    {
        match message {
            Message::WhoIsRouterToNetwork => self.asking(port, contents),
            Message::IAmRouterToNetwork => announcing(contents),
            Message::RejectMessageToNetwork => Handling::Discard,
            Message::Other(_) => unknown(to),
            Message::Proprietary { .. } => unknown(to),
        }
    }

    /// Returns what is done with a question for a network, or for all.
    fn asking(&self, port: usize, contents: &[u8]) -> Handling
        ensures { result ≡ spec.asking self.now port contents.now }
    {
        match contents {
            [] => Handling::NameAll,
            [high, low] => {
                if self.reaches(port, u16::from_be_bytes([*high, *low])) {
                    Handling::NameAsked
                } else {
                    Handling::AskOthers
                }
            }
            _ => Handling::Discard,
        }
    }

    /// Whether a network is reached over another port than this one.
    fn reaches(&self, port: usize, net: u16) -> bool
        ensures { result ≡ reaches self.now port net }
    {
        match port_on(self.ports(), net) {
            Some((own, _)) => own != port,
            None => match self.routes.get(net) {
                Some(route) => route.port != port,
                None => false,
            },
        }
    }
}
