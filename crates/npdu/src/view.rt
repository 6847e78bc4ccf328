//! A network header, by slices of its octets.

ghost use Rattle.std.specs.Prelude.{◌≡◌, ◌<◌, ◌↔◌, IsTrue};
ghost use Rattle.npdu.specs.Dnet.{dnet_number, IsDnet};
ghost use Rattle.npdu.specs.Header.{IsDestination, IsSource, destination_of, source_of};

use crate::mac::{Mac, Station};
use crate::message::Message;
use crate::priority::Priority;

/// The number in DNET that stands for every network.
pub(crate) const GLOBAL: u16 = 0xFFFF;

/// The hop count that a message begins with (6.2.3).
pub const INITIAL_HOP_COUNT: u8 = 255;

/// The network that a message goes to (DNET, 6.2.2).
#[derive(Clone, Copy, Debug, PartialEq, Eq)]
pub enum Dnet {
    /// The network of this number, 1..=65534.
    Network(u16),
    /// Every network: the global broadcast, whatever address stands behind it.
    Global,
}

impl From<Dnet> for u16 {
    ghost from_gives = { λ net n. n ≡ dnet_number net };

    fn from(net: Dnet) -> u16 {
        match net {
            Dnet::Network(number) => number,
            Dnet::Global => GLOBAL,
        }
    }
}

impl From<u16> for Dnet {
    ghost from_gives = { λ n net. (dnet_number net ≡ n) × (0 < n → IsDnet net) };

    fn from(number: u16) -> Dnet {
        match number {
            GLOBAL => Dnet::Global,
            _ => Dnet::Network(number),
        }
    }
}

impl Dnet {
    pub(crate) fn is_sound(self) -> bool
        ensures { IsTrue result ↔ IsDnet self }
    {
        match self {
            Dnet::Network(number) => 0 < number && number < GLOBAL,
            Dnet::Global => true,
        }
    }
}

/// Where a message goes (6.2.2).
#[derive(Clone, Copy, Debug, PartialEq, Eq)]
pub struct Destination<'a> {
    /// DNET.
    pub net: Dnet,
    /// DADR, 0..=255 octets: without any the message is for all stations of the network.
    pub mac: &'a [u8],
    /// The hop count, 0..=255: how many networks it may still cross.
    pub hops: u8,
}

impl Destination<'_> {
    pub(crate) fn is_sound(self) -> bool
        ensures { IsTrue result ↔ IsDestination (destination_of self.entry) }
    {
        self.net.is_sound() && self.mac.len() < 256
    }
}

/// Where a message comes from, where that is not the network that it is heard on (6.2.2).
#[derive(Clone, Copy, Debug, PartialEq, Eq)]
pub struct Source<'a> {
    /// SNET, 1..=65534.
    pub net: u16,
    /// SADR, 1..=255 octets.
    pub mac: &'a [u8],
}

impl Source<'_> {
    pub(crate) fn is_sound(self) -> bool
        ensures { IsTrue result ↔ IsSource (source_of self.entry) }
    {
        0 < self.net && self.net < GLOBAL && !self.mac.is_empty() && self.mac.len() < 256
    }
}

/// A whole network header and what stands behind it (6.2), each address and the body a slice of its octets.
#[derive(Clone, Copy, Debug, PartialEq, Eq)]
pub struct View<'a> {
    /// Whether the sender waits for a reply (control bit 2).
    pub expects_reply: bool,
    /// Control bits 1 and 0.
    pub priority: Priority,
    /// DNET, DADR and hop count; without it the message is for the network that it is heard on.
    pub destination: Option<Destination<'a>>,
    /// SNET and SADR; without it the message comes from the station that sent it on this network.
    pub source: Option<Source<'a>>,
    /// The message type where the body is a network message's data; without it the body is an APDU.
    pub message: Option<Message>,
    /// The octets behind the header.
    pub body: &'a [u8],
}

impl View<'_> {
    ghost use Rattle.std.specs.Prelude.{◌≡◌, option_map};
    ghost use Rattle.npdu.specs.Header.{source_of};
    ghost use Rattle.npdu.specs.Sender.{sender};

    /// Who says the message, where it came from the address `from` on the network `net`: the station that SNET and
    /// SADR name, else the one that sent it. `None` where SADR has neither one octet nor six (6.2.2). It takes no
    /// memory.
    pub fn sender(&self, net: u16, from: Mac) -> Option<Station>
        ensures { result ≡ sender net from (option_map source_of self.now.source) }
    {
        let Some(source) = self.source else {
            return Some(Station { net, mac: from });
        };
        let mac = Mac::from_octets(source.mac)?;
        Some(Station {
            net: source.net,
            mac,
        })
    }
}
