//! What an NPDU brings to a station.

ghost use Rattle.std.specs.Prelude.{◌≡◌, IfSome, IfNone, option_map};
ghost use Rattle.npdu.specs.Header.{destination_of};
ghost use Rattle.unitdata.specs.Hearing as spec;
ghost use Rattle.unitdata.specs.Hearing.{Brings, BringsNothing, NoContent, SpellsContent};
ghost use Rattle.unitdata.specs.Hearing.{destination_if, way_to};
ghost use Rattle.unitdata.specs.Heard.{IsNamed, content_of, heard_of};

use apdu::Apdu;
use npdu::{Destination, Dnet, Mac, Message, Station, Target, View, Way};

/// What a station's application hears of a message.
#[derive(Clone, Copy, Debug, PartialEq, Eq)]
pub enum HeardContent<'a> {
    /// An APDU (20.1).
    Apdu(Apdu<'a>),
    /// That a router didn't pass a message on (6.4.4).
    Rejected(npdu::Rejected),
}

/// A message as a station's application hears it.
#[derive(Clone, Copy, Debug, PartialEq, Eq)]
pub struct Heard<'a> {
    /// The station that says it.
    pub station: Station,
    /// How an answer goes there.
    pub way: Way,
    /// Whether it came to this station alone, and not by a broadcast.
    pub alone: bool,
    /// What it says.
    pub content: HeardContent<'a>,
}

/// What an NPDU brings to a station of the network `net`, where it was sent there from the address `from` to the
/// target `to` (6.2, 6.5.2). `None` where it brings nothing: another DNET than the global broadcast, a source whose
/// address has neither one octet nor six, a network message but a Reject-Message-To-Network, or octets that are no
/// header or no APDU. It takes no memory.
#[tactic(auto, using(crate::proofs::HearLaws::hear_rules))]
pub fn hear(net: u16, from: Mac, to: Target, npdu: &[u8]) -> Option<Heard<'_>>
    ensures brings { IfSome result (λ heard. Brings net from to npdu.now (heard_of heard)) }
    ensures named { IfSome result (λ heard. IsNamed heard.content) }
    ensures nothing { IfNone result (BringsNothing net from to npdu.now) }
{
    let Ok(view) = View::read(npdu) else {
        return None;
    };
    if !is_here(view.destination) {
        return None;
    }
    let station = view.sender(net, from)?;
    let content = behind(view.message, view.body)?;
    Some(Heard {
        station,
        way: way_to(net, from, station),
        alone: is_alone(to, view.destination),
        content,
    })
}

/// Whether a destination is a station of the network where it is heard, or all.
fn is_here(destination: Option<Destination<'_>>) -> bool
    ensures { result ≡ spec.is_here (option_map destination_of destination.entry) }
{
    match destination {
        None => true,
        Some(destination) => match destination.net {
            Dnet::Global => true,
            Dnet::Network(_) => false,
        },
    }
}

/// Whether a message that was sent to this target on the link, with this DNET and DADR, came to this station alone, and
/// not by a broadcast (6.2.2).
fn is_alone(to: Target, destination: Option<Destination<'_>>) -> bool
    ensures { result ≡ spec.is_alone to (option_map destination_of destination.entry) }
{
    match to {
        Target::One(_) => destination.is_none(),
        Target::All => false,
    }
}

/// How an answer goes to a station whose message came from an address on this network.
fn way_to(net: u16, from: Mac, station: Station) -> Way
    ensures { result ≡ way_to net from station }
{
    let is_next = station == Station { net, mac: from };
    Way {
        to: from,
        destination: if is_next { None } else { Some(station) },
    }
}

/// What stands behind a header.
#[tactic(auto, using(crate::proofs::HearLaws::content_rules))]
fn behind(message: Option<Message>, octets: &[u8]) -> Option<HeardContent<'_>>
    ensures says { IfSome result (λ content. SpellsContent message octets.now (content_of content)) }
    ensures named { IfSome result IsNamed }
    ensures nothing { IfNone result (NoContent message octets.now) }
{
    match message {
        None => match Apdu::read(octets) {
            Ok(apdu) => Some(HeardContent::Apdu(apdu)),
            Err(_) => None,
        },
        Some(Message::RejectMessageToNetwork) => {
            let rejected = npdu::Rejected::read(octets)?;
            Some(HeardContent::Rejected(rejected))
        }
        Some(_) => None,
    }
}
