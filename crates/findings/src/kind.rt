//! What no plant should show, with whom it is about.

use crate::name::Name;
use diagnosis_parts::{Key, LinkAddress, Named, Party, Subject};
use names::confirmed_services;
use std::fmt;
use tags::Fault;

/// A request: by whom, to whom, and what it asks for.
#[derive(Clone, Copy)]
pub struct Exchange {
    /// Its client, its server and its invoke ID.
    pub key: Key,
    /// The number of its service (21, BACnetConfirmedServiceChoice).
    pub service: u8,
    /// Its first object and property.
    pub subject: Subject,
}

/// The layer whose header is at fault.
#[derive(Clone, Copy)]
pub enum Layer {
    /// The virtual link layer of BACnet/IP (J.2).
    Bvll,
    /// The network layer (6.2).
    Npdu,
    /// The application layer (20.1).
    Apdu,
}

/// What no plant should show.
#[derive(Clone, Copy)]
pub enum Kind {
    /// A write, acknowledged, was done again after another one.
    ExecutedTwice(Exchange),
    /// A request that came again was answered otherwise.
    AnswerChanged(Exchange),
    /// An invoke ID was used for another request while it was open.
    InvokeIdReused(Exchange),
    /// An answer came to a request that nobody made.
    AnswerWithoutRequest(Key),
    /// A request was answered by another station than the one that was asked.
    AnswerOfAnother {
        exchange: Exchange,
        answered: Party,
    },
    /// An answer came after the client had repeated its request, so many microseconds after it began.
    LateAnswer {
        exchange: Exchange,
        time: u64,
    },
    /// A request was never answered.
    Unanswered(Exchange),
    /// An answer took so many microseconds.
    Slow {
        exchange: Exchange,
        time: u64,
    },
    /// Segments were lost, or what acknowledges them.
    SegmentsLost(Key),
    /// More segments were sent than the receiver asked for.
    WindowExceeded {
        key: Key,
        window: u8,
    },
    /// Two stations say that they are the device with this instance.
    TwoAddressesOneInstance {
        instance: u32,
        one: Party,
        other: Party,
    },
    /// Two senders forwarded a broadcast of this origin to the same place.
    BroadcastTwice {
        origin: LinkAddress,
        one: LinkAddress,
        other: LinkAddress,
    },
    /// More than so many broadcasts came within a second.
    BroadcastStorm(u64),
    /// Two routers announce this network.
    TwoRoutersOneNetwork {
        net: u16,
        one: LinkAddress,
        other: LinkAddress,
    },
    /// A message came again and again with falling hop counts.
    MessageCircles {
        sender: LinkAddress,
        hops: u8,
    },
    /// A router refused a message to this network for the reason of this number (6.4.4).
    NoRoute {
        router: Party,
        net: u16,
        reason: u8,
    },
    /// A manager refused to register a foreign device.
    RegistrationRefused {
        device: LinkAddress,
        manager: LinkAddress,
    },
    /// The token of the bus of this interface was lost for so many microseconds.
    TokenLost {
        bus: u32,
        silence: u64,
    },
    /// So many of the frames of the bus of this interface don't spell what they should.
    BadCheck {
        bus: u32,
        bad: u64,
        frames: u64,
    },
    /// A node took so many microseconds for its reply.
    SlowReply {
        node: LinkAddress,
        time: u64,
    },
    /// A header can't be read.
    Malformed {
        from: LinkAddress,
        to: LinkAddress,
        layer: Layer,
        fault: Fault,
    },
    /// So many answers have no request.
    OneSidedCapture {
        strays: u64,
        answers: u64,
    },
}

impl Kind {
    /// Its name.
    pub fn name(&self) -> Name {
        match self {
            Kind::ExecutedTwice(_) => Name::ExecutedTwice,
            Kind::AnswerChanged(_) => Name::AnswerChanged,
            Kind::InvokeIdReused(_) => Name::InvokeIdReused,
            Kind::AnswerWithoutRequest(_) => Name::AnswerWithoutRequest,
            Kind::AnswerOfAnother { .. } => Name::AnswerOfAnother,
            Kind::LateAnswer { .. } => Name::LateAnswer,
            Kind::Unanswered(_) => Name::Unanswered,
            Kind::Slow { .. } => Name::Slow,
            Kind::SegmentsLost(_) => Name::SegmentsLost,
            Kind::WindowExceeded { .. } => Name::WindowExceeded,
            Kind::TwoAddressesOneInstance { .. } => Name::TwoAddressesOneInstance,
            Kind::BroadcastTwice { .. } => Name::BroadcastTwice,
            Kind::BroadcastStorm(_) => Name::BroadcastStorm,
            Kind::TwoRoutersOneNetwork { .. } => Name::TwoRoutersOneNetwork,
            Kind::MessageCircles { .. } => Name::MessageCircles,
            Kind::NoRoute { .. } => Name::NoRoute,
            Kind::RegistrationRefused { .. } => Name::RegistrationRefused,
            Kind::TokenLost { .. } => Name::TokenLost,
            Kind::BadCheck { .. } => Name::BadCheck,
            Kind::SlowReply { .. } => Name::SlowReply,
            Kind::Malformed { .. } => Name::Malformed,
            Kind::OneSidedCapture { .. } => Name::OneSidedCapture,
        }
    }
}

impl fmt::Display for Exchange {
    fn fmt<W: fmt::Write>(&self, f: &mut fmt::Formatter<W>) -> fmt::Result {
        let table = confirmed_services();
        let number = u32::from(self.service);
        write!(f, "{}, {}", Ends(self.key), Named { table, number })?;
        match self.subject.object {
            Some(_) => write!(f, " {}", self.subject),
            None => Ok(()),
        }
    }
}

/// The ends of a transaction, and its invoke ID.
#[derive(Clone, Copy)]
struct Ends(Key);

impl fmt::Display for Ends {
    fn fmt<W: fmt::Write>(&self, f: &mut fmt::Formatter<W>) -> fmt::Result {
        let Key {
            client,
            server,
            invoke_id,
        } = self.0;
        write!(f, "{client} asks {server}, invoke ID {invoke_id}")
    }
}

impl Layer {
    /// The clause of ANSI/ASHRAE 135 that has its headers.
    pub(crate) fn clause(self) -> &'static str {
        match self {
            Layer::Bvll => "J.2",
            Layer::Npdu => "6.2",
            Layer::Apdu => "20.1",
        }
    }
}

impl fmt::Display for Layer {
    fn fmt<W: fmt::Write>(&self, f: &mut fmt::Formatter<W>) -> fmt::Result {
        f.write_str(match self {
            Layer::Bvll => "BVLL",
            Layer::Npdu => "NPDU",
            Layer::Apdu => "APDU",
        })
    }
}

/// Microseconds, in milliseconds with three decimals.
#[derive(Clone, Copy)]
pub struct Milliseconds(pub u64);

impl fmt::Display for Milliseconds {
    fn fmt<W: fmt::Write>(&self, f: &mut fmt::Formatter<W>) -> fmt::Result {
        write!(f, "{}.{:03} ms", self.0 / 1000, self.0 % 1000)
    }
}

impl fmt::Display for Kind {
    fn fmt<W: fmt::Write>(&self, f: &mut fmt::Formatter<W>) -> fmt::Result {
        match self {
            Kind::ExecutedTwice(exchange)
            | Kind::AnswerChanged(exchange)
            | Kind::InvokeIdReused(exchange)
            | Kind::Unanswered(exchange) => write!(f, "{exchange}"),
            Kind::AnswerOfAnother { exchange, answered } => {
                write!(f, "{exchange}, and {answered} answers")
            }
            Kind::LateAnswer { exchange, time } | Kind::Slow { exchange, time } => {
                write!(f, "{exchange}, {}", Milliseconds(*time))
            }
            Kind::AnswerWithoutRequest(key) => {
                let Key { client, server, .. } = key;
                write!(f, "{server} answers {client}, invoke ID {}", key.invoke_id)
            }
            Kind::SegmentsLost(key) => write!(f, "{}", Ends(*key)),
            Kind::WindowExceeded { key, window } => write!(f, "{}, window {window}", Ends(*key)),
            Kind::OneSidedCapture { strays, answers } => {
                write!(f, "{strays} of {answers} answers have no request")
            }
            Kind::Malformed { .. }
            | Kind::TwoAddressesOneInstance { .. }
            | Kind::BroadcastTwice { .. }
            | Kind::BroadcastStorm(_)
            | Kind::TwoRoutersOneNetwork { .. }
            | Kind::MessageCircles { .. }
            | Kind::NoRoute { .. }
            | Kind::RegistrationRefused { .. }
            | Kind::TokenLost { .. }
            | Kind::BadCheck { .. }
            | Kind::SlowReply { .. } => write_of_links(self, f),
        }
    }
}

/// Writes what is found of links and networks.
fn write_of_links<W: fmt::Write>(kind: &Kind, f: &mut fmt::Formatter<W>) -> fmt::Result {
    match kind {
        Kind::TwoAddressesOneInstance {
            instance,
            one,
            other,
        } => write!(f, "device,{instance} at {one} and {other}"),
        Kind::BroadcastTwice { origin, one, other } => {
            write!(f, "of {origin}, forwarded by {one} and {other}")
        }
        Kind::BroadcastStorm(count) => write!(f, "more than {count} broadcasts within a second"),
        Kind::TwoRoutersOneNetwork { net, one, other } => {
            write!(f, "network {net} by {one} and {other}")
        }
        Kind::MessageCircles { sender, hops } => write!(f, "by {sender}, hop count {hops}"),
        Kind::NoRoute {
            router,
            net,
            reason,
        } => write!(f, "to network {net}, by {router}, reason {reason}"),
        Kind::RegistrationRefused { device, manager } => write!(f, "of {device} by {manager}"),
        _ => write_of_frames(kind, f),
    }
}

/// Writes what is found of frames, and of headers.
fn write_of_frames<W: fmt::Write>(kind: &Kind, f: &mut fmt::Formatter<W>) -> fmt::Result {
    match kind {
        Kind::TokenLost { bus, silence } => {
            write!(f, "on bus{bus}, silent for {}", Milliseconds(*silence))
        }
        Kind::BadCheck { bus, bad, frames } => write!(f, "on bus{bus}, {bad} of {frames} frames"),
        Kind::SlowReply { node, time } => write!(f, "of {node}, {}", Milliseconds(*time)),
        Kind::Malformed {
            from,
            to,
            layer,
            fault,
        } => write!(f, "from {from} to {to}, {layer} {fault}"),
        _ => Ok(()),
    }
}
