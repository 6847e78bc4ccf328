//! The types of network messages.

ghost use Rattle.std.specs.Prelude.{◌≡◌, ◌≢◌, ◌↔◌, IsTrue, MatchResult};
ghost use Rattle.npdu.specs.Message.{IsMessage, message_type, reason_number};
ghost use Rattle.tags.specs.declared.fault.Fault.TheVariants.{NoSuch};

use tags::Fault;

/// The type of a network message (6.2.4).
#[derive(Clone, Copy, Debug, PartialEq, Eq)]
pub enum Message {
    /// Type 0: who has a route to a network, or to any.
    WhoIsRouterToNetwork,
    /// Type 1: the networks that are reached through the sender.
    IAmRouterToNetwork,
    /// Type 3: a message was not passed on, for a `NetworkRejectReason`.
    RejectMessageToNetwork,
    /// Another type of the standard's range, 2 or 4..=127.
    Other(u8),
    /// A vendor's own type, 128..=255, and the vendor's identifier.
    Proprietary { kind: u8, vendor: u16 },
}

impl From<Message> for u8 {
    ghost from_gives = { λ message n. n ≡ message_type message };

    fn from(message: Message) -> u8 {
        match message {
            Message::WhoIsRouterToNetwork => 0,
            Message::IAmRouterToNetwork => 1,
            Message::RejectMessageToNetwork => 3,
            Message::Other(kind) => kind,
            Message::Proprietary { kind, vendor: _ } => kind,
        }
    }
}

impl Message {
    pub(crate) fn is_sound(self) -> bool
        ensures { IsTrue result ↔ IsMessage self }
    {
        match self {
            Message::Other(kind) => kind < 128 && kind != 0 && kind != 1 && kind != 3,
            Message::Proprietary { kind, vendor: _ } => 128 <= kind,
            Message::WhoIsRouterToNetwork
            | Message::IAmRouterToNetwork
            | Message::RejectMessageToNetwork => true,
        }
    }
}

/// Why a router did not pass a message on (6.4.4).
#[derive(Clone, Copy, Debug, PartialEq, Eq)]
pub enum NetworkRejectReason {
    /// No route to the network is known.
    NoRoute = 1,
    /// The type of the network message is not known.
    UnknownMessageType = 3,
    /// The message is too long for the next network.
    TooLong = 4,
}

impl From<NetworkRejectReason> for u8 {
    ghost from_gives = { λ reason n. n ≡ reason_number reason };

    fn from(reason: NetworkRejectReason) -> u8 {
        reason as u8
    }
}

impl TryFrom<u8> for NetworkRejectReason {
    type Error = Fault;

    ghost try_from_gives = { λ n r. MatchResult r (λ reason. reason_number reason ≡ n)
        (λ fault. (fault ≡ NoSuch) × (n ≢ 1) × (n ≢ 3) × (n ≢ 4)) };

    fn try_from(number: u8) -> Result<NetworkRejectReason, Fault> {
        match number {
            1 => Ok(NetworkRejectReason::NoRoute),
            3 => Ok(NetworkRejectReason::UnknownMessageType),
            4 => Ok(NetworkRejectReason::TooLong),
            _ => Err(Fault::NoSuch),
        }
    }
}
