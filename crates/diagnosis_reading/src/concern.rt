//! Whom a finding is about.

use diagnosis_parts::{Key, LinkAddress, Party};
use findings::Kind;
use packet_choice::Excerpt;

/// Whom a finding is about.
#[derive(Clone, Copy)]
enum Concern {
    /// All stations.
    All,
    One(Party),
    Two(Party, Party),
    Three(Party, Party, Party),
}

/// Whether a finding is asked for: it is about the station or the two stations that are named, if any are.
pub(crate) fn is_asked(kind: &Kind, excerpt: Excerpt<'_>) -> bool {
    if !excerpt.is_of_stations() {
        return true;
    }
    match concern_of(kind) {
        Concern::All => false,
        Concern::One(one) => excerpt.is_asked_of(one, None),
        Concern::Two(one, other) => excerpt.is_asked_of(one, Some(other)),
        Concern::Three(one, other, third) => {
            excerpt.is_asked_of(one, Some(other))
                || excerpt.is_asked_of(one, Some(third))
                || excerpt.is_asked_of(other, Some(third))
        }
    }
}

/// Whom a finding is about.
fn concern_of(kind: &Kind) -> Concern {
    match kind {
        Kind::ExecutedTwice(exchange)
        | Kind::AnswerChanged(exchange)
        | Kind::InvokeIdReused(exchange)
        | Kind::Unanswered(exchange)
        | Kind::LateAnswer { exchange, .. }
        | Kind::Slow { exchange, .. } => ends_of(exchange.key),
        Kind::AnswerOfAnother { exchange, answered } => {
            Concern::Three(exchange.key.client, exchange.key.server, *answered)
        }
        Kind::AnswerWithoutRequest(key)
        | Kind::SegmentsLost(key)
        | Kind::WindowExceeded { key, .. } => ends_of(*key),
        Kind::TwoAddressesOneInstance { one, other, .. } => Concern::Two(*one, *other),
        Kind::BroadcastTwice { origin, one, other } => {
            Concern::Three(on_link(*origin), on_link(*one), on_link(*other))
        }
        Kind::TwoRoutersOneNetwork { one, other, .. } => {
            Concern::Two(on_link(*one), on_link(*other))
        }
        Kind::MessageCircles { sender, .. } => Concern::One(on_link(*sender)),
        Kind::NoRoute { router, .. } => Concern::One(*router),
        Kind::RegistrationRefused { device, manager } => {
            Concern::Two(on_link(*device), on_link(*manager))
        }
        Kind::SlowReply { node, .. } => Concern::One(on_link(*node)),
        Kind::Malformed { from, to, .. } => Concern::Two(on_link(*from), on_link(*to)),
        Kind::BroadcastStorm(_)
        | Kind::TokenLost { .. }
        | Kind::BadCheck { .. }
        | Kind::OneSidedCapture { .. } => Concern::All,
    }
}

/// The client and the server of a transaction.
fn ends_of(key: Key) -> Concern {
    Concern::Two(key.client, key.server)
}

/// The station at an address on a link.
fn on_link(link: LinkAddress) -> Party {
    Party { link, remote: None }
}
