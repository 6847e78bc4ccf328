//! What a transaction shows, beside its times.

use crate::strays::Stray;
use diagnosis_parts::{At, Before, Key, Transaction};
use findings::{Exchange, Finding, Kind, Packets};

/// The services that only read (13.6 to 13.8, 13.12, 14.1, 15.5 to 15.8): GetAlarmSummary, GetEnrollmentSummary,
/// AtomicReadFile, ReadProperty, ReadPropertyConditional, ReadPropertyMultiple, ReadRange and GetEventInformation.
const READS: [u8; 8] = [3, 4, 6, 12, 13, 14, 26, 29];

/// The request of a transaction.
pub(crate) fn exchange_of(key: Key, known: &Transaction) -> Exchange {
    Exchange {
        key,
        service: known.service,
        subject: known.subject,
    }
}

/// What is kept of a transaction that was answered, for one with the same request.
pub(crate) fn before_of(known: &Transaction) -> Option<Before> {
    Some(Before {
        first: known.first,
        answer: known.answer?,
    })
}

/// The packets that show another answer to a request that came again than the one before, but to one that only reads.
pub(crate) fn packets_of_change(
    known: &Transaction,
    contents: Option<u64>,
    at: At,
) -> Option<Packets> {
    if READS.contains(&known.service) {
        return None;
    }
    let (first, again, answer) = match (known.answer, known.before) {
        (Some(answer), _) if known.repeats != 0 => (known.first, known.said, answer),
        (None, Some(before)) => (before.first, known.first, before.answer),
        (Some(_), _) | (None, None) => return None,
    };
    if answer.contents? == contents? {
        return None;
    }
    let mut packets = Packets::three(first, answer.packet, at.packet);
    if again < answer.packet {
        packets.second = again;
        packets.third = answer.packet;
    } else {
        packets.third = again;
    }
    packets.fourth = at.packet;
    Some(packets)
}

/// A request that wasn't answered, or only by another station.
pub(crate) fn unanswered(key: Key, known: &Transaction, stray: Option<Stray>) -> Finding {
    let exchange = exchange_of(key, known);
    let again = if known.said == known.first {
        0
    } else {
        known.said
    };
    match stray {
        Some(stray) => Finding {
            kind: Kind::AnswerOfAnother {
                exchange,
                answered: stray.from,
            },
            packets: Packets::two(known.first, stray.packet),
        },
        None => Finding {
            kind: Kind::Unanswered(exchange),
            packets: Packets::two(known.first, again),
        },
    }
}
