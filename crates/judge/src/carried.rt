//! Whether what was put out was said, and is heard in time.

use crate::message::{Message, Sent, message_in};
use thiserror::Error;

/// For how many milliseconds a message is heard. It stands here once more, since a judge takes no measure of whom it
/// judges.
const LIFE_MS: u64 = 1000;

/// What has something inside that nobody said. Its place counts from 0.
#[derive(Clone, Copy, Debug, PartialEq, Eq, Error)]
#[error("what is inside number {place} was not said so")]
pub struct Unsaid {
    pub place: usize,
}

/// Judges what was put out by what was said: where it has something inside, that was said, by that station, to that
/// destination, octet for octet, and with its stamp. Tells how many have something inside.
///
/// # Errors
/// The first that was not said so.
pub fn judge_carry(said: &[Message<'_>], sent: &[Sent<'_>]) -> Result<usize, Unsaid> {
    let mut inside = 0usize;
    for (place, one) in sent.iter().enumerate() {
        if let Some(message) = message_in(one) {
            if !said.iter().any(|known| *known == message) {
                return Err(Unsaid { place });
            }
            inside = inside.saturating_add(1);
        }
    }
    Ok(inside)
}

/// Whether a message with this stamp may be heard at the moment `now`, in milliseconds: at most 1000 after it was said.
pub fn is_in_time(stamp: u64, now: u64) -> bool {
    now.saturating_sub(stamp) <= LIFE_MS
}
