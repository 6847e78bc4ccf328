//! What becomes of a datagram.

use std::fmt;

/// How long a datagram is on its way that nothing delays, at most, in milliseconds.
const PROMPT_MS: u64 = 1;

/// How often a datagram was received, and how many milliseconds after it was sent first.
#[derive(Clone, Copy, Debug, PartialEq, Eq)]
pub(crate) struct Fate {
    deliveries: u64,
    after: u64,
}

impl Fate {
    /// It was never received.
    pub(crate) fn lost() -> Self {
        Fate {
            deliveries: 0,
            after: 0,
        }
    }

    /// The same, received once more, so many milliseconds after it was sent.
    pub(crate) fn received(self, after: u64) -> Self {
        Fate {
            deliveries: self.deliveries.saturating_add(1),
            after: if self.deliveries == 0 {
                after
            } else {
                self.after
            },
        }
    }
}

/// The comment on it: `never received`, `received 700 ms later`, `received 2 times`; nothing where it was received
/// once, at once.
impl fmt::Display for Fate {
    fn fmt<W: fmt::Write>(&self, f: &mut fmt::Formatter<W>) -> fmt::Result {
        let Fate { deliveries, after } = *self;
        if deliveries == 0 {
            return f.write_str("never received");
        }
        if after > PROMPT_MS {
            write!(f, "received {after} ms later")?;
        }
        if deliveries < 2 {
            return Ok(());
        }
        let comma = if after > PROMPT_MS { ", " } else { "" };
        write!(f, "{comma}received {deliveries} times")
    }
}
