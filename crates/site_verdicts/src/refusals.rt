//! What was refused in a run so far.

use tags::Fault;

/// A refusal.
#[derive(Clone, Copy, Debug, PartialEq, Eq)]
pub(crate) struct Refusal {
    pub(crate) fault: Fault,
    /// In milliseconds.
    pub(crate) moment: u64,
    /// The number of the script's line, if a line asked for what was refused.
    pub(crate) line: Option<u64>,
}

/// How many events and flows were refused, and the first of them.
#[derive(Clone, Copy, Debug, PartialEq, Eq)]
pub struct Refusals {
    pub count: u64,
    pub(crate) first: Option<Refusal>,
}

impl Refusals {
    /// None.
    pub fn none() -> Refusals {
        Refusals {
            count: 0,
            first: None,
        }
    }

    /// One more, at a moment in milliseconds, of what a line of this number asked for, if one did.
    pub fn put(&mut self, fault: Fault, moment: u64, line: Option<u64>) {
        self.count = self.count.saturating_add(1);
        if self.first.is_none() {
            self.first = Some(Refusal {
                fault,
                moment,
                line,
            });
        }
    }
}
