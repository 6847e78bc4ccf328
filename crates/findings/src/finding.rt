//! A finding: what no plant should show, and the packets that show it.

use crate::kind::Kind;
use crate::meaning::{clause_of, meaning_of};
use crate::packets::Packets;
use std::fmt;

/// What no plant should show, and the packets that show it.
#[derive(Clone, Copy)]
pub struct Finding {
    pub kind: Kind,
    pub packets: Packets,
}

impl Finding {
    /// What it means in the plant, and what to look at first.
    pub fn meaning(&self) -> &'static str {
        meaning_of(self.kind.name())
    }
}

/// The name, the packets by their numbers, the standard's clause, and whom it is about.
impl fmt::Display for Finding {
    fn fmt<W: fmt::Write>(&self, f: &mut fmt::Formatter<W>) -> fmt::Result {
        let name = self.kind.name();
        let clause = clause_of(&self.kind);
        write!(f, "{name}, {} ({clause}): {}", self.packets, self.kind)
    }
}
