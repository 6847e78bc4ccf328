//! What there was of all.

use history::{End, Entry};
use simulator::{World, WorldEntry};
use std::alloc::Allocator;
use std::fmt;
use tags::Fault;

/// Counts one more.
pub(crate) fn raise(count: &mut u64) {
    *count = count.saturating_add(1);
}

/// How many events were refused, by the cause.
#[derive(Clone, Copy, Debug, Default)]
pub(crate) struct Refused {
    no_invoke_id: u64,
    unbound: u64,
    no_route: u64,
    expired: u64,
    forged: u64,
    no_such: u64,
    other: u64,
}

impl Refused {
    /// One more is refused.
    fn add(&mut self, fault: Fault) {
        match fault {
            Fault::NoInvokeId => raise(&mut self.no_invoke_id),
            Fault::Unbound => raise(&mut self.unbound),
            Fault::NoRoute => raise(&mut self.no_route),
            Fault::Expired => raise(&mut self.expired),
            Fault::Forged => raise(&mut self.forged),
            Fault::NoSuch => raise(&mut self.no_such),
            Fault::Memory
            | Fault::Short
            | Fault::BadTag
            | Fault::BadLength
            | Fault::BadVersion
            | Fault::TooLong
            | Fault::TableFull
            | Fault::Wire
            | Fault::BadSite => raise(&mut self.other),
        }
    }
}

impl fmt::Display for Refused {
    fn fmt<W: fmt::Write>(&self, f: &mut fmt::Formatter<W>) -> fmt::Result {
        write!(
            f,
            "{} NoInvokeId, {} Unbound, {} NoRoute, {} Expired, {} Forged, {} NoSuch, {} others",
            self.no_invoke_id,
            self.unbound,
            self.no_route,
            self.expired,
            self.forged,
            self.no_such,
            self.other
        )
    }
}

/// How many entries of each kind histories had.
#[derive(Clone, Copy, Debug, Default)]
pub(crate) struct Entries {
    issued: u64,
    executed: u64,
    answered: u64,
    timed_out: u64,
    aborted: u64,
    rejected: u64,
    restarted: u64,
}

impl Entries {
    /// One more entry.
    fn add<A: Allocator + Copy>(&mut self, entry: &WorldEntry<A>) {
        match entry {
            Entry::Issue { .. } => raise(&mut self.issued),
            Entry::Executed { .. } => raise(&mut self.executed),
            Entry::Answered { .. } => raise(&mut self.answered),
            Entry::Ended {
                why: End::TimedOut,
                ..
            } => raise(&mut self.timed_out),
            Entry::Ended {
                why: End::Aborted { .. },
                ..
            } => raise(&mut self.aborted),
            Entry::Ended {
                why: End::Rejected { .. },
                ..
            } => raise(&mut self.rejected),
            Entry::Restarted { .. } => raise(&mut self.restarted),
        }
    }
}

impl fmt::Display for Entries {
    fn fmt<W: fmt::Write>(&self, f: &mut fmt::Formatter<W>) -> fmt::Result {
        write!(
            f,
            "{} issued, {} executed, {} answered, {} timed out, {} aborted, {} rejected, {} restarted",
            self.issued,
            self.executed,
            self.answered,
            self.timed_out,
            self.aborted,
            self.rejected,
            self.restarted
        )
    }
}

/// What there was of all in the storms at a site.
#[derive(Clone, Copy, Debug, Default)]
pub(crate) struct Counts {
    storms: u64,
    legal: u64,
    made: u64,
    refused: Refused,
    entries: Entries,
    said: u64,
    items: u64,
    frames: u64,
    carried: u64,
}

impl Counts {
    /// A storm begins.
    pub(crate) fn begin(&mut self) {
        raise(&mut self.storms);
    }

    /// The judge found the history of a storm legal.
    pub(crate) fn find_legal(&mut self) {
        raise(&mut self.legal);
    }

    /// An event was made.
    pub(crate) fn make(&mut self) {
        raise(&mut self.made);
    }

    /// An event was refused.
    pub(crate) fn refuse(&mut self, fault: Fault) {
        self.refused.add(fault);
    }

    /// So many frames were judged when they were put out, and so many of them have something inside.
    pub(crate) fn judge_frames(&mut self, frames: usize, inside: usize) {
        self.frames = self.frames.saturating_add(frames as u64);
        self.carried = self.carried.saturating_add(inside as u64);
    }

    /// A storm is over: its world was judged, and so many items have something inside.
    pub(crate) fn end<A: Allocator + Copy>(&mut self, world: &World<A>, inside: usize) {
        self.said = self.said.saturating_add(world.said().len() as u64);
        self.items = self.items.saturating_add(world.items().len() as u64);
        self.carried = self.carried.saturating_add(inside as u64);
        for entry in world.history() {
            self.entries.add(entry);
        }
    }
}

impl fmt::Display for Counts {
    fn fmt<W: fmt::Write>(&self, f: &mut fmt::Formatter<W>) -> fmt::Result {
        writeln!(
            f,
            "{} storms, {} histories legal; {} events made, refused {}",
            self.storms, self.legal, self.made, self.refused
        )?;
        writeln!(f, "  {}", self.entries)?;
        writeln!(
            f,
            "  {} messages said; {} datagrams and {} frames judged, {} with a message inside",
            self.said, self.items, self.frames, self.carried
        )
    }
}
