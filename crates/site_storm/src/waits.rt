//! How long clients waited for answers.

ghost use Rattle.std.specs.Prelude.{◌≡◌};
ghost use Rattle.site_storm.specs.Waits as spec;

use history::Entry;
use site_run::WorldEntry;
use std::alloc::{AllocError, Allocator};
use std::marker::Model;

/// An issue that has no closing entry yet.
#[derive(Clone, Copy, Debug, PartialEq, Eq)]
pub(crate) struct OpenIssue {
    pub(crate) number: u64,
    /// The moment of it, in milliseconds.
    pub(crate) moment: u64,
}

/// The moment of the issue of a number among these, in milliseconds, if it is there.
fn moment_of(issues: &[OpenIssue], number: u64) -> Option<u64>
    ensures { result ≡ spec.moment_of number issues.now }
{
    let mut left = issues;
    while let [first, rest @ ..] = left {
        if first.number == number {
            return Some(first.moment);
        }
        left = rest;
    }
    None
}

/// Leaves the issues that have another number.
fn close<A: Allocator>(issues: &mut Vec<OpenIssue, A>, number: u64)
    ensures { issues.new.items ≡ spec.without number issues.old.items }
{
    issues.retain(|issue| issue.number != number);
}

/// The time from an issue, if there is one, to a moment, in milliseconds.
fn since(issued: Option<u64>, moment: u64) -> u64
    ensures { result ≡ spec.since issued moment }
{
    match issued {
        Some(issued) => moment.saturating_sub(issued),
        None => 0,
    }
}

/// How long clients waited, as far as entries were counted: the moment of each issue is kept until an entry closes it.
#[derive(Drop)]
pub(crate) struct Waits<A: Allocator> {
    /// The open issues, in order.
    issues: Vec<OpenIssue, A>,
    /// The longest time from an issue to its answer, in milliseconds.
    greatest: u64,
}

impl<A: Allocator> Model for Waits<A> {
    ghost use Rattle.site_storm.specs.Waits.{WaitsState};

    ghost Value = { WaitsState };

    ghost view = { λ w. record { issues = w.issues.items; greatest = w.greatest } };
}

impl<A: Allocator> Waits<A> {
    ghost use Rattle.std.specs.Prelude.{◌≡◌, OnOk};
    ghost use Rattle.site_storm.specs.Waits as spec;

    /// No entry was counted. It takes no memory yet.
    pub(crate) fn new(alloc: A) -> Self
        ensures { result ≡ spec.no_waits }
    {
        Waits {
            issues: Vec::new(alloc),
            greatest: 0,
        }
    }

    /// The longest time from an issue to its answer, in milliseconds.
    pub(crate) fn greatest(&self) -> u64
        ensures { result ≡ self.now.greatest }
    {
        self.greatest
    }

    /// A request is issued.
    fn issue(&mut self, number: u64, moment: u64) -> Result<(), AllocError>
        ensures { OnOk result (self.new ≡ spec.with_issue number moment self.old) }
    {
        self.issues.push(OpenIssue { number, moment })?;
        Ok(())
    }

    /// An issue is answered.
    fn answer(&mut self, number: u64, moment: u64)
        ensures { self.new ≡ spec.with_answer number moment self.old }
    {
        let issued = moment_of(self.issues.as_slice(), number);
        self.greatest = since(issued, moment).max(self.greatest);
        close(&mut self.issues, number);
    }

    /// An issue ends without an answer.
    fn end(&mut self, number: u64)
        ensures { self.new ≡ spec.with_end number self.old }
    {
        close(&mut self.issues, number);
    }

    /// Counts an entry.
    fn take(&mut self, entry: &WorldEntry<A>) -> Result<(), AllocError>
        ensures { OnOk result (self.new ≡ spec.waits_after entry.now self.old) }
    {
        match entry {
            Entry::Issue { number, moment, .. } => self.issue(*number, *moment),
            Entry::Answered { number, moment, .. } => {
                self.answer(*number, *moment);
                Ok(())
            }
            Entry::Ended { number, .. } => {
                self.end(*number);
                Ok(())
            }
            Entry::Executed { .. } | Entry::Restarted { .. } => Ok(()),
        }
    }

    /// Counts entries, in order.
    ///
    /// # Errors
    /// Want of memory. Some of them may then be counted.
    pub(crate) fn count(&mut self, entries: &[WorldEntry<A>]) -> Result<(), AllocError>
        ensures { OnOk result (self.new ≡ spec.all_waits entries.now self.old) }
    {
        for entry in entries {
            self.take(entry)?;
        }
        Ok(())
    }
}
