//! What came of what a script expects.

use crate::refusals::Refusals;
use crate::seen::Seen;
use primitives::{PropertyReference, Reply, Request};
use site_history::{EntryLine, RefusedLine};
use std::alloc::{AllocError, Allocator};
use std::io;
use std::io::Write;
use std::marker::Model;
use tags::ObjectId;
use verdicts::{Expectation, IssueRef, holds, issue_number, last_told};
use words::{ReplyTo, Spelling};

/// What came of an expectation.
#[derive(Drop)]
pub struct Verdict<A: Allocator> {
    /// The number of the script's line, if a line expects it.
    pub line: Option<u64>,
    /// What is expected, as a script says it with the standard's names.
    pub expected: String<A>,
    /// What there was instead, where it didn't hold.
    pub found: Option<String<A>>,
}

/// What came of all expectations so far, in their order. A contract sees whether one is unmet.
#[derive(Drop)]
pub struct Verdicts<A: Allocator> {
    all: Vec<Verdict<A>, A>,
    is_unmet: bool,
}

impl<A: Allocator> Model for Verdicts<A> {
    ghost use Rattle.std.specs.Prelude.{Bool};

    ghost Value = { Bool };

    ghost view = { λ v. v.is_unmet };
}

impl<A: Allocator + Copy> Verdicts<A> {
    ghost use Rattle.std.specs.Prelude.{◌≡◌, OnOk, false, option_map, true};
    ghost use Rattle.site_verdicts.specs.Judged.{IsJudgedBy};

    /// None.
    pub fn new(alloc: A) -> Self
        ensures { result ≡ false }
    {
        Verdicts {
            all: Vec::new(alloc),
            is_unmet: false,
        }
    }

    /// Each of them, in the order in which they were judged.
    pub fn as_slice(&self) -> &[Verdict<A>] {
        self.all.as_slice()
    }

    /// Whether one of them didn't hold.
    pub fn is_unmet(&self) -> bool
        ensures { result ≡ self.now }
    {
        self.is_unmet
    }

    /// Judges what is expected, by the line of this number if one does, of what was seen so far.
    ///
    /// # Errors
    /// Want of memory.
    #[tactic(auto, using(crate::proofs::JudgeLaws::judge_laws))]
    pub fn judge(
        &mut self,
        expected: &Expectation<A>,
        line: Option<u64>,
        seen: Seen<'_, A>,
    ) -> Result<(), AllocError>
        ensures { OnOk result (IsJudgedBy expected.now seen.entry.history.now seen.entry.refusals.count
            (option_map (λ r. r.now) seen.entry.read) self.old self.new) }
    {
        if holds(expected, seen.history, seen.refusals.count, seen.read) {
            self.put_met(line, expected)?;
            return Ok(());
        }
        let alloc = *self.all.allocator();
        let found = found_in(alloc, expected, seen)?;
        self.put_unmet(line, expected, found)?;
        Ok(())
    }

    /// Puts that an expectation held behind the others.
    fn put_met(&mut self, line: Option<u64>, expected: &Expectation<A>) -> Result<(), AllocError>
        ensures { OnOk result (self.new ≡ self.old) }
    {
        let expected = self.text_of(expected)?;
        self.all.push(Verdict {
            line,
            expected,
            found: None,
        })?;
        Ok(())
    }

    /// Puts that one didn't, and what there was instead.
    fn put_unmet(
        &mut self,
        line: Option<u64>,
        expected: &Expectation<A>,
        found: String<A>,
    ) -> Result<(), AllocError>
        ensures { OnOk result (self.new ≡ true) }
    {
        let expected = self.text_of(expected)?;
        self.all.push(Verdict {
            line,
            expected,
            found: Some(found),
        })?;
        self.is_unmet = true;
        Ok(())
    }

    /// An expectation, as a script says it.
    fn text_of(&self, expected: &Expectation<A>) -> Result<String<A>, AllocError> {
        let alloc = *self.all.allocator();
        format!(in alloc; "{expected}")
    }

    /// Tells on `err`, each on a line, which didn't hold and what there was instead, with the name of the script's file
    /// where it is known, as `plant.script:7: expect answered 3 done; found 12000 ended 3 timedout`.
    ///
    /// # Errors
    /// Those of writing.
    pub fn tell_unmet<E: Write>(&self, script: Option<&str>, err: &mut E) -> io::Result<()> {
        for verdict in self.all.as_slice() {
            if let Some(found) = &verdict.found {
                tell_place(script, verdict.line, err)?;
                writeln!(err, "{}; found {}", verdict.expected, found)?;
            }
        }
        Ok(())
    }
}

/// Tells where a script expects something.
fn tell_place<E: Write>(script: Option<&str>, line: Option<u64>, err: &mut E) -> io::Result<()> {
    match (script, line) {
        (Some(name), Some(line)) => write!(err, "{name}:{line}: "),
        (Some(name), None) => write!(err, "{name}: "),
        (None, Some(line)) => write!(err, "bacsite: script line {line}: "),
        (None, None) => write!(err, "bacsite: "),
    }
}

/// What there is instead of what is expected.
fn found_in<A: Allocator + Copy>(
    alloc: A,
    expected: &Expectation<A>,
    seen: Seen<'_, A>,
) -> Result<String<A>, AllocError> {
    match expected {
        Expectation::Closed { issue, .. } | Expectation::Executed { issue, .. } => {
            told_in(alloc, *issue, seen)
        }
        Expectation::Reads {
            object,
            property,
            ..
        } => read_in(alloc, *object, *property, seen.read),
        Expectation::NoneRefused => refused_in(alloc, seen.refusals),
    }
}

/// What was last told of a request.
fn told_in<A: Allocator + Copy>(
    alloc: A,
    issue: IssueRef,
    seen: Seen<'_, A>,
) -> Result<String<A>, AllocError> {
    let Some(number) = issue_number(issue, seen.history) else {
        return format!(in alloc; "no request");
    };
    match last_told(number, seen.history) {
        Some(entry) => {
            let entry = EntryLine {
                entry,
                history: seen.history,
                stations: seen.stations,
                spelling: Spelling::Names,
            };
            format!(in alloc; "{entry}")
        }
        None => format!(in alloc; "no request {number}"),
    }
}

/// What a property reads.
fn read_in<A: Allocator + Copy>(
    alloc: A,
    object: ObjectId,
    property: PropertyReference,
    read: Option<&Reply<A>>,
) -> Result<String<A>, AllocError> {
    let Some(reply) = read else {
        return format!(in alloc; "no device of this name");
    };
    let PropertyReference { property, index } = property;
    let request = Request::Read {
        object,
        property,
        index,
    };
    reply_in(alloc, &request, reply)
}

/// A reply to this request.
fn reply_in<'a, A: Allocator + Copy>(
    alloc: A,
    request: &'a Request<A>,
    reply: &'a Reply<A>,
) -> Result<String<A>, AllocError> {
    let asked = Some(request);
    let reply = ReplyTo {
        spelling: Spelling::Names,
        asked,
        reply,
    };
    format!(in alloc; "{reply}")
}

/// The first refusal, and how many there were.
fn refused_in<A: Allocator + Copy>(alloc: A, refusals: Refusals) -> Result<String<A>, AllocError> {
    let Some(first) = refusals.first else {
        return format!(in alloc; "nothing refused");
    };
    let line = RefusedLine {
        fault: first.fault,
        moment: first.moment,
    };
    match (first.line, refusals.count) {
        (Some(number), 1) => format!(in alloc; "{line} of line {number}"),
        (Some(number), count) => {
            format!(in alloc; "{line} of line {number}, the first of {count}")
        }
        (None, 1) => format!(in alloc; "{line}"),
        (None, count) => format!(in alloc; "{line}, the first of {count}"),
    }
}
