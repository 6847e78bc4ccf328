//! What there was of all, in one line.

ghost use Rattle.std.specs.Prelude.{◌≡◌, Some, IfOk, IfSome};
ghost use Rattle.std.specs.Fmt.{WritesOnOk};
ghost use Rattle.site_run.specs.simulator.carry_world.Laws.{IsLegal};
ghost use Rattle.site_run.specs.simulator.Judged.{instances_of, judged_of};
ghost use Rattle.site_storm.specs.Counting as spec;

use crate::waits::Waits;
use apdu::PduType;
use history::{End, Entry};
use site_run::{World, WorldEntry};
use std::alloc::{AllocError, Allocator};
use std::fmt;
use storm::SaidMessage;

/// The kinds of entries that are counted.
#[derive(Clone, Copy, Debug, PartialEq, Eq)]
pub(crate) enum Kind {
    Issue,
    Executed,
    Answered,
    TimedOut,
    Aborted,
    Rejected,
    Restarted,
}

/// How many entries of each kind a history has.
#[derive(Clone, Copy, Debug, PartialEq, Eq)]
pub struct OutcomeCounts {
    pub issues: usize,
    pub answered: usize,
    pub timed_out: usize,
    pub aborted: usize,
    pub rejected: usize,
    pub executed: usize,
    pub restarts: usize,
}

impl OutcomeCounts {
    /// Returns the counts of no entry.
    pub(crate) fn none() -> Self
        ensures { result ≡ spec.no_outcomes }
    {
        OutcomeCounts {
            issues: 0,
            answered: 0,
            timed_out: 0,
            aborted: 0,
            rejected: 0,
            executed: 0,
            restarts: 0,
        }
    }

    /// Returns these counts with others, or none where there are too many to be counted.
    pub(crate) fn with(self, more: OutcomeCounts) -> Option<Self>
        ensures { IfSome result (λ counts. counts ≡ spec.outcomes_with self more) }
    {
        Some(OutcomeCounts {
            issues: self.issues.checked_add(more.issues)?,
            answered: self.answered.checked_add(more.answered)?,
            timed_out: self.timed_out.checked_add(more.timed_out)?,
            aborted: self.aborted.checked_add(more.aborted)?,
            rejected: self.rejected.checked_add(more.rejected)?,
            executed: self.executed.checked_add(more.executed)?,
            restarts: self.restarts.checked_add(more.restarts)?,
        })
    }
}

/// How many messages of each type were said (20.1).
#[derive(Clone, Copy, Debug, PartialEq, Eq)]
pub struct MessageCounts {
    pub confirmed: usize,
    pub unconfirmed: usize,
    pub simple_ack: usize,
    pub complex_ack: usize,
    pub segment_ack: usize,
    pub error: usize,
    pub reject: usize,
    pub abort: usize,
}

impl MessageCounts {
    /// Returns the counts of no message.
    pub(crate) fn none() -> Self
        ensures { result ≡ spec.no_messages }
    {
        MessageCounts {
            confirmed: 0,
            unconfirmed: 0,
            simple_ack: 0,
            complex_ack: 0,
            segment_ack: 0,
            error: 0,
            reject: 0,
            abort: 0,
        }
    }

    /// Returns these counts with others, or none where there are too many to be counted.
    pub(crate) fn with(self, more: MessageCounts) -> Option<Self>
        ensures { IfSome result (λ counts. counts ≡ spec.messages_with self more) }
    {
        Some(MessageCounts {
            confirmed: self.confirmed.checked_add(more.confirmed)?,
            unconfirmed: self.unconfirmed.checked_add(more.unconfirmed)?,
            simple_ack: self.simple_ack.checked_add(more.simple_ack)?,
            complex_ack: self.complex_ack.checked_add(more.complex_ack)?,
            segment_ack: self.segment_ack.checked_add(more.segment_ack)?,
            error: self.error.checked_add(more.error)?,
            reject: self.reject.checked_add(more.reject)?,
            abort: self.abort.checked_add(more.abort)?,
        })
    }
}

/// What there was of all in a world.
#[derive(Clone, Copy, Debug, PartialEq, Eq)]
pub struct Counts {
    pub outcomes: OutcomeCounts,
    pub messages: MessageCounts,
    /// How many datagrams were put out.
    pub datagrams: usize,
    /// How many frames were put out on buses.
    pub frames: u64,
    /// The moment, in milliseconds from the beginning.
    pub moment: u64,
    /// The longest time from an issue to its answer, in milliseconds.
    pub wait: u64,
}

/// Whether an entry is of a kind.
fn is_of<A: Allocator>(kind: Kind, entry: &WorldEntry<A>) -> bool
    ensures { result ≡ spec.is_of kind entry.now }
{
    match entry {
        Entry::Issue { .. } => kind == Kind::Issue,
        Entry::Executed { .. } => kind == Kind::Executed,
        Entry::Answered { .. } => kind == Kind::Answered,
        Entry::Ended { why, .. } => is_end(kind, why),
        Entry::Restarted { .. } => kind == Kind::Restarted,
    }
}

/// Whether an end is of a kind.
fn is_end(kind: Kind, why: &End) -> bool
    ensures { result ≡ spec.is_end kind why.now }
{
    match why {
        End::TimedOut => kind == Kind::TimedOut,
        End::Aborted { .. } => kind == Kind::Aborted,
        End::Rejected { .. } => kind == Kind::Rejected,
    }
}

/// How many of these entries are of a kind.
fn count<A: Allocator>(kind: Kind, history: &[WorldEntry<A>]) -> usize
    ensures { result ≡ spec.count kind history.now }
{
    let mut number = 0;
    for entry in history {
        if is_of(kind, entry) {
            number += 1;
        }
    }
    number
}

/// How many entries of each kind these are.
pub(crate) fn outcomes_in<A: Allocator>(history: &[WorldEntry<A>]) -> OutcomeCounts
    ensures { result ≡ spec.outcomes_in history.now }
{
    OutcomeCounts {
        issues: count(Kind::Issue, history),
        answered: count(Kind::Answered, history),
        timed_out: count(Kind::TimedOut, history),
        aborted: count(Kind::Aborted, history),
        rejected: count(Kind::Rejected, history),
        executed: count(Kind::Executed, history),
        restarts: count(Kind::Restarted, history),
    }
}

/// Whether an APDU is of a type, by its first octet (20.1.2 to 20.1.9).
fn is_apdu(pdu_type: PduType, apdu: &[u8]) -> bool
    ensures { result ≡ spec.is_apdu pdu_type apdu.now }
{
    match apdu {
        [first, ..] => first >> 4 == u8::from(pdu_type),
        [] => false,
    }
}

/// How many of these messages are of a type.
fn count_said<A: Allocator>(pdu_type: PduType, said: &[SaidMessage<A>]) -> usize
    ensures { result ≡ spec.count_said pdu_type said.now }
{
    let mut number = 0;
    for message in said {
        if is_apdu(pdu_type, message.apdu()) {
            number += 1;
        }
    }
    number
}

/// How many of these messages are of each type.
pub(crate) fn messages_in<A: Allocator>(said: &[SaidMessage<A>]) -> MessageCounts
    ensures { result ≡ spec.messages_in said.now }
{
    MessageCounts {
        confirmed: count_said(PduType::ConfirmedRequest, said),
        unconfirmed: count_said(PduType::UnconfirmedRequest, said),
        simple_ack: count_said(PduType::SimpleAck, said),
        complex_ack: count_said(PduType::ComplexAck, said),
        segment_ack: count_said(PduType::SegmentAck, said),
        error: count_said(PduType::Error, said),
        reject: count_said(PduType::Reject, said),
        abort: count_said(PduType::Abort, said),
    }
}

/// What there was of all in a world. It takes memory of `alloc` for a while.
///
/// # Errors
/// Want of memory.
pub fn counts_of<A: Allocator + Copy>(alloc: A, world: &World<A>) -> Result<Counts, AllocError>
    ensures counts { IfOk result (spec.AreCounts world.now) }
    ensures legal { IsLegal (instances_of world.now.site) world.now.history (judged_of world.now) }
{
    let history = world.history();
    let mut waits = Waits::new(alloc);
    waits.count(history)?;
    Ok(Counts {
        outcomes: outcomes_in(history),
        messages: messages_in(world.said()),
        datagrams: world.items().len(),
        frames: world.buses().frames,
        moment: world.moment(),
        wait: waits.greatest(),
    })
}

/// The line of counts, without its end: `issues 40 answered 37 timedout 3 ..`. It has the same words in the same order
/// each time; but for the last number, the greatest wait, the numbers of many lines add up.
#[derive(Clone, Copy)]
pub struct CountLine(pub Counts);

impl fmt::Display for CountLine {
    ghost output = { λ l. Some (spec.count_text l.0) };

    #[tactic(auto, unfolding(crate::specs::Counting::count_text))]
    fn fmt<W: fmt::Write>(&self, f: &mut fmt::Formatter<W>) -> fmt::Result {
        fmt_outcomes(self.0.outcomes, f)?;
        fmt_requests(self.0.messages, f)?;
        fmt_refusals(self.0.messages, f)?;
        let Counts {
            datagrams,
            frames,
            moment,
            wait,
            ..
        } = self.0;
        write!(
            f,
            " datagrams {datagrams} frames {frames} ms {moment} wait {wait}"
        )
    }
}

/// Prints how requests ended.
fn fmt_outcomes<W: fmt::Write>(counts: OutcomeCounts, f: &mut fmt::Formatter<W>) -> fmt::Result
    ensures { WritesOnOk W.write_str_gives f.old result (spec.outcomes_text counts) f.new }
{
    let OutcomeCounts {
        issues,
        answered,
        timed_out,
        aborted,
        rejected,
        executed,
        restarts,
    } = counts;
    let open = issues
        .saturating_sub(answered)
        .saturating_sub(timed_out)
        .saturating_sub(aborted)
        .saturating_sub(rejected);
    let untold = executed.saturating_sub(answered);
    write!(
        f,
        "issues {issues} answered {answered} timedout {timed_out} aborted {aborted} rejected {rejected} open {open}"
    )?;
    write!(
        f,
        " executed {executed} untold {untold} restarts {restarts}"
    )
}

/// Prints how many requests and acknowledgements were said.
fn fmt_requests<W: fmt::Write>(counts: MessageCounts, f: &mut fmt::Formatter<W>) -> fmt::Result
    ensures { WritesOnOk W.write_str_gives f.old result (spec.requests_text counts) f.new }
{
    let MessageCounts {
        confirmed,
        unconfirmed,
        simple_ack,
        complex_ack,
        ..
    } = counts;
    write!(
        f,
        " confirmed {confirmed} unconfirmed {unconfirmed} simpleack {simple_ack} complexack {complex_ack}"
    )
}

/// Prints how many of the other messages were said.
fn fmt_refusals<W: fmt::Write>(counts: MessageCounts, f: &mut fmt::Formatter<W>) -> fmt::Result
    ensures { WritesOnOk W.write_str_gives f.old result (spec.refusals_text counts) f.new }
{
    let MessageCounts {
        segment_ack,
        error,
        reject,
        abort,
        ..
    } = counts;
    write!(
        f,
        " segmentack {segment_ack} error {error} reject {reject} abort {abort}"
    )
}
