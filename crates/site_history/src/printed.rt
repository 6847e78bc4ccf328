//! The lines that are printed, without their ends: an entry of the history, a refusal, and the last line.

ghost use Rattle.std.specs.Prelude.{◌≡◌, Some, option_map};
ghost use Rattle.site_history.specs.Printed as spec;
ghost use Rattle.site_history.specs.Printed.{end_text, entry_text, refused_text, why_text};

use crate::counting::Counts;
use faulty_flow::WorldEntry;
use history::{End, Entry};
use primitives::Request;
use site_trace::{DeviceName, NameAt};
use std::alloc::Allocator;
use std::fmt;
use tags::Fault;
use words::{Named, ReplyTo, Spelled, Spelling, abort_reasons, reject_reasons};

/// The line of an entry: `0 issue 0 c 10 read 5:1 85`, `1 executed 0 values enum 1`, `2 answered 0 values enum 1`,
/// `12000 ended 0 timedout`, `5 restarted d`.
#[derive(Clone, Copy)]
pub struct EntryLine<'a, A: Allocator> {
    pub entry: &'a WorldEntry<A>,
    /// The history that it is of, where the requests stand.
    pub history: &'a [WorldEntry<A>],
    /// The stations of the site.
    pub stations: &'a [site_parts::Station<A>],
    /// The standard's numbers, or its names.
    pub spelling: Spelling,
}

impl<A: Allocator> fmt::Display for EntryLine<'_, A> {
    ghost output = { λ l. Some (entry_text l.spelling l.stations.now l.history.now l.entry.now) };

    #[tactic(auto, unfolding(crate::specs::Printed::entry_text))]
    fn fmt<W: fmt::Write>(&self, f: &mut fmt::Formatter<W>) -> fmt::Result {
        let spelling = self.spelling;
        match self.entry {
            Entry::Issue {
                number,
                client,
                instance,
                request,
                moment,
            } => {
                let client = NameAt {
                    address: *client,
                    stations: self.stations,
                };
                let request = Spelled {
                    spelling,
                    what: request,
                };
                write!(f, "{moment} issue {number} {client} {instance} {request}")
            }
            Entry::Executed {
                number,
                reply,
                moment,
            } => {
                let reply = ReplyTo {
                    spelling,
                    asked: asked_of(spelling, *number, self.history),
                    reply,
                };
                write!(f, "{moment} executed {number} {reply}")
            }
            Entry::Answered {
                number,
                reply,
                moment,
            } => {
                let reply = ReplyTo {
                    spelling,
                    asked: asked_of(spelling, *number, self.history),
                    reply,
                };
                write!(f, "{moment} answered {number} {reply}")
            }
            Entry::Ended {
                number,
                why,
                moment,
            } => {
                let why = Why { spelling, why };
                write!(f, "{moment} ended {number} {why}")
            }
            Entry::Restarted { instance, moment } => {
                let device = DeviceName {
                    instance: *instance,
                    stations: self.stations,
                };
                write!(f, "{moment} restarted {device}")
            }
        }
    }
}

/// The request that was issued under a number, where names are printed.
fn asked_of<A: Allocator>(
    spelling: Spelling,
    number: u64,
    history: &[WorldEntry<A>],
) -> Option<&Request<A>>
    ensures { option_map (λ r. r.now) result ≡ spec.asked_of spelling number history.now }
{
    match spelling {
        Spelling::Numbers => None,
        Spelling::Names => request_of(number, history),
    }
}

/// The request that was issued under a number: what was issued last is looked at first.
fn request_of<A: Allocator>(number: u64, history: &[WorldEntry<A>]) -> Option<&Request<A>>
    ensures { option_map (λ r. r.now) result ≡ spec.request_of number history.now }
{
    let mut left = history;
    while let [before @ .., last] = left {
        if let Some(request) = request_in(number, last) {
            return Some(request);
        }
        left = before;
    }
    None
}

/// The request that an entry issues under a number.
fn request_in<A: Allocator>(number: u64, entry: &WorldEntry<A>) -> Option<&Request<A>>
    ensures { option_map (λ r. r.now) result ≡ spec.request_in number entry.now }
{
    match entry {
        Entry::Issue {
            number: issued,
            request,
            ..
        } => {
            if *issued == number {
                Some(request)
            } else {
                None
            }
        }
        Entry::Executed { .. }
        | Entry::Answered { .. }
        | Entry::Ended { .. }
        | Entry::Restarted { .. } => None,
    }
}

/// Why a request ended: `timedout`, `rejected 9` or `rejected unrecognized-service`, `aborted 4`.
#[derive(Clone, Copy)]
struct Why<'a> {
    spelling: Spelling,
    why: &'a End,
}

impl fmt::Display for Why<'_> {
    ghost output = { λ w. Some (why_text w.spelling w.why.now) };

    fn fmt<W: fmt::Write>(&self, f: &mut fmt::Formatter<W>) -> fmt::Result {
        let spelling = self.spelling;
        match self.why {
            End::TimedOut => f.write_str("timedout"),
            End::Rejected { reason } => {
                let reason = Named {
                    spelling,
                    table: reject_reasons(),
                    number: u32::from(*reason),
                };
                write!(f, "rejected {reason}")
            }
            End::Aborted { reason } => {
                let reason = Named {
                    spelling,
                    table: abort_reasons(),
                    number: u32::from(*reason),
                };
                write!(f, "aborted {reason}")
            }
        }
    }
}

/// The line of a refusal: `0 refused 7 NoInvokeId`.
#[derive(Clone, Copy)]
pub struct RefusedLine {
    pub fault: Fault,
    /// In milliseconds.
    pub moment: u64,
}

impl fmt::Display for RefusedLine {
    ghost output = { λ l. Some (refused_text l.fault l.moment) };

    #[tactic(auto, unfolding(crate::specs::Printed::refused_text))]
    fn fmt<W: fmt::Write>(&self, f: &mut fmt::Formatter<W>) -> fmt::Result {
        let fault = self.fault;
        write!(f, "{} refused {} {fault}", self.moment, u8::from(fault))
    }
}

/// The last line: `end 6000 issued 1 executed 1 answered 1 ended 0`.
#[derive(Clone, Copy)]
pub struct EndLine {
    pub counts: Counts,
    /// In milliseconds.
    pub moment: u64,
}

impl fmt::Display for EndLine {
    ghost output = { λ l. Some (end_text l.counts l.moment) };

    #[tactic(auto, unfolding(crate::specs::Printed::end_text))]
    fn fmt<W: fmt::Write>(&self, f: &mut fmt::Formatter<W>) -> fmt::Result {
        let Counts {
            issued,
            executed,
            answered,
            ended,
        } = self.counts;
        write!(
            f,
            "end {} issued {issued} executed {executed} answered {answered} ended {ended}",
            self.moment
        )
    }
}
