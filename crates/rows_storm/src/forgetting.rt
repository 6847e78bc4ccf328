//! A world that forgets, and hands its history out, behind each event, beside the same that keeps all: equal events
//! happen to both, and a storm of the same seed chooses them in both.

ghost use Rattle.simulator.specs.world.Step.{IsSoundEvent};

use crate::counts::raise;
use crate::storms::CHANCES;
use history::{End, Entry};
use profile::is_heard_in_time;
use simulator::{Event, Internetwork, LATEST_ITEMS, World, WorldEntry};
use std::alloc::{AllocError, Allocator};
use std::fmt;
use storm::Storm;
use tags::Fault;

/// How many events happen to both.
const EVENTS: u32 = 2000;

/// Whether two requests ended for the same reason.
fn is_same_end(a: &End, b: &End) -> bool {
    match (a, b) {
        (End::TimedOut, End::TimedOut) => true,
        (End::Rejected { reason: a }, End::Rejected { reason: b })
        | (End::Aborted { reason: a }, End::Aborted { reason: b }) => a == b,
        (End::TimedOut | End::Rejected { .. } | End::Aborted { .. }, _) => false,
    }
}

/// Whether two entries are the same issue.
fn is_same_issue<A: Allocator + Copy>(a: &WorldEntry<A>, b: &WorldEntry<A>) -> bool {
    match (a, b) {
        (
            Entry::Issue {
                number,
                client,
                instance,
                request,
                moment,
            },
            Entry::Issue {
                number: other,
                client: asker,
                instance: device,
                request: asked,
                moment: at,
            },
        ) => {
            number == other
                && client == asker
                && instance == device
                && request == asked
                && moment == at
        }
        (
            Entry::Issue { .. }
            | Entry::Executed { .. }
            | Entry::Answered { .. }
            | Entry::Ended { .. }
            | Entry::Restarted { .. },
            _,
        ) => false,
    }
}

/// Whether two entries are both executions or both answers, of the same issue, with the same reply.
fn is_same_reply<A: Allocator + Copy>(a: &WorldEntry<A>, b: &WorldEntry<A>) -> bool {
    match (a, b) {
        (
            Entry::Executed {
                number,
                reply,
                moment,
            },
            Entry::Executed {
                number: other,
                reply: answer,
                moment: at,
            },
        )
        | (
            Entry::Answered {
                number,
                reply,
                moment,
            },
            Entry::Answered {
                number: other,
                reply: answer,
                moment: at,
            },
        ) => number == other && reply == answer && moment == at,
        (
            Entry::Issue { .. }
            | Entry::Executed { .. }
            | Entry::Answered { .. }
            | Entry::Ended { .. }
            | Entry::Restarted { .. },
            _,
        ) => false,
    }
}

/// Whether two entries are the same end without a reply, or the same restart.
fn is_same_stop<A: Allocator + Copy>(a: &WorldEntry<A>, b: &WorldEntry<A>) -> bool {
    match (a, b) {
        (
            Entry::Ended {
                number,
                why,
                moment,
            },
            Entry::Ended {
                number: other,
                why: end,
                moment: at,
            },
        ) => number == other && is_same_end(why, end) && moment == at,
        (
            Entry::Restarted { instance, moment },
            Entry::Restarted {
                instance: device,
                moment: at,
            },
        ) => instance == device && moment == at,
        (
            Entry::Issue { .. }
            | Entry::Executed { .. }
            | Entry::Answered { .. }
            | Entry::Ended { .. }
            | Entry::Restarted { .. },
            _,
        ) => false,
    }
}

/// Whether two entries say the same of the same issue.
fn is_same_entry<A: Allocator + Copy>(a: &WorldEntry<A>, b: &WorldEntry<A>) -> bool {
    is_same_issue(a, b) || is_same_reply(a, b) || is_same_stop(a, b)
}

/// Whether two histories have the same entries in the same order.
fn is_same_history<A: Allocator + Copy>(a: &[WorldEntry<A>], b: &[WorldEntry<A>]) -> bool {
    a.len() == b.len() && a.iter().zip(b.iter()).all(|(a, b)| is_same_entry(a, b))
}

/// What came of a world that forgets, beside one that doesn't.
#[derive(Clone, Copy, Debug, Default)]
pub(crate) struct Beside {
    /// How many events were made in both, and refused by both.
    made: u64,
    refused: u64,
    /// How many were made in one alone.
    apart: u64,
    /// How many were chosen in both.
    alike: u64,
    /// Whether it ever kept more than twice the items that may be heard, or twice those that it never forgets; or knew
    /// more than twice the frames that a bus keeps, and 16.
    keeps_many: bool,
    /// How many items it has put out, entries handed out, and messages forgotten, in the end.
    items: usize,
    entries: usize,
    said: usize,
    /// Whether both are at one moment in the end, the entries that were handed out are the whole history, and those
    /// items that are kept stand where they stand in the whole.
    is_same: bool,
}

impl Beside {
    /// An event happens to both.
    fn make<A: Allocator + Copy>(
        &mut self,
        whole: &mut World<A>,
        kept: &mut Internetwork<A>,
        event: &Event<A>,
    )
        requires { IsSoundEvent event.now }
    {
        match (whole.step(event), kept.step(event)) {
            (Ok(()), Ok(())) => raise(&mut self.made),
            (Err(_), Err(_)) => raise(&mut self.refused),
            (Ok(()), Err(_)) | (Err(_), Ok(())) => raise(&mut self.apart),
        }
    }

    /// Looks at how many items are kept, and of how many frames something is known.
    fn look<A: Allocator + Copy>(&mut self, kept: &Internetwork<A>) {
        let now = kept.moment();
        let mut young = 0usize;
        for item in kept.items() {
            if is_heard_in_time(item.put_out, now) {
                young = young.saturating_add(1);
            }
        }
        let most = young.max(LATEST_ITEMS).saturating_mul(2);
        if kept.items().len() > most {
            self.keeps_many = true;
        }
        for bus in &kept.buses().buses {
            let few = bus.recent.len().saturating_mul(2).saturating_add(16);
            if bus.known.len() >= few {
                self.keeps_many = true;
            }
        }
    }

    /// All have happened.
    fn end<A: Allocator + Copy>(
        &mut self,
        whole: &World<A>,
        kept: &Internetwork<A>,
        told: &[WorldEntry<A>],
    ) {
        self.items = kept.item_count();
        self.entries = kept.first_entry();
        self.said = kept.first_said();
        self.is_same = kept.moment() == whole.moment()
            && is_same_history(told, whole.history())
            && whole.items().get(kept.first_item()..) == Some(kept.items());
    }
}

impl fmt::Display for Beside {
    fn fmt<W: fmt::Write>(&self, f: &mut fmt::Formatter<W>) -> fmt::Result {
        write!(
            f,
            "where it forgets: {} events made, {} refused, {} apart, {} chosen alike; of {} datagrams it kept ",
            self.made, self.refused, self.apart, self.alike, self.items
        )?;
        f.write_str(if self.keeps_many { "many" } else { "few" })?;
        write!(
            f,
            ", {} messages forgotten; {} entries handed out: ",
            self.said, self.entries
        )?;
        f.write_str(if self.is_same {
            "the whole history"
        } else {
            "not the whole history"
        })
    }
}

/// Lets a storm go over a copy of a world, and over another that forgets.
///
/// # Errors
/// Want of memory.
pub(crate) fn run_beside<A: Allocator + Copy>(
    alloc: A,
    opened: &World<A>,
    seed: u64,
) -> Result<Beside, Fault> {
    let mut whole = opened.copy()?;
    let beside = beside_copy(alloc, opened, &mut whole, seed);
    whole.close();
    beside
}

/// Lets a storm go over a world, and over a copy of another that forgets.
fn beside_copy<A: Allocator + Copy>(
    alloc: A,
    opened: &World<A>,
    whole: &mut World<A>,
    seed: u64,
) -> Result<Beside, Fault> {
    let mut kept = opened.copy()?.into_internetwork();
    let beside = blow(alloc, whole, &mut kept, seed);
    kept.close();
    Ok(beside?)
}

/// Lets a storm go over both.
fn blow<A: Allocator + Copy>(
    alloc: A,
    whole: &mut World<A>,
    kept: &mut Internetwork<A>,
    seed: u64,
) -> Result<Beside, AllocError> {
    let mut storm = Storm::new(seed, CHANCES);
    let mut same = Storm::new(seed, CHANCES);
    let mut told = Vec::new(alloc);
    let mut beside = Beside::default();
    for _ in 0..EVENTS {
        let event = storm.next_event(alloc, whole)?;
        if event == same.next_event_of(alloc, kept, told.as_slice())? {
            raise(&mut beside.alike);
        }
        beside.make(whole, kept, &event);
        kept.hand_out(&mut told)?;
        kept.forget();
        beside.look(kept);
    }
    beside.end(whole, kept, told.as_slice());
    Ok(beside)
}
