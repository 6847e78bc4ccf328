//! A remembered answer that is said, whole or in segments (5.4.5.3, 5.4.5.4).

ghost use Rattle.std.specs.Prelude.{◌≡◌, IfOk, None, option_copied};
ghost use Rattle.server_answers.specs.remembered.Records.{said_on};
ghost use Rattle.server_tsm.specs.Hearing.{ack_heard, ack_taken, given_up, is_sending};
ghost use Rattle.server_answers.specs.Plan.{change_of, quiet};
ghost use Rattle.server_tsm.specs.Hearing.{repeated, answer_plan, turned_by};
ghost use Rattle.server_tsm.specs.Waking.{saying_by};

use npdu::Way;
use segments::{Sender, Turn};
use server_answers::{Asker, QuietChange, Record, Saying, ServerPlan, begun, push_answer};
use std::alloc::{AllocError, Allocator};
use tags::Items;

/// Nothing is said or executed, and this changes.
fn quiet<A: Allocator + Copy>(alloc: A, change: QuietChange<A>) -> Result<ServerPlan<A>, AllocError>
    ensures { IfOk result (λ plan. plan ≡ quiet (change_of change)) }
{
    ServerPlan::changing(alloc, Items::new(alloc), change)
}

/// Whether an answer is being said in segments.
fn is_sending(now: u64, sending: Option<Sender>) -> bool
    ensures { result ≡ is_sending now sending }
{
    match sending {
        None => false,
        Some(sender) => !sender.has_ended(now),
    }
}

/// An answer is said on this way, by what goes on sending it, or whole.
fn answer_plan<A: Allocator + Copy>(
    alloc: A,
    sending: Option<Sender>,
    way: Way,
    entry: &Record<A>,
) -> Result<ServerPlan<A>, AllocError>
    ensures { IfOk result (λ plan. plan ≡ answer_plan sending way entry.now) }
{
    let mut said = Items::new(alloc);
    push_answer(alloc, &sending, way, entry, &mut said)?;
    let saying = Saying {
        asker: entry.asker,
        way,
        sending,
    };
    ServerPlan::changing(alloc, said, QuietChange::Says(saying))
}

/// A request came whose answer is remembered: while segments of it are said it is dropped, else it is said again.
pub(crate) fn repeated<A: Allocator + Copy>(
    alloc: A,
    now: u64,
    way: Way,
    entry: &Record<A>,
) -> Result<ServerPlan<A>, AllocError>
    ensures { IfOk result (λ plan. plan ≡ repeated now way entry.now) }
{
    if is_sending(now, entry.sending) {
        return Ok(ServerPlan::nothing());
    }
    answer_plan(alloc, begun(now, entry.chunk, &entry.answer), way, entry)
}

/// Nothing more of an answer is said.
fn ended<A: Allocator>(way: Way, entry: &Record<A>) -> QuietChange<A>
    ensures { result ≡ QuietChange.Says (saying_by None (said_on way None entry.now)) }
{
    QuietChange::Says(Saying {
        asker: entry.asker,
        way,
        sending: None,
    })
}

/// Returns what comes of a SegmentACK of an answer.
fn turned_by<A: Allocator + Copy>(
    alloc: A,
    turn: Turn,
    sender: Sender,
    way: Way,
    entry: &Record<A>,
) -> Result<ServerPlan<A>, AllocError>
    ensures { IfOk result (λ plan. plan ≡ turned_by turn sender way entry.now) }
{
    match turn {
        Turn::Waits => Ok(ServerPlan::nothing()),
        Turn::Sends => answer_plan(alloc, Some(sender), way, entry),
        Turn::Ends => quiet(alloc, ended(way, entry)),
    }
}

/// A SegmentACK of a remembered answer.
fn ack_taken<A: Allocator + Copy>(
    alloc: A,
    now: u64,
    ack: Ack,
    way: Way,
    entry: &Record<A>,
) -> Result<ServerPlan<A>, AllocError>
    ensures { IfOk result (λ plan. plan ≡
        ack_taken entry.now.sending now ack.number ack.window ack.negative way entry.now) }
{
    match entry.sending {
        None => Ok(ServerPlan::nothing()),
        Some(mut sender) => {
            let turn = sender.on_ack(ack.number, ack.window, ack.negative, now);
            turned_by(alloc, turn, sender, way, entry)
        }
    }
}

/// A SegmentACK (20.1.6).
#[derive(Clone, Copy)]
pub(crate) struct Ack {
    negative: bool,
    number: u8,
    window: u8,
}

impl Ack {
    ghost use Rattle.std.specs.Prelude.{◌≡◌};

    /// Whether segments are lacking, the number of the last that came, and the window that is granted.
    pub(crate) fn new(negative: bool, number: u8, window: u8) -> Ack
        ensures { result ≡ record { negative = negative; number = number; window = window } }
    {
        Ack {
            negative,
            number,
            window,
        }
    }
}

/// A SegmentACK of an answer, where it is remembered.
pub(crate) fn ack_heard<A: Allocator + Copy>(
    alloc: A,
    found: Option<&Record<A>>,
    now: u64,
    ack: Ack,
    way: Way,
) -> Result<ServerPlan<A>, AllocError>
    ensures { IfOk result (λ plan. plan ≡
        ack_heard (option_copied found.entry) now ack.number ack.window ack.negative way) }
{
    match found {
        None => Ok(ServerPlan::nothing()),
        Some(entry) => ack_taken(alloc, now, ack, way, entry),
    }
}

/// An Abort of the client ends the saying of the answer, which stays remembered, or the gathering.
pub(crate) fn given_up<A: Allocator + Copy>(
    alloc: A,
    found: Option<&Record<A>>,
    asker: Asker,
) -> Result<ServerPlan<A>, AllocError>
    ensures { IfOk result (λ plan. plan ≡ given_up (option_copied found.entry) asker) }
{
    match found {
        None => quiet(alloc, QuietChange::GivesUp(asker)),
        Some(entry) => quiet(alloc, ended(entry.way, entry)),
    }
}
