//! Copies of what a world keeps.

ghost use Rattle.std.specs.Prelude.{◌≡◌, IfOk};
ghost use Rattle.world_log.specs.Log.{log_of};

use crate::log::{WorldEntry, WorldLog};
use crate::saying::SaidMessage;
use history::{End, Entry};
use std::alloc::{AllocError, Allocator};

/// An equal end.
fn end_of(end: &End) -> End
    ensures { result ≡ end.now }
{
    match end {
        End::TimedOut => End::TimedOut,
        End::Rejected { reason } => End::Rejected { reason: *reason },
        End::Aborted { reason } => End::Aborted { reason: *reason },
    }
}

/// An equal entry.
fn entry_of<A: Allocator + Copy>(
    alloc: A,
    entry: &WorldEntry<A>,
) -> Result<WorldEntry<A>, AllocError>
    ensures { IfOk result (λ copy. copy ≡ entry.now) }
{
    Ok(match entry {
        Entry::Issue {
            number,
            client,
            instance,
            request,
            moment,
        } => Entry::Issue {
            number: *number,
            client: *client,
            instance: *instance,
            request: request.copy(alloc)?,
            moment: *moment,
        },
        Entry::Executed {
            number,
            reply,
            moment,
        } => Entry::Executed {
            number: *number,
            reply: reply.copy(alloc)?,
            moment: *moment,
        },
        Entry::Answered {
            number,
            reply,
            moment,
        } => Entry::Answered {
            number: *number,
            reply: reply.copy(alloc)?,
            moment: *moment,
        },
        Entry::Ended {
            number,
            why,
            moment,
        } => Entry::Ended {
            number: *number,
            why: end_of(why),
            moment: *moment,
        },
        Entry::Restarted { instance, moment } => Entry::Restarted {
            instance: *instance,
            moment: *moment,
        },
    })
}

/// An equal message.
fn message_of<A: Allocator + Copy>(
    alloc: A,
    message: &SaidMessage<A>,
) -> Result<SaidMessage<A>, AllocError>
    ensures { IfOk result (λ copy. copy ≡ message.now) }
{
    Ok(SaidMessage {
        source: message.source,
        reach: message.reach,
        npdu: message.npdu.copy(alloc)?,
        header: message.header,
        stamp: message.stamp,
    })
}

fn entries_of<A: Allocator + Copy>(
    alloc: A,
    entries: &[WorldEntry<A>],
) -> Result<Vec<WorldEntry<A>, A>, AllocError>
    ensures { IfOk result (λ copies. copies.items ≡ entries.now) }
{
    let mut copies = Vec::new(alloc);
    for entry in entries {
        copies.push(entry_of(alloc, entry)?)?;
    }
    Ok(copies)
}

fn messages_of<A: Allocator + Copy>(
    alloc: A,
    messages: &[SaidMessage<A>],
) -> Result<Vec<SaidMessage<A>, A>, AllocError>
    ensures { IfOk result (λ copies. copies.items ≡ messages.now) }
{
    let mut copies = Vec::new(alloc);
    for message in messages {
        copies.push(message_of(alloc, message)?)?;
    }
    Ok(copies)
}

impl<A: Allocator + Copy> WorldLog<A> {
    /// Returns a log that keeps the same, in memory of `alloc`.
    ///
    /// # Errors
    /// Want of memory.
    pub fn copy(&self, alloc: A) -> Result<Self, AllocError>
        ensures { IfOk result (λ copy. log_of copy ≡ log_of self.now) }
    {
        Ok(WorldLog {
            items: self.items.copy(alloc)?,
            keys: self.keys.copy(alloc)?,
            first_entry: self.first_entry,
            history: entries_of(alloc, self.history.as_slice())?,
            first_said: self.first_said,
            said: messages_of(alloc, self.said.as_slice())?,
        })
    }
}
