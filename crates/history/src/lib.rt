//! What clients asked for, what stations said, and the history that comes of it: the words in which the promise of the
//! whole internetwork is told (ANSI/ASHRAE 135, clause 5.4, transactions).
//!
//! It has no code. To the layers above it gives an entry of a history as a type, and in `specs/` what they cite:
//!
//! - `Book`: issues, messages, and which issue an invoke ID stands for.
//! - `Legal`: when a history is legal, each part by itself.
//! - `Pieces`, `Lists`, `Tests`: parts of a body, what stands in a list, whether two are one.
#![tactic(auto)]

/// Why a request ended with no answer.
#[derive(Drop)]
pub enum End {
    /// No answer came in time.
    TimedOut,
    /// An Abort came, with its reason (20.1.9).
    Aborted { reason: u8 },
    /// A Reject came, with its reason (20.1.8).
    Rejected { reason: u8 },
}

/// An entry of a history, over stations S, requests Q and replies R. Issues are numbered from 0; every other entry has
/// the number of its issue, and each the moment at which it came, in milliseconds.
#[derive(Drop)]
pub enum Entry<S, Q, R> {
    /// A client was asked to make a request of the device with this instance.
    Issue {
        number: u64,
        client: S,
        instance: u32,
        request: Q,
        moment: u64,
    },
    /// A device executed the request and replied so.
    Executed {
        number: u64,
        reply: R,
        moment: u64,
    },
    /// The client got this reply.
    Answered {
        number: u64,
        reply: R,
        moment: u64,
    },
    /// The client's request ended with no reply.
    Ended {
        number: u64,
        why: End,
        moment: u64,
    },
    /// The device with this instance restarted.
    Restarted {
        instance: u32,
        moment: u64,
    },
}
