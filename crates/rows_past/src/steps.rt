//! The steps of a row in words.
//!
//! - `put 5`, `put 5 x 100`: a datagram that was said at this moment is put out at it, or so many are.
//! - `mark 3`: the datagram of this number was delivered.
//! - `cut 3`: the first so many are left.
//! - `items forget 1001`, `items forget 1001 but 2`: datagrams that are too old to be heard at this moment are
//!   forgotten, or all but so many of the last.
//! - `item 3`: the datagram of this number.
//! - `next 0 9 1001`: the next from a number on and before another that waits at a moment.
//! - `issue 2.16 7`: the station at an address of a network issues a request under an invoke ID.
//! - `issues forget`: issues that a later one replaced are forgotten.
//! - `last 2.16 7`: the number of the last issue of a station under an invoke ID.
//! - `count`: how many datagrams and issues there were.

use npdu::{Mac, Station};
use sheets::{Part, Stop, small, two_words};
use words::parse_number;
use world_log::Key;

/// A step.
#[derive(Clone, Copy)]
pub(crate) enum Step {
    Put { stamp: u64, times: u64 },
    Mark { number: u64 },
    Cut { count: u64 },
    ForgetItems { now: u64, latest: u64 },
    Item { number: u64 },
    Next { from: u64, before: u64, now: u64 },
    Issue { key: Key },
    ForgetIssues,
    Last { key: Key },
    Count,
}

/// The key `2.16 7`.
fn key(words: &str) -> Result<Key, Stop> {
    let (station, id) = two_words(words);
    let Some((net, address)) = station.split_once('.') else {
        return Err(Stop::Unread(Part::Asked));
    };
    let mac = Mac::One(small(address)?);
    let net = parse_number(net)?;
    Ok(Key {
        client: Station { net, mac },
        invoke_id: small(id)?,
    })
}

/// What is put out.
fn put(words: &str) -> Result<Step, Stop> {
    let (stamp, times) = match words.split_once(" x ") {
        Some((stamp, times)) => (stamp, parse_number(times)?),
        None => (words, 1),
    };
    Ok(Step::Put {
        stamp: parse_number(stamp)?,
        times,
    })
}

/// What is forgotten.
fn forget(words: &str) -> Result<Step, Stop> {
    let (now, latest) = match words.split_once(" but ") {
        Some((now, latest)) => (now, parse_number(latest)?),
        None => (words, 0),
    };
    Ok(Step::ForgetItems {
        now: parse_number(now)?,
        latest,
    })
}

/// What is sought.
fn next(words: &str) -> Result<Step, Stop> {
    let (from, rest) = two_words(words);
    let (before, now) = two_words(rest);
    Ok(Step::Next {
        from: parse_number(from)?,
        before: parse_number(before)?,
        now: parse_number(now)?,
    })
}

/// A step in words.
///
/// # Errors
/// `Unread` where they are none.
pub(crate) fn step_of(words: &str) -> Result<Step, Stop> {
    let (verb, rest) = two_words(words);
    match verb {
        "put" => put(rest),
        "mark" => Ok(Step::Mark {
            number: parse_number(rest)?,
        }),
        "cut" => Ok(Step::Cut {
            count: parse_number(rest)?,
        }),
        "items" => match rest.strip_prefix("forget ") {
            Some(rest) => forget(rest),
            None => Err(Stop::Unread(Part::Asked)),
        },
        "item" => Ok(Step::Item {
            number: parse_number(rest)?,
        }),
        "next" => next(rest),
        "issue" => Ok(Step::Issue { key: key(rest)? }),
        "issues" if rest == "forget" => Ok(Step::ForgetIssues),
        "last" => Ok(Step::Last { key: key(rest)? }),
        "count" => Ok(Step::Count),
        _ => Err(Stop::Unread(Part::Asked)),
    }
}
