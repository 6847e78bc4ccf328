//! The steps of a row in words, each behind its moment: `@5/3 2.16 puts 55FF0005100000CA`.
//!
//! - `2.16 puts OCTETS`: the station at the address 16 puts out a frame of these octets on network 2, with the stamp 3.
//! - `2.16 puts OCTETS until 900`: one at each millisecond from there on, each with its moment as its stamp.
//! - `2.16 hears OCTETS`: they come to its ear; `-` is a silence.
//! - `2.16 restarts`.
//! - `told`, `told from 1 2 before 5`: which frames are told to which ears, from the frame 1 at the ear of the place 2
//!   on, and before the frame 5.
//! - `2 forgets`: the bus of network 2 forgets what is too old to be heard.
//! - `known 2`: how many frames are known of network 2, and how many of them may still be told.

use bus_traffic::Telling;
use sheets::{Part, Stop, octets, small, two_words};
use std::alloc::Global;
use tags::Octets;
use words::parse_number;

/// A station on a bus.
#[derive(Clone, Copy)]
pub(crate) struct At {
    pub(crate) net: u16,
    pub(crate) address: u8,
}

/// When something is done, and when what it is about was said.
#[derive(Clone, Copy)]
pub(crate) struct Moments {
    pub(crate) now: u64,
    pub(crate) stamp: u64,
}

/// A step.
#[derive(Drop)]
pub(crate) enum Step {
    Put {
        at: At,
        octets: Octets<Global>,
    },
    PutEach {
        at: At,
        octets: Octets<Global>,
        until: u64,
    },
    Hear {
        at: At,
        octets: Octets<Global>,
    },
    Restart {
        at: At,
    },
    Told {
        from: Telling,
        before: u64,
    },
    Forget {
        net: u16,
    },
    Known {
        net: u16,
    },
}

/// The station `2.16`.
fn station(word: &str) -> Result<At, Stop> {
    let Some((net, address)) = word.split_once('.') else {
        return Err(Stop::Unread(Part::Asked));
    };
    Ok(At {
        net: parse_number(net)?,
        address: small(address)?,
    })
}

/// The moments `5/3`; `5` is both.
fn both_moments(word: &str) -> Result<Moments, Stop> {
    let (now, stamp) = match word.split_once('/') {
        Some(both) => both,
        None => (word, word),
    };
    Ok(Moments {
        now: parse_number(now)?,
        stamp: parse_number(stamp)?,
    })
}

/// What is put out.
fn put(alloc: Global, at: At, words: &str) -> Result<Step, Stop> {
    match words.split_once(" until ") {
        Some((digits, until)) => Ok(Step::PutEach {
            at,
            octets: octets(alloc, digits)?,
            until: parse_number(until)?,
        }),
        None => Ok(Step::Put {
            at,
            octets: octets(alloc, words)?,
        }),
    }
}

/// From whose turn on frames are told, and before which one.
fn told(words: &str) -> Result<Step, Stop> {
    if words.is_empty() {
        let from = Telling { frames: 0, ear: 0 };
        return Ok(Step::Told {
            from,
            before: u64::MAX,
        });
    }
    let Some(words) = words.strip_prefix("from ") else {
        return Err(Stop::Unread(Part::Asked));
    };
    let Some((from, before)) = words.split_once(" before ") else {
        return Err(Stop::Unread(Part::Asked));
    };
    let (frames, ear) = two_words(from);
    let from = Telling {
        frames: parse_number(frames)?,
        ear: parse_number(ear)?,
    };
    Ok(Step::Told {
        from,
        before: parse_number(before)?,
    })
}

/// What a station does.
fn done(alloc: Global, at: At, words: &str) -> Result<Step, Stop> {
    let (verb, rest) = two_words(words);
    match verb {
        "puts" => put(alloc, at, rest),
        "hears" => Ok(Step::Hear {
            at,
            octets: octets(alloc, rest)?,
        }),
        "restarts" => Ok(Step::Restart { at }),
        _ => Err(Stop::Unread(Part::Asked)),
    }
}

/// A step in words.
///
/// # Errors
/// `Unread` where they are none, `Memory`.
pub(crate) fn step_of(alloc: Global, words: &str) -> Result<(Moments, Step), Stop> {
    let (moment, rest) = two_words(words);
    let Some(moment) = moment.strip_prefix('@') else {
        return Err(Stop::Unread(Part::Asked));
    };
    let when = both_moments(moment)?;
    let (first, behind) = two_words(rest);
    let step = match first {
        "told" => told(behind)?,
        "known" => Step::Known {
            net: parse_number(behind)?,
        },
        net if behind == "forgets" => Step::Forget {
            net: parse_number(net)?,
        },
        _ => done(alloc, station(first)?, behind)?,
    };
    Ok((when, step))
}
