//! The runs of a row.

use crate::digits::octets;
use crate::given::Given;
use crate::stop::{Stop, compare, differs};

/// How many runs have an allocation refused at most.
const MANY: u64 = 1000;

/// What each octet of a row is changed to.
const CHANGES: [u8; 4] = [0x00, 0x7F, 0x80, 0xFF];

/// How many runs of rows there were.
#[derive(Clone, Copy, Debug)]
pub struct Counts {
    /// Rows that ran.
    pub rows: u64,
    /// Runs in which an allocation was refused.
    pub refused: u64,
    /// Runs with a prefix of the octets, or with one of them changed.
    pub changed: u64,
}

impl Counts {
    /// No run.
    pub fn none() -> Counts {
        Counts {
            rows: 0,
            refused: 0,
            changed: 0,
        }
    }

    /// These runs and others.
    pub fn and(self, others: Counts) -> Counts {
        Counts {
            rows: self.rows.saturating_add(others.rows),
            refused: self.refused.saturating_add(others.refused),
            changed: self.changed.saturating_add(others.changed),
        }
    }
}

/// A call that a row asks for.
pub trait Trial<'a> {
    /// What comes of the call on these octets, in words that lie in `given.alloc`. The call itself
    /// takes its memory of `given.memory`, where an allocation may be refused.
    ///
    /// # Errors
    /// `Memory` where the call says so, and `Differs` where what was there then reads otherwise.
    fn answer(&self, given: Given<'a>, octets: &[u8]) -> Result<String, Stop>;
}

/// Runs a call as it stands, and then with each allocation refused in turn (behind the 32nd not
/// each), until a run meets no refusal: the call says want of memory where it was refused and
/// nowhere else, and made again it gives what is wanted.
///
/// # Errors
/// `Differs` where one of this does not hold; those of the call.
pub fn try_row<'a, T: Trial<'a>>(
    given: Given<'a>,
    trial: &T,
    octets: &[u8],
    wanted: &str,
) -> Result<Counts, Stop> {
    compare(trial.answer(given, octets)?, wanted)?;
    let mut n = 1u64;
    for refused in 0..MANY {
        if !is_refused(given, trial, octets, wanted, n)? {
            return Ok(Counts {
                rows: 1,
                refused,
                changed: 0,
            });
        }
        compare(trial.answer(given, octets)?, wanted)?;
        n = after(n);
    }
    Err(differs(given.alloc, "a call that is refused memory again and again"))
}

/// The allocation that the next run refuses: the next one, and behind the 32nd not each.
fn after(n: u64) -> u64 {
    n.saturating_add(1 + n / 32)
}

/// Whether a call is refused its `n`th allocation.
fn is_refused<'a, T: Trial<'a>>(
    given: Given<'a>,
    trial: &T,
    octets: &[u8],
    wanted: &str,
    n: u64,
) -> Result<bool, Stop> {
    given.memory.refuse_only(n);
    let answer = trial.answer(given, octets);
    let is_waiting = given.memory.is_waiting();
    given.memory.refuse_only(0);
    match answer {
        Err(Stop::Memory) if !is_waiting => Ok(true),
        Err(Stop::Memory) => Err(differs(given.alloc, "want of memory, of which there was enough")),
        Err(stop) => Err(stop),
        Ok(_) if !is_waiting => Err(differs(given.alloc, "an answer where memory was refused")),
        Ok(found) => {
            compare(found, wanted)?;
            Ok(false)
        }
    }
}

/// Runs a call on a row's octets: as they stand, with each allocation refused in turn (behind the
/// 32nd not each), on each of their prefixes, and with each octet changed to `00`, `7F`, `80` and
/// `FF`, where it never says want of memory.
///
/// # Errors
/// `Differs` where one of this does not hold; those of the call.
pub fn run_trial<'a, T: Trial<'a>>(
    given: Given<'a>,
    trial: &T,
    octets: &[u8],
    wanted: &str,
) -> Result<Counts, Stop> {
    let counts = try_row(given, trial, octets, wanted)?;
    let changed = change_octets(given, trial, octets)?;
    Ok(Counts { changed, ..counts })
}

/// A row whose call takes no memory and no octets, and gave this text.
///
/// # Errors
/// `Differs` where the text is not what is wanted.
pub fn run_text(found: String, wanted: &str) -> Result<Counts, Stop> {
    run_refused(found, 0, wanted)
}

/// A row that told this, where as many allocations were refused.
///
/// # Errors
/// `Differs` where other words are wanted.
pub fn run_refused(found: String, refused: u64, wanted: &str) -> Result<Counts, Stop> {
    compare(found, wanted)?;
    Ok(Counts {
        rows: 1,
        refused,
        changed: 0,
    })
}

/// A row whose call takes no memory and no octets, and told this word.
///
/// # Errors
/// `Differs` where another is wanted, and `Memory`.
pub fn run_word(given: Given<'_>, word: &str, wanted: &str) -> Result<Counts, Stop> {
    run_text(String::from_str(given.alloc, word)?, wanted)
}

/// A row whose call takes no memory and no octets, and told this number.
///
/// # Errors
/// `Differs` where another is wanted, and `Memory`.
pub fn run_number(given: Given<'_>, number: u64, wanted: &str) -> Result<Counts, Stop> {
    run_text(format!(in given.alloc; "{number}")?, wanted)
}

/// Runs a call on octets in words, as `run_trial` does.
///
/// # Errors
/// Those of `run_trial`, and `Unread` where the word is none of octets.
pub fn run_octets<'a, T: Trial<'a>>(
    given: Given<'a>,
    trial: &T,
    word: &str,
    wanted: &str,
) -> Result<Counts, Stop> {
    let octets = octets(given.alloc, word)?;
    run_trial(given, trial, octets.as_slice(), wanted)
}

/// Runs a call on each prefix of octets, and with each octet changed, and tells how many runs there
/// were.
///
/// # Errors
/// `Memory` where a run says so; those of the call.
pub fn change_octets<'a, T: Trial<'a>>(
    given: Given<'a>,
    trial: &T,
    octets: &[u8],
) -> Result<u64, Stop> {
    for end in 0..octets.len() {
        trial.answer(given, &octets[..end])?;
    }
    let mut runs = octets.len() as u64;
    let mut other = Vec::from_slice(given.alloc, octets)?;
    for (at, octet) in octets.iter().enumerate() {
        for instead in CHANGES {
            put(&mut other, at, instead);
            trial.answer(given, other.as_slice())?;
            runs = runs.saturating_add(1);
        }
        put(&mut other, at, *octet);
    }
    Ok(runs)
}

/// Changes an octet.
fn put(octets: &mut Vec<u8>, at: usize, octet: u8) {
    if at < octets.len() {
        octets[at] = octet;
    }
}
