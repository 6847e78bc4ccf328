//! Which entry of the history is searched for.

ghost use Rattle.std.specs.Prelude.{◌≡◌, true, IfOk};
ghost use Rattle.site_storm.specs.site_run.site_history.Printed.{entry_text};
ghost use Rattle.site_search.specs.Words as spec;
ghost use Rattle.site_search.specs.Words.{HasEntry, HasNewEntry, HasWords, IsWordEnd, SaysWords};

use search::Goal;
use site_parts::Station;
use site_storm::{EntryLine, Spelling, World, WorldEntry};
use std::alloc::{AllocError, Allocator};

/// An entry of the history behind so many, whose words behind its moment are these or begin with them.
#[derive(Clone, Copy)]
pub(crate) struct Until<'a, A: Allocator + Copy> {
    /// The memory in which entries are printed.
    pub(crate) alloc: A,
    pub(crate) words: &'a [u8],
    pub(crate) entries: usize,
}

impl<A: Allocator + Copy> Goal<A> for Until<'_, A> {
    fn is_met(&self, world: &World<A>) -> Result<bool, AllocError> {
        has_new_entry(self.alloc, world, self.entries, self.words)
    }
}

/// Whether a history has an entry of these words behind so many. It is printed in memory of `alloc` for that.
///
/// # Errors
/// Want of memory.
fn has_new_entry<A: Allocator + Copy>(
    alloc: A,
    world: &World<A>,
    entries: usize,
    words: &[u8],
) -> Result<bool, AllocError>
    ensures { IfOk result (λ b. b ≡ true → HasNewEntry words.now entries world.now) }
{
    has_entry(
        alloc,
        world.site().stations(),
        world.history(),
        entries,
        words,
    )
}

/// Whether an entry at this place or behind it has these words.
pub(crate) fn has_entry<A: Allocator + Copy>(
    alloc: A,
    stations: &[Station<A>],
    history: &[WorldEntry<A>],
    first: usize,
    words: &[u8],
) -> Result<bool, AllocError>
    ensures { IfOk result (λ b. b ≡ true → HasEntry words.now stations.now first history.now) }
{
    for place in first..history.len() {
        if is_entry(alloc, stations, history, &history[place], words)? {
            return Ok(true);
        }
    }
    Ok(false)
}

/// Whether an entry of a history has these words, with the standard's numbers or its names.
#[tactic(auto, using(crate::proofs::WordLaws::word_laws))]
fn is_entry<A: Allocator + Copy>(
    alloc: A,
    stations: &[Station<A>],
    history: &[WorldEntry<A>],
    entry: &WorldEntry<A>,
    words: &[u8],
) -> Result<bool, AllocError>
    ensures { IfOk result (λ b. b ≡ true → SaysWords words.now stations.now history.now entry.now) }
{
    let in_numbers = is_spelled(alloc, stations, history, entry, Spelling::Numbers, words)?;
    if in_numbers || !may_be_named(words) {
        return Ok(in_numbers);
    }
    let in_names = is_spelled(alloc, stations, history, entry, Spelling::Names, words)?;
    Ok(in_names)
}

/// Whether there may be a name in these words: a quote, `error `, or a hyphen, a comma or a bracket behind a letter. An
/// entry is printed once more for these alone.
fn may_be_named(words: &[u8]) -> bool {
    let mut left = words;
    let mut last = b' ';
    while let [first, rest @ ..] = left {
        if *first == b'"' || left.starts_with(b"error ") {
            return true;
        }
        if last.is_ascii_alphabetic() && matches!(first, b'-' | b',' | b'[') {
            return true;
        }
        last = *first;
        left = rest;
    }
    false
}

/// Whether an entry of a history that is spelled so has these words.
fn is_spelled<A: Allocator + Copy>(
    alloc: A,
    stations: &[Station<A>],
    history: &[WorldEntry<A>],
    entry: &WorldEntry<A>,
    spelling: Spelling,
    words: &[u8],
) -> Result<bool, AllocError>
    ensures { IfOk result (λ b. b ≡ true → HasWords words.now
        (spec.behind_moment (entry_text spelling stations.now history.now entry.now))) }
{
    let shown = EntryLine {
        entry,
        history,
        stations,
        spelling,
    };
    let line = format!(in alloc; "{shown}")?;
    Ok(has_words(behind_moment(line.as_bytes()), words))
}

/// What stands in a line behind its first blank.
#[tactic(auto, unfolding(crate::specs::Words::behind_moment))]
pub(crate) fn behind_moment(line: &[u8]) -> &[u8]
    ensures { result.now ≡ spec.behind_moment line.now }
{
    let mut left = line;
    while let [first, rest @ ..] = left {
        left = rest;
        if *first == b' ' {
            return left;
        }
    }
    left
}

/// Whether a text has these words, or begins with them: whole words alone.
pub(crate) fn has_words(text: &[u8], words: &[u8]) -> bool
    ensures { result ≡ true → HasWords words.now text.now }
{
    match text.strip_prefix(words) {
        Some(rest) => is_word_end(rest),
        None => false,
    }
}

/// Whether nothing stands here, or a blank first.
fn is_word_end(text: &[u8]) -> bool
    ensures { result ≡ true → IsWordEnd text.now }
{
    match text {
        [] => true,
        [first, ..] => *first == b' ',
    }
}
