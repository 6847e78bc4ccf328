//! The lines of a hex dump: an offset, octets in pairs of digits, and a column of text.

ghost use Rattle.octet_texts.specs.Dumps.{IsDumpLine, NoDump, NoDumpLine, NoOffset, OnlyDump, OnlyDumpLine, ReadsLine};
ghost use Rattle.octet_texts.specs.Dumps.{SaysDump, SaysOffset};
ghost use Rattle.octet_texts.specs.Dumps.{after_spaces, before_column, begins_column, begins_with_space};
ghost use Rattle.std.specs.Prelude.{◌≡◌, ◌∷◌, ◌/◌, ◌%◌, [], true, false, length, IfNone, IfOk, IfSome};

use crate::pairs::spelled;
use std::alloc::{AllocError, Allocator};
use tags::{Items, Octets};

/// The octets of a hex dump; `None` for any other text.
#[tactic(auto, using(crate::proofs::DumpLaws::dump_laws))]
pub(crate) fn read_dump<A: Allocator + Copy>(
    alloc: A,
    text: &str,
) -> Result<Option<Octets<A>>, AllocError>
    ensures read { IfOk result (λ found. IfSome found (SaysDump text.now)) }
    ensures only { IfOk result (λ found. IfSome found (OnlyDump text.now)) }
    ensures faulty { IfOk result (λ found. IfNone found (NoDump text.now)) }
{
    let mut octets = Vec::new(alloc);
    for line in text.lines() {
        if !push_line(alloc, line.as_bytes(), &mut octets)? {
            return Ok(None);
        }
    }
    if octets.is_empty() {
        return Ok(None);
    }
    Ok(Some(Items::from_vec(octets)))
}

/// Appends the octets of a line that continues these. Returns whether it does.
#[tactic(auto, using(crate::proofs::DumpLaws::continued))]
fn push_line<A: Allocator + Copy>(
    alloc: A,
    line: &[u8],
    octets: &mut Vec<u8, A>,
) -> Result<bool, AllocError>
    ensures line { IfOk result (λ is_line. is_line ≡ true → ReadsLine line.now octets.old.items octets.new.items) }
    ensures other { IfOk result (λ is_line. is_line ≡ false → NoDumpLine (length octets.old.items) line.now) }
{
    match line_octets(alloc, octets.len(), line)? {
        Some(more) => {
            octets.extend_from_slice(more.as_slice())?;
            Ok(true)
        }
        None => Ok(false),
    }
}

/// The octets of a line whose first octet is at this offset.
#[tactic(auto, using(crate::proofs::DumpLaws::line_laws))]
fn line_octets<A: Allocator + Copy>(
    alloc: A,
    offset: usize,
    line: &[u8],
) -> Result<Option<Octets<A>>, AllocError>
    ensures read { IfOk result (λ found. IfSome found (IsDumpLine offset line.now)) }
    ensures only { IfOk result (λ found. IfSome found (OnlyDumpLine offset line.now)) }
    ensures faulty { IfOk result (λ found. IfNone found (NoDumpLine offset line.now)) }
{
    if line.len() < 4 {
        return Ok(None);
    }
    let (digits, after) = line.split_at(4);
    if !begins_with_space(after) || !says_offset(alloc, offset, digits)? {
        return Ok(None);
    }
    spelled(alloc, before_column(after_spaces(after)))
}

/// Whether digits say an offset.
#[tactic(auto, using(crate::proofs::DumpLaws::offset_laws))]
fn says_offset<A: Allocator + Copy>(
    alloc: A,
    offset: usize,
    digits: &[u8],
) -> Result<bool, AllocError>
    ensures said { IfOk result (λ says. says ≡ true → SaysOffset offset digits.now) }
    ensures other { IfOk result (λ says. says ≡ false → NoOffset offset digits.now) }
{
    match spelled(alloc, digits)? {
        Some(octets) => Ok(are_octets_of(offset, octets.as_slice())),
        None => Ok(false),
    }
}

/// Whether octets are the two of an offset.
fn are_octets_of(offset: usize, octets: &[u8]) -> bool
    ensures two { result ≡ true → octets.now ≡ offset / 256 ∷ offset % 256 ∷ [] }
    ensures other { result ≡ false → octets.now ≡ offset / 256 ∷ offset % 256 ∷ [] → ⊥ }
{
    match octets {
        [high, low] => usize::from(*high) == offset / 256 && usize::from(*low) == offset % 256,
        _ => false,
    }
}

/// Whether a text begins with a space.
fn begins_with_space(text: &[u8]) -> bool
    ensures { result ≡ begins_with_space text.now }
{
    match text {
        [first, ..] => *first == b' ',
        [] => false,
    }
}

/// The text from its first character on that is no space.
#[tactic(auto, unfolding(crate::specs::Dumps::after_spaces))]
fn after_spaces(text: &[u8]) -> &[u8]
    ensures { result.now ≡ after_spaces text.now }
{
    let mut left = text;
    while let [b' ', after @ ..] = left {
        left = after;
    }
    left
}

/// The text up to its first three spaces.
fn before_column(text: &[u8]) -> &[u8]
    ensures { result.now ≡ before_column text.now }
{
    let mut length = 0;
    while length < text.len() && !begins_column(&text[length..]) {
        length += 1;
    }
    &text[..length]
}

/// Whether a text begins with three spaces.
#[tactic(auto, unfolding(crate::specs::Dumps::begins_column))]
fn begins_column(text: &[u8]) -> bool
    ensures { result ≡ begins_column text.now }
{
    match text {
        [first, second, third, ..] => *first == b' ' && *second == b' ' && *third == b' ',
        _ => false,
    }
}
