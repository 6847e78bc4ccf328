//! Tagged values (clause 20.2), as `unsigned 5, 1 left`, and written again.

use sheets::{
    Counts, Given, Part, Stop, Trial, buffer_in, differs, octets, octets_in_words, push_written,
    refusal, run_octets, run_text, try_row, two_words, written_octets,
};
use std::alloc::{Allocator, Global};
use tags::{Reader, Value, read_value, write_value};
use words::{Words, parse_values};

/// Octets at whose front a value is read.
struct Values;

impl<'a> Trial<'a> for Values {
    fn answer(&self, given: Given<'a>, octets: &[u8]) -> Result<String, Stop> {
        told(given, given.other, given.memory, octets)
    }
}

/// The value that is read at the front of octets, in words, how many octets are left, and what is written
/// of it where that is not what was read.
fn told<A: Allocator + Copy>(
    given: Given<'_>,
    other: A,
    memory: A,
    octets: &[u8],
) -> Result<String, Stop> {
    let mut reader = Reader::new(octets);
    let read = read_value(memory, &mut reader);
    let left = reader.rest().len();
    match read {
        Ok(value) => {
            let mut text = format!(in given.alloc; "{}, {left} left", Words(&value))?;
            let taken = &octets[..octets.len().saturating_sub(left)];
            push_again(given, (other, memory), taken, &value, &mut text)?;
            Ok(text)
        }
        Err(_) if left != octets.len() => Err(differs(given.alloc, "a reader that has moved")),
        Err(fault) => {
            let text = refusal(given.alloc, fault)?;
            Ok(format!(in given.alloc; "{text}, {left} left")?)
        }
    }
}

/// Appends what is written of a value, where that is not what was read. Its copy is equal, and lies in the
/// memory that it is given, not in that of the value.
fn push_again<A: Allocator + Copy>(
    given: Given<'_>,
    (other, memory): (A, A),
    taken: &[u8],
    value: &Value<A>,
    text: &mut String,
) -> Result<(), Stop> {
    if !is_copied(given, value.copy(other)?, memory, value)? {
        return Err(differs(given.alloc, "a copy that is not equal"));
    }
    if !value.is_sound() {
        return Err(differs(given.alloc, "a value without a spelling"));
    }
    let mut out = buffer_in(memory)?;
    let came = write_value(value, &mut out);
    push_written(taken, written_octets(given, came, out.as_slice())?, text)?;
    Ok(())
}

/// Whether the copy of a value is equal, made while the memory is refused in which the value lies.
fn is_copied<A: Allocator + Copy>(
    given: Given<'_>,
    original: Value<A>,
    memory: A,
    wanted: &Value<A>,
) -> Result<bool, Stop> {
    given.other.refuse_all();
    let copy = original.copy(memory);
    given.other.refuse_only(0);
    Ok(copy? == *wanted)
}

/// Octets of which each is read, and what is written of the value.
struct Lengths;

impl<'a> Trial<'a> for Lengths {
    fn answer(&self, given: Given<'a>, octets: &[u8]) -> Result<String, Stop> {
        told_long(given, given.other, given.memory, octets)
    }
}

/// `read`, and what is written of the value that octets spell where that is not what was read.
fn told_long<A: Allocator + Copy>(
    given: Given<'_>,
    other: A,
    memory: A,
    octets: &[u8],
) -> Result<String, Stop> {
    match read_value(memory, &mut Reader::new(octets)) {
        Ok(value) => {
            let mut text = String::from_str(given.alloc, "read")?;
            push_again(given, (other, memory), octets, &value, &mut text)?;
            Ok(text)
        }
        Err(fault) => refusal(given.alloc, fault),
    }
}

/// Runs a row: of octets, of many octets, which are not cut and changed, or of whether a value has a
/// spelling.
pub(crate) fn run(given: Given<'_>, asked: &str, wanted: &str) -> Result<Counts, Stop> {
    match two_words(asked) {
        (word, "") => run_octets(given, &Values, word, wanted),
        ("long", word) => {
            let octets = octets(given.alloc, word)?;
            try_row(given, &Lengths, octets.as_slice(), wanted)
        }
        ("write", words) => run_text(soundness(given.alloc, given.alloc, words)?, wanted),
        _ => Err(Stop::Unread(Part::Asked)),
    }
}

/// The spelling of a value in words, or `unsound` where it has none.
fn soundness<A: Allocator + Copy>(alloc: Global, memory: A, words: &str) -> Result<String, Stop> {
    let values = parse_values(memory, words)?;
    let [value] = values.as_slice() else {
        return Err(Stop::Unread(Part::Asked));
    };
    if !value.is_sound() {
        return Ok(String::from_str(alloc, "unsound")?);
    }
    let mut out = Vec::new(memory);
    write_value(value, &mut out)?;
    Ok(octets_in_words(alloc, out.as_slice())?)
}
