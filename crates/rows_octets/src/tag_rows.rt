//! Tags one after another (20.2.1), as `context 0 55, open 3, refused 2 Short`, and written again; and
//! the octets of `unsigned context 1 85` and `object context 0 5:1`.

ghost use Rattle.std.specs.Prelude.{◌↔◌, IsTrue};
ghost use Rattle.tags.specs.Canonical.{IsSoundTag};
ghost use Rattle.tags.specs.Tag.{plain_content};

use sheets::{
    Counts, Given, Part, Stop, Trial, buffer, differs, octets, octets_in_words, push_mark,
    push_octets, push_written, refusal, run_octets, run_text, try_row, two_words, written_octets,
};
use std::alloc::{AllocError, Global};
use tags::{
    Class, Content, Fault, Reader, Tag, all_or_none, write_object, write_tag, write_unsigned,
};
use words::{parse_number, parse_object};

/// Octets that tags are read from, and that are written of them.
struct Tags;

impl<'a> Trial<'a> for Tags {
    fn answer(&self, given: Given<'a>, octets: &[u8]) -> Result<String, Stop> {
        let mut reader = Reader::new(octets);
        let mut text = String::new(given.alloc);
        let mut again = Vec::new(given.alloc);
        for _ in 0..octets.len() {
            match reader.next() {
                Ok(Some(tag)) => {
                    push_tag(&tag, &mut text)?;
                    append_tag(given, &tag, &mut again)?;
                }
                Ok(None) => break,
                Err(fault) => {
                    push_mark(", ", &mut text)?;
                    text.push_str(refusal(given.alloc, fault)?.as_str())?;
                    return Ok(text);
                }
            }
        }
        if text.is_empty() {
            text.push_str("none")?;
        }
        push_written(octets, again.as_slice(), &mut text)?;
        Ok(text)
    }
}

/// Appends a tag in words.
fn push_tag(tag: &Tag<'_>, text: &mut String) -> Result<(), AllocError> {
    push_mark(", ", text)?;
    let class = match tag.class {
        Class::Application => "application",
        Class::Context => "context",
    };
    let number = tag.number;
    match tag.content {
        Content::Null => write!(text, "{class} {number} -"),
        Content::Boolean(value) => write!(text, "{class} {number} {:02X}", u8::from(value)),
        Content::Octets(octets) => {
            write!(text, "{class} {number} ")?;
            push_octets(octets, text)
        }
        Content::Opening => write!(text, "open {number}"),
        Content::Closing => write!(text, "close {number}"),
    }
}

/// Appends the octets that are written of a tag.
fn append_tag(given: Given<'_>, tag: &Tag<'_>, all: &mut Vec<u8>) -> Result<(), Stop> {
    if !has_spelling(tag) {
        return Err(differs(given.alloc, "a tag without a spelling"));
    }
    let mut out = buffer(given)?;
    let came = write_tag(tag, &mut out);
    all.extend_from_slice(written_octets(given, came, out.as_slice())?)?;
    Ok(())
}

/// Whether a tag has a spelling (20.2.1).
fn has_spelling(tag: &Tag<'_>) -> bool
    ensures { IsTrue result ↔ IsSoundTag tag.now.class tag.now.number (plain_content tag.now.content) }
{
    match (tag.class, tag.content) {
        (Class::Application, Content::Null) => tag.number == 0,
        (Class::Application, Content::Boolean(_)) => tag.number == 1,
        (Class::Application, Content::Octets(octets)) => {
            1 < tag.number && tag.number < 255 && octets.len() < 0x1_0000_0000
        }
        (Class::Context, Content::Octets(octets)) => {
            tag.number < 255 && octets.len() < 0x1_0000_0000
        }
        (Class::Context, Content::Opening | Content::Closing) => tag.number < 255,
        _ => false,
    }
}

/// A number or an object identifier that is written behind a tag.
#[derive(Clone, Copy)]
struct Written<'w> {
    kind: &'w str,
    class: Class,
    number: u8,
    word: &'w str,
}

impl<'w, 'a> Trial<'a> for Written<'w> {
    fn answer(&self, given: Given<'a>, _octets: &[u8]) -> Result<String, Stop> {
        let mut out = buffer(given)?;
        let came = self.write(&mut out)?;
        let octets = written_octets(given, came, out.as_slice())?;
        Ok(octets_in_words(given.alloc, octets)?)
    }
}

impl<'w> Written<'w> {
    /// Writes the number or the object identifier.
    fn write(&self, out: &mut Vec<u8, sheets::Memory<'_>>) -> Result<Result<(), Fault>, Stop> {
        let has_contents = self.class == Class::Context || 1 < self.number;
        if !has_contents || self.number == 255 {
            return Err(Stop::Unread(Part::Asked));
        }
        if self.kind == "unsigned" {
            let number = parse_number(self.word)?;
            return Ok(write_unsigned(self.class, self.number, number, out));
        }
        let object = parse_object(self.word)?;
        if !object.is_sound() {
            return Err(Stop::Unread(Part::Asked));
        }
        Ok(write_object(self.class, self.number, object, out))
    }
}

/// Why a writer of the rows' own puts only a part.
#[derive(Clone, Copy)]
struct Interrupted;

/// What is left of octets, behind so many that stood before, where a writer put the whole or a part.
fn kept(alloc: Global, rest: &str, came: Result<(), Interrupted>) -> Result<String, Stop> {
    let (start, word) = two_words(rest);
    let start = parse_number(start)?;
    let mut out = Vec::from_slice(alloc, octets(alloc, word)?.as_slice())?;
    let put = match all_or_none(came, start, &mut out) {
        Ok(()) => "put",
        Err(Fault::Memory) => "taken back",
        Err(_) => "refused",
    };
    let octets = octets_in_words(alloc, out.as_slice())?;
    Ok(format!(in alloc; "{put} {octets}")?)
}

/// Runs a row: of tags, of what a writer leaves that puts the whole or a part, or of what is written.
pub(crate) fn run(given: Given<'_>, asked: &str, wanted: &str) -> Result<Counts, Stop> {
    match two_words(asked) {
        (word, "") => run_octets(given, &Tags, word, wanted),
        ("whole", rest) => run_text(kept(given.alloc, rest, Ok(()))?, wanted),
        ("part", rest) => run_text(kept(given.alloc, rest, Err(Interrupted))?, wanted),
        (kind, rest) => run_written(given, kind, rest, wanted),
    }
}

/// Runs a row of what is written.
fn run_written(given: Given<'_>, kind: &str, rest: &str, wanted: &str) -> Result<Counts, Stop> {
    let (class, rest) = two_words(rest);
    let class = match class {
        "application" => Class::Application,
        "context" => Class::Context,
        _ => return Err(Stop::Unread(Part::Asked)),
    };
    let (number, word) = two_words(rest);
    if kind != "unsigned" && kind != "object" {
        return Err(Stop::Unread(Part::Asked));
    }
    let written = Written {
        kind,
        class,
        number: parse_number(number)?,
        word,
    };
    try_row(given, &written, &[], wanted)
}
