//! What lines become. Each run reads again what was written: as many lines as were given, each one an object.
//!
//! A row runs as it stands; with each allocation refused in turn, where what was written before is the beginning of
//! what is wanted; and with each prefix of its octets and each of them changed.

use json_lines::{JsonOut, Kind, write_json};
use serde_json::Value;
use sheets::{Counts, Given, Part, Stop, Trial, differs, push_mark, run_trial};
use std::alloc::Global;
use std::io;
use std::io::{ErrorKind, Write};

/// The kind that a word names.
///
/// # Errors
/// `Unread` where it names none.
pub(crate) fn kind_of(word: &str) -> Result<Kind, Stop> {
    match word {
        "history" => Ok(Kind::History),
        "check" => Ok(Kind::Check),
        "explain" => Ok(Kind::Explain),
        _ => Err(Stop::Unread(Part::Asked)),
    }
}

/// How lines are given.
#[derive(Clone, Copy, Debug, PartialEq, Eq)]
pub(crate) enum Way {
    /// All at once.
    Whole,
    /// Octet by octet, as they are printed, with a flush behind each one.
    Piecewise,
}

/// Runs a row on lines of a kind.
pub(crate) fn run(
    given: Given<'_>,
    way: Way,
    kind: Kind,
    lines: &[u8],
    wanted: &str,
) -> Result<Counts, Stop> {
    run_trial(given, &Writing { way, kind, wanted }, lines, wanted)
}

/// Lines of a kind that become objects, and what is wanted of them as they stand.
#[derive(Clone, Copy)]
struct Writing<'t> {
    way: Way,
    kind: Kind,
    wanted: &'t str,
}

impl Writing<'_> {
    /// Writes the objects of lines, in memory that may be refused.
    fn write(&self, given: Given<'_>, octets: &[u8], out: &mut Vec<u8>) -> io::Result<()> {
        match self.way {
            Way::Whole => write_json(given.memory, self.kind, octets, out),
            Way::Piecewise => {
                let mut printed = JsonOut::new(given.memory, self.kind, out);
                for octet in octets {
                    printed.write_all(&[*octet])?;
                    printed.flush()?;
                }
                Ok(())
            }
        }
    }

    /// How many objects are wanted of octets: one for each line; where they come piecewise the last line waits for its
    /// end.
    fn count_of(&self, octets: &[u8]) -> usize {
        let ends = octets.iter().filter(|octet| **octet == b'\n').count();
        match (self.way, octets) {
            (Way::Whole, [.., last]) if *last != b'\n' => ends.saturating_add(1),
            (Way::Whole | Way::Piecewise, _) => ends,
        }
    }
}

impl<'a> Trial<'a> for Writing<'_> {
    fn answer(&self, given: Given<'a>, octets: &[u8]) -> Result<String, Stop> {
        let mut out = Vec::new(given.alloc);
        let written = self.write(given, octets, &mut out);
        let (objects, count) = objects_in(given.alloc, out.as_slice())?;
        match written {
            Ok(()) if count != self.count_of(octets) => {
                Err(differs(given.alloc, "another number of objects than of lines"))
            }
            Ok(()) if count == 0 => Ok(String::from_str(given.alloc, "nothing")?),
            Ok(()) => Ok(objects),
            Err(error) if error.kind() != ErrorKind::OutOfMemory => {
                Err(differs(given.alloc, "a failed write"))
            }
            Err(_) if self.wanted.starts_with(objects.as_str()) => Err(Stop::Memory),
            Err(_) => Err(differs(given.alloc, "other objects where memory was refused")),
        }
    }
}

/// The objects that were written, parted by ` / `, and how many there are. Each stands on a line of its own, and is
/// read as JSON.
fn objects_in(alloc: Global, written: &[u8]) -> Result<(String, usize), Stop> {
    let Ok(text) = std::str::from_utf8(written) else {
        return Err(differs(alloc, "what is no text"));
    };
    if !text.is_empty() && !text.ends_with('\n') {
        return Err(differs(alloc, "a line without its end"));
    }
    let mut all = String::new(alloc);
    let mut count = 0usize;
    for line in text.lines() {
        push_object(alloc, line, &mut all)?;
        count = count.saturating_add(1);
    }
    Ok((all, count))
}

/// Appends an object, if it is one.
fn push_object(alloc: Global, line: &str, all: &mut String) -> Result<(), Stop> {
    match Value::from_slice(alloc, line.as_bytes()) {
        Ok(value) if value.is_object() => {
            push_mark(" / ", all)?;
            all.push_str(line)?;
            Ok(())
        }
        Err(error) if error.is_memory() => Err(Stop::Memory),
        Ok(_) | Err(_) => Err(differs(alloc, "what is no object of JSON")),
    }
}
