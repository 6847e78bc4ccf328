//! Pictures that a row describes: `draw a b (c) [1:0..1] {1:0..2:13020}; 20 0>1 Who-Is -> ..`, the names of the
//! stations, in brackets where they have no lane, the lanes of each network, and the shades: a station, its first and
//! its last row, and the moment at which it ends. Behind them the rows, each with its moment: a message that is
//! received, one that isn't (`0x1`, or `0x` for all), a broadcast (`0>*1,2`, `0x*1`), and its text, where `#3/7` is a
//! segment of so many, `#3` one of an unknown number, `~1` a retry, `~again` what is delivered again and `+28` so many
//! senders more; a note on a lane (`0`, or `-` for none); or a pause (`gap 3000`). `draw` wants what the picture draws:
//! the shapes of paths, and the places of dots, bars and texts; `titles` wants each row in words. `escape` and `cut N`
//! want a text as it stands in SVG.
//!
//! A picture is drawn again with each allocation refused in turn.

use crate::drawn::{shapes, titles};
use crate::nesting::is_nested;
use ladder::{
    Anchor, Arrow, Band, Escaped, Kind, Ladder, Mark, Note, Reach, Repeat, Row, Segment, Shade,
    Station, write_svg,
};
use sheets::{Counts, Given, Part, Stop, Trial, differs, number, run_text, try_row, two_words};
use std::alloc::{Allocator, Global};

/// Runs a row on a text as a whole.
pub(crate) fn run_escaped(given: Given<'_>, text: &str, wanted: &str) -> Result<Counts, Stop> {
    run_text(format!(in given.alloc; "{}", Escaped::whole(text))?, wanted)
}

/// Runs a row on a text that is cut.
pub(crate) fn run_cut(given: Given<'_>, words: &str, wanted: &str) -> Result<Counts, Stop> {
    let (most, text) = two_words(words);
    let most = number(most)? as usize;
    run_text(
        format!(in given.alloc; "{}", Escaped { text, most })?,
        wanted,
    )
}

/// Runs a row on what a picture draws.
pub(crate) fn run_drawn(given: Given<'_>, words: &str, wanted: &str) -> Result<Counts, Stop> {
    let picture = Picture {
        words,
        are_titles: false,
    };
    try_row(given, &picture, &[], wanted)
}

/// Runs a row on the rows of a picture in words.
pub(crate) fn run_titles(given: Given<'_>, words: &str, wanted: &str) -> Result<Counts, Stop> {
    let picture = Picture {
        words,
        are_titles: true,
    };
    try_row(given, &picture, &[], wanted)
}

/// A picture that words describe.
#[derive(Clone, Copy)]
struct Picture<'a> {
    words: &'a str,
    /// Whether its rows are wanted in words.
    are_titles: bool,
}

impl<'a> Trial<'a> for Picture<'_> {
    fn answer(&self, given: Given<'a>, _octets: &[u8]) -> Result<String, Stop> {
        let ladder = ladder_in(given.memory, self.words)?;
        let mut out = Vec::new(given.memory);
        if write_svg(&ladder, &mut out).is_err() {
            return Err(Stop::Memory);
        }
        let text = std::str::from_utf8(out.as_slice()).unwrap_or("");
        if !is_nested(given.alloc, text)? {
            return Err(differs(given.alloc, "elements that aren't nested"));
        }
        if self.are_titles {
            titles(given.alloc, text)
        } else {
            shapes(given.alloc, text)
        }
    }
}

/// The ladder that words describe.
fn ladder_in<A: Allocator + Copy>(alloc: A, words: &str) -> Result<Ladder<A>, Stop> {
    let mut ladder = Ladder {
        stations: Vec::new(alloc),
        bands: Vec::new(alloc),
        rows: Vec::new(alloc),
        shades: Vec::new(alloc),
        remark: String::new(alloc),
    };
    let (names, described) = match words.split_once("; ") {
        Some(parts) => parts,
        None => (words, ""),
    };
    for word in names.split(' ') {
        add_word(alloc, word, &mut ladder)?;
    }
    if !described.is_empty() {
        for row in described.split("; ") {
            ladder.rows.push(row_in(alloc, row)?)?;
        }
    }
    Ok(ladder)
}

/// Adds a station, a band or a shade.
fn add_word<A: Allocator + Copy>(alloc: A, word: &str, ladder: &mut Ladder<A>) -> Result<(), Stop> {
    if let Some(band) = inside(word, "[", "]") {
        let (network, lanes) = parts(band, ":")?;
        let (first, last) = parts(lanes, "..")?;
        ladder.bands.push(Band {
            network: network_in(network)?,
            first: number(first)? as usize,
            last: number(last)? as usize,
        })?;
    } else if let Some(shade) = inside(word, "{", "}") {
        let (station, rows) = parts(shade, ":")?;
        let (rows, until) = parts(rows, ":")?;
        let (first, last) = parts(rows, "..")?;
        ladder.shades.push(Shade {
            station: number(station)? as usize,
            first: number(first)? as usize,
            last: number(last)? as usize,
            until: u64::from(number(until)?),
        })?;
    } else {
        let place = ladder.lanes();
        let (name, lane) = match inside(word, "(", ")") {
            Some(name) => (name, None),
            None => (word, Some(place)),
        };
        let name = String::from_str(alloc, name)?;
        ladder.stations.push(Station { name, lane })?;
    }
    Ok(())
}

/// The number of a network that a word is.
fn network_in(word: &str) -> Result<u16, Stop> {
    match u16::try_from(number(word)?) {
        Ok(network) => Ok(network),
        Err(_) => Err(Stop::Unread(Part::Asked)),
    }
}

/// What stands between two marks that a word begins and ends with.
fn inside<'a>(word: &'a str, before: &str, behind: &str) -> Option<&'a str> {
    word.strip_prefix(before)?.strip_suffix(behind)
}

/// What stands before and behind a mark.
fn parts<'a>(words: &'a str, mark: &str) -> Result<(&'a str, &'a str), Stop> {
    match words.split_once(mark) {
        Some(parts) => Ok(parts),
        None => Err(Stop::Unread(Part::Asked)),
    }
}

/// The row that words describe.
fn row_in<A: Allocator + Copy>(alloc: A, words: &str) -> Result<Row<A>, Stop> {
    let (moment, words) = two_words(words);
    let (place, text) = two_words(words);
    let moment = u64::from(number(moment)?);
    if place == "gap" {
        let mark = Mark::Gap(u64::from(number(text)?));
        return Ok(Row { moment, mark });
    }
    let mark = match (place.split_once('>'), place.split_once('x')) {
        (Some((from, to)), _) => Mark::Arrow(arrow(alloc, from, to, true, text)?),
        (None, Some((from, to))) => Mark::Arrow(arrow(alloc, from, to, false, text)?),
        (None, None) => Mark::Note(Note {
            station: station(place)?,
            text: String::from_str(alloc, text)?,
            request: None,
        }),
    };
    Ok(Row { moment, mark })
}

/// A message from a station to stations.
fn arrow<A: Allocator + Copy>(
    alloc: A,
    from: &str,
    to: &str,
    is_heard: bool,
    text: &str,
) -> Result<Arrow<A>, Stop> {
    let (reach, places) = match to.strip_prefix("*") {
        Some(places) => (Reach::All, places),
        None => (Reach::One, to),
    };
    let mut to = Vec::new(alloc);
    if !places.is_empty() {
        for place in places.split(',') {
            to.push(number(place)? as usize)?;
        }
    }
    let (text, more) = text.split_once(" +").unwrap_or((text, "0"));
    let (text, repeat) = text.split_once(" ~").unwrap_or((text, ""));
    let (text, segment) = text.split_once(" #").unwrap_or((text, ""));
    Ok(Arrow {
        from: number(from)? as usize,
        more: number(more)? as usize,
        reach,
        to,
        is_heard,
        kind: Kind::Request,
        label: String::from_str(alloc, text)?,
        segment: segment_in(segment)?,
        repeat: repeat_in(repeat)?,
        request: None,
        anchor: Anchor::Datagram(0),
    })
}

/// The segment that a word says, if it says one.
fn segment_in(word: &str) -> Result<Option<Segment>, Stop> {
    if word.is_empty() {
        return Ok(None);
    }
    let (place, count) = match word.split_once('/') {
        Some((place, count)) => (place, Some(u64::from(number(count)?))),
        None => (word, None),
    };
    Ok(Some(Segment {
        number: u64::from(number(place)?),
        count,
    }))
}

/// The repeat that a word says.
fn repeat_in(word: &str) -> Result<Repeat, Stop> {
    match word {
        "" => Ok(Repeat::None),
        "again" => Ok(Repeat::Delivery),
        _ => Ok(Repeat::Retry(u64::from(number(word)?))),
    }
}

/// The place of a station, if it is one.
fn station(word: &str) -> Result<Option<usize>, Stop> {
    if word == "-" {
        return Ok(None);
    }
    Ok(Some(number(word)? as usize))
}
