//! A row in words.

use crate::escaped::Escaped;
use crate::picture::{Arrow, Mark, Note, Repeat, Row, Segment, Station, name_of};
use std::alloc::Allocator;
use std::fmt;

/// A row in words, escaped: `20 ms, panel to ahu: ReadProperty, invoke 1`, `20 ms, panel to 29 stations: Who-Is`,
/// `20 ms, ahu to panel, never received: SimpleACK WriteProperty, invoke 2`, `20 ms, ahu: executed 1 done`,
/// `20 ms: 3000 ms pass`.
#[derive(Clone, Copy)]
pub struct RowText<'a, A: Allocator> {
    pub row: &'a Row<A>,
    pub stations: &'a [Station<A>],
}

impl<A: Allocator> fmt::Display for RowText<'_, A> {
    fn fmt<W: fmt::Write>(&self, f: &mut fmt::Formatter<W>) -> fmt::Result {
        write!(f, "{} ms", self.row.moment)?;
        match &self.row.mark {
            Mark::Arrow(arrow) => fmt_arrow(arrow, self.stations, f),
            Mark::Note(note) => fmt_note(note, self.stations, f),
            Mark::Gap(length) => write!(f, ": {length} ms pass"),
        }
    }
}

/// Writes who says what to whom.
fn fmt_arrow<A: Allocator, W: fmt::Write>(
    arrow: &Arrow<A>,
    stations: &[Station<A>],
    f: &mut fmt::Formatter<W>,
) -> fmt::Result {
    let sender = Sender { arrow, stations };
    let receivers = Receivers { arrow, stations };
    let label = LabelText(arrow);
    let lost = if arrow.is_heard {
        ""
    } else {
        ", never received"
    };
    write!(f, ", {sender} to {receivers}{lost}: {label}")
}

/// Who says a message: `panel`, `ahu1 and 28 more`.
#[derive(Clone, Copy)]
pub(crate) struct Sender<'a, A: Allocator> {
    pub(crate) arrow: &'a Arrow<A>,
    pub(crate) stations: &'a [Station<A>],
}

impl<A: Allocator> fmt::Display for Sender<'_, A> {
    fn fmt<W: fmt::Write>(&self, f: &mut fmt::Formatter<W>) -> fmt::Result {
        let name = Escaped::whole(name_of(self.arrow.from, self.stations));
        match self.arrow.more {
            0 => write!(f, "{name}"),
            more => write!(f, "{name} and {more} more"),
        }
    }
}

/// Who a message is for: `ahu`, `29 stations`, `all`.
#[derive(Clone, Copy)]
pub(crate) struct Receivers<'a, A: Allocator> {
    pub(crate) arrow: &'a Arrow<A>,
    pub(crate) stations: &'a [Station<A>],
}

impl<A: Allocator> fmt::Display for Receivers<'_, A> {
    fn fmt<W: fmt::Write>(&self, f: &mut fmt::Formatter<W>) -> fmt::Result {
        match self.arrow.to.as_slice() {
            [] => f.write_str("all"),
            [place] => write!(f, "{}", Escaped::whole(name_of(*place, self.stations))),
            places => write!(f, "{} stations", places.len()),
        }
    }
}

/// What stands at an arrow, escaped: its label, of a segment its number, and of a repeat that it is one.
#[derive(Clone, Copy)]
pub(crate) struct LabelText<'a, A: Allocator>(pub(crate) &'a Arrow<A>);

impl<A: Allocator> fmt::Display for LabelText<'_, A> {
    fn fmt<W: fmt::Write>(&self, f: &mut fmt::Formatter<W>) -> fmt::Result {
        write!(f, "{}", Escaped::whole(self.0.label.as_str()))?;
        fmt_marks(self.0.segment, self.0.repeat, f)
    }
}

/// Writes the number of a segment, and that a message is a repeat.
pub(crate) fn fmt_marks<W: fmt::Write>(
    segment: Option<Segment>,
    repeat: Repeat,
    f: &mut fmt::Formatter<W>,
) -> fmt::Result {
    match segment {
        None => {}
        Some(
            Segment {
                number,
                count: Some(count),
            },
        ) => write!(f, ", segment {number} of {count}")?,
        Some(
            Segment {
                number,
                count: None,
            },
        ) => write!(f, ", segment {number}")?,
    }
    match repeat {
        Repeat::None => Ok(()),
        Repeat::Retry(times) => write!(f, ", retry {times}"),
        Repeat::Delivery => f.write_str(", delivered again"),
    }
}

/// Writes of whom what is told.
fn fmt_note<A: Allocator, W: fmt::Write>(
    note: &Note<A>,
    stations: &[Station<A>],
    f: &mut fmt::Formatter<W>,
) -> fmt::Result {
    if let Some(place) = note.station {
        let name = name_of(place, stations);
        write!(f, ", {}", Escaped::whole(name))?;
    }
    write!(f, ": {}", Escaped::whole(note.text.as_str()))
}
