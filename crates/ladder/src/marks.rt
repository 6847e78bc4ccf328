//! What is written of a row.

use crate::broadcast::write_broadcast;
use crate::classes::{ClassesOf, ClassesOfNote};
use crate::escaped::Escaped;
use crate::label::write_label;
use crate::layout::{Layout, MOMENTS, MOST_OF_NOTE, STUB};
use crate::picture::{Arrow, Kind, Mark, Note, Reach, Row, Station, lane_of};
use crate::row_text::{Receivers, RowText, Sender};
use crate::svg::Piece;
use std::alloc::Allocator;
use std::io;
use std::io::Write;

/// From the line of a row down to the texts that stand beside it.
const BESIDE: usize = 4;

/// Writes the row at a place, or a piece of it.
pub(crate) fn write_row<A: Allocator, W: Write>(
    layout: Layout,
    stations: &[Station<A>],
    place: usize,
    row: &Row<A>,
    piece: Piece,
    out: &mut W,
) -> io::Result<()> {
    let y = layout.row(place);
    match piece {
        Piece::Whole => {
            write_group(row, out)?;
            let text = RowText { row, stations };
            writeln!(out, "<title>{text}</title>")?;
            write_moment(row, y, out)?;
            write_mark(layout, stations, &row.mark, y, out)?;
            writeln!(out, "</g>")
        }
        Piece::Moment => write_moment(row, y, out),
        Piece::Mark => write_linked(layout, stations, place, row, out),
    }
}

/// Writes what a row begins with in a picture that stands alone.
fn write_group<A: Allocator, W: Write>(row: &Row<A>, out: &mut W) -> io::Result<()> {
    match &row.mark {
        Mark::Arrow(arrow) => {
            let kind = class_of(arrow.kind);
            let lost = lost_of(arrow);
            write!(out, "<g class=\"{kind}{lost}\">")
        }
        Mark::Note(_) => write!(out, "<g class=\"note\">"),
        Mark::Gap(_) => write!(out, "<g class=\"gap\">"),
    }
}

/// Writes the mark of the row at a place, in a page: an arrow leads to its anchor, and by its name `a17` others lead to
/// it. Its classes are the request and the stations that it is of, by which it can be chosen.
fn write_linked<A: Allocator, W: Write>(
    layout: Layout,
    stations: &[Station<A>],
    place: usize,
    row: &Row<A>,
    out: &mut W,
) -> io::Result<()> {
    let y = layout.row(place);
    match &row.mark {
        Mark::Arrow(arrow) => {
            let kind = class_of(arrow.kind);
            let lost = lost_of(arrow);
            let anchor = arrow.anchor;
            let of = ClassesOf { arrow };
            let sender = Sender { arrow, stations };
            let receivers = Receivers { arrow, stations };
            writeln!(
                out,
                "<a id=\"a{place}\" href=\"#{anchor}\" class=\"{kind}{lost}{of}\"><title>{sender} to {receivers}</title>"
            )?;
            write_arrow(layout, stations, arrow, y, out)?;
            writeln!(out, "</a>")
        }
        Mark::Note(note) => {
            let of = ClassesOfNote { note };
            writeln!(out, "<g id=\"a{place}\" class=\"note{of}\">")?;
            write_note(layout, stations, note, y, out)?;
            writeln!(out, "</g>")
        }
        Mark::Gap(length) => {
            writeln!(out, "<g class=\"gap\">")?;
            write_gap(layout, *length, y, out)?;
            writeln!(out, "</g>")
        }
    }
}

/// Writes a mark.
fn write_mark<A: Allocator, W: Write>(
    layout: Layout,
    stations: &[Station<A>],
    mark: &Mark<A>,
    y: usize,
    out: &mut W,
) -> io::Result<()> {
    match mark {
        Mark::Arrow(arrow) => write_arrow(layout, stations, arrow, y, out),
        Mark::Note(note) => write_note(layout, stations, note, y, out),
        Mark::Gap(length) => write_gap(layout, *length, y, out),
    }
}

/// The class of a message that nobody receives, behind another.
fn lost_of<A: Allocator>(arrow: &Arrow<A>) -> &'static str {
    if arrow.is_heard { "" } else { " lost" }
}

/// The class of a kind of message.
fn class_of(kind: Kind) -> &'static str {
    match kind {
        Kind::Request => "request",
        Kind::Answer => "answer",
        Kind::Refusal => "refusal",
        Kind::Unconfirmed => "unconfirmed",
        Kind::Other => "other",
    }
}

/// Writes the moment of a row, in milliseconds; a pause has none.
fn write_moment<A: Allocator, W: Write>(row: &Row<A>, y: usize, out: &mut W) -> io::Result<()> {
    if let Mark::Gap(_) = row.mark {
        return Ok(());
    }
    let x = MOMENTS - 8;
    let y = y.saturating_add(BESIDE);
    let moment = row.moment;
    writeln!(
        out,
        "<text class=\"moment\" x=\"{x}\" y=\"{y}\">{moment}</text>"
    )
}

/// Writes a message: an arrow to one station, or a line with dots.
fn write_arrow<A: Allocator, W: Write>(
    layout: Layout,
    stations: &[Station<A>],
    arrow: &Arrow<A>,
    y: usize,
    out: &mut W,
) -> io::Result<()> {
    let from = layout.lane_or_end(lane_of(arrow.from, stations));
    let end = match arrow.reach {
        Reach::One => write_single(layout, stations, arrow, from, y, out)?,
        Reach::All => write_broadcast(layout, stations, arrow, from, y, out)?,
    };
    write_label(layout, stations, arrow, from, end, y, out)
}

/// Writes an arrow to one station, and answers where it ends.
fn write_single<A: Allocator, W: Write>(
    layout: Layout,
    stations: &[Station<A>],
    arrow: &Arrow<A>,
    from: usize,
    y: usize,
    out: &mut W,
) -> io::Result<usize> {
    let end = end_of(layout, stations, arrow, from);
    writeln!(out, "<path d=\"M{from} {y}H{end}\"/>")?;
    if !arrow.is_heard {
        write_cross(end, y, out)?;
    } else if from < end {
        writeln!(out, "<path class=\"head\" d=\"M{end} {y}l-8 -4v8z\"/>")?;
    } else {
        writeln!(out, "<path class=\"head\" d=\"M{end} {y}l8 -4v8z\"/>")?;
    }
    Ok(end)
}

/// Where an arrow ends: at the lane of who hears it, or in the air on the way there.
fn end_of<A: Allocator>(
    layout: Layout,
    stations: &[Station<A>],
    arrow: &Arrow<A>,
    from: usize,
) -> usize {
    let to = match arrow.to.as_slice() {
        [to, ..] => layout.lane_or_end(lane_of(*to, stations)),
        [] => layout.width(),
    };
    if arrow.is_heard && to != from {
        to
    } else if to < from {
        from.saturating_sub(STUB)
    } else {
        from.saturating_add(STUB)
    }
}

/// Writes the cross of a message that nobody hears.
pub(crate) fn write_cross<W: Write>(end: usize, y: usize, out: &mut W) -> io::Result<()> {
    writeln!(
        out,
        "<path class=\"cross\" d=\"M{end} {y}m-5 -5l10 10m0 -10l-10 10\"/>"
    )
}

/// Writes a note: a dot on its lane, and its text beside that.
fn write_note<A: Allocator, W: Write>(
    layout: Layout,
    stations: &[Station<A>],
    note: &Note<A>,
    y: usize,
    out: &mut W,
) -> io::Result<()> {
    let text = note.text.as_str();
    let Some(place) = note.station else {
        return write_beside(layout, text, MOMENTS, y, out);
    };
    let x = layout.lane_or_end(lane_of(place, stations));
    writeln!(out, "<circle class=\"dot\" cx=\"{x}\" cy=\"{y}\" r=\"4\"/>")?;
    write_beside(layout, text, x, y, out)
}

/// Writes a text behind a place, or before it where there is no room behind it.
fn write_beside<W: Write>(
    layout: Layout,
    text: &str,
    place: usize,
    y: usize,
    out: &mut W,
) -> io::Result<()> {
    let y = y.saturating_add(BESIDE);
    let behind = place.saturating_add(10);
    let is_behind = layout.fits_behind(behind, text.chars().count());
    let text = Escaped {
        text,
        most: MOST_OF_NOTE,
    };
    if is_behind {
        writeln!(out, "<text x=\"{behind}\" y=\"{y}\">{text}</text>")
    } else {
        let x = place.saturating_sub(10);
        writeln!(
            out,
            "<text class=\"before\" x=\"{x}\" y=\"{y}\">{text}</text>"
        )
    }
}

/// Writes a pause: a bar across the lanes, with its length.
fn write_gap<W: Write>(layout: Layout, length: u64, y: usize, out: &mut W) -> io::Result<()> {
    let top = y.saturating_sub(12);
    let width = layout.width().saturating_sub(MOMENTS);
    let x = layout.lane_or_end(Some(0)).saturating_add(10);
    let base = y.saturating_sub(1);
    writeln!(
        out,
        "<rect x=\"{MOMENTS}\" y=\"{top}\" width=\"{width}\" height=\"14\"/>"
    )?;
    writeln!(
        out,
        "<text class=\"pause\" x=\"{x}\" y=\"{base}\">{length} ms</text>"
    )
}
