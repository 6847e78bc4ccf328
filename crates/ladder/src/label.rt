//! What stands above the line of a message.

use crate::escaped::Escaped;
use crate::layout::{Layout, MOST_OF_LABEL};
use crate::picture::{Arrow, Repeat, Station, lane_of, name_of};
use crate::row_text::{Receivers, Sender, fmt_marks};
use std::alloc::Allocator;
use std::io::Write;
use std::{fmt, io};

/// From the line of a row up to the texts that stand above it: what goes below their line is above an arrow's head.
const ABOVE: usize = 7;

/// The length of a line whose ends don't fit on a screen.
const FAR: usize = 1200;

/// Writes the label of a message, above its line from one place to another.
pub(crate) fn write_label<A: Allocator, W: Write>(
    layout: Layout,
    stations: &[Station<A>],
    arrow: &Arrow<A>,
    from: usize,
    to: usize,
    y: usize,
    out: &mut W,
) -> io::Result<()> {
    let is_named = FAR < from.abs_diff(to) || is_beyond(arrow, stations);
    let length = length_of(arrow, stations, is_named);
    let x = layout.middle_of(from, to, length);
    let y = y.saturating_sub(ABOVE);
    let label = Label {
        arrow,
        stations,
        is_named,
    };
    writeln!(
        out,
        "<text class=\"label\" x=\"{x}\" y=\"{y}\">{label}</text>"
    )
}

/// Whether the names of a message's stations stand in its label: one of them has no lane.
fn is_beyond<A: Allocator>(arrow: &Arrow<A>, stations: &[Station<A>]) -> bool {
    if lane_of(arrow.from, stations).is_none() {
        return true;
    }
    for place in &arrow.to {
        if lane_of(*place, stations).is_none() {
            return true;
        }
    }
    false
}

/// How many characters of a label are shown, about.
fn length_of<A: Allocator>(arrow: &Arrow<A>, stations: &[Station<A>], is_named: bool) -> usize {
    let label = arrow.label.as_str().chars().count().min(MOST_OF_LABEL);
    let segment = if arrow.segment.is_some() { 16 } else { 0 };
    let repeat = match arrow.repeat {
        Repeat::None => 0,
        Repeat::Retry(_) => 9,
        Repeat::Delivery => 17,
    };
    let names = if is_named {
        length_of_names(arrow, stations)
    } else {
        0
    };
    label
        .saturating_add(segment)
        .saturating_add(repeat)
        .saturating_add(names)
}

/// How many characters the names of a message's stations have before its label, about.
fn length_of_names<A: Allocator>(arrow: &Arrow<A>, stations: &[Station<A>]) -> usize {
    let sender = name_of(arrow.from, stations).len();
    let more = if arrow.more == 0 { 0 } else { 12 };
    let receivers = match arrow.to.as_slice() {
        [place] => name_of(*place, stations).len(),
        [] | [_, ..] => 11,
    };
    sender
        .saturating_add(more)
        .saturating_add(receivers)
        .saturating_add(6)
}

/// The label of a message, of a segment with its number and of a repeat with its count: `ReadProperty, invoke 1`,
/// `panel to 29 stations: Who-Is`.
#[derive(Clone, Copy)]
struct Label<'a, A: Allocator> {
    arrow: &'a Arrow<A>,
    stations: &'a [Station<A>],
    is_named: bool,
}

impl<A: Allocator> fmt::Display for Label<'_, A> {
    fn fmt<W: fmt::Write>(&self, f: &mut fmt::Formatter<W>) -> fmt::Result {
        let Label {
            arrow,
            stations,
            is_named,
        } = *self;
        if is_named {
            let sender = Sender { arrow, stations };
            let receivers = Receivers { arrow, stations };
            write!(f, "{sender} to {receivers}: ")?;
        }
        let text = Escaped {
            text: arrow.label.as_str(),
            most: MOST_OF_LABEL,
        };
        write!(f, "{text}")?;
        fmt_marks(arrow.segment, arrow.repeat, f)
    }
}
