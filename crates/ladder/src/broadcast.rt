//! What is written of a message that is for all: a line along the lanes, with a dot at each receiver.

use crate::layout::{Layout, STUB};
use crate::marks::write_cross;
use crate::picture::{Arrow, Station, lane_of};
use std::alloc::Allocator;
use std::io;
use std::io::Write;

/// From where to where a line goes.
#[derive(Clone, Copy)]
struct Span {
    left: usize,
    right: usize,
}

/// Writes the line of a broadcast, with a ring at its sender and a dot at each receiver, or a cross at each station
/// that should have received it, and answers its end that is further from the sender.
pub(crate) fn write_broadcast<A: Allocator, W: Write>(
    layout: Layout,
    stations: &[Station<A>],
    arrow: &Arrow<A>,
    from: usize,
    y: usize,
    out: &mut W,
) -> io::Result<usize> {
    let span = span_of(layout, stations, arrow, from);
    let Span { left, right } = span;
    writeln!(out, "<path d=\"M{left} {y}H{right}\"/>")?;
    if lane_of(arrow.from, stations).is_some() {
        writeln!(out, "<circle cx=\"{from}\" cy=\"{y}\" r=\"3\"/>")?;
    }
    if arrow.is_heard {
        write_dots(layout, stations, arrow.to.as_slice(), y, out)?;
    } else {
        write_crosses(layout, stations, arrow, right, y, out)?;
    }
    Ok(if from.abs_diff(left) < from.abs_diff(right) {
        right
    } else {
        left
    })
}

/// From where to where the line goes: over the lanes of its sender and of all receivers, and to the end of the lanes
/// where none of these has one.
fn span_of<A: Allocator>(
    layout: Layout,
    stations: &[Station<A>],
    arrow: &Arrow<A>,
    from: usize,
) -> Span {
    let mut span = Span {
        left: from,
        right: from,
    };
    let mut has_lane = false;
    for place in &arrow.to {
        if let Some(lane) = lane_of(*place, stations) {
            let x = layout.lane(lane);
            span.left = span.left.min(x);
            span.right = span.right.max(x);
            has_lane = true;
        }
    }
    if arrow.to.is_empty() {
        span.right = from.saturating_add(STUB);
    } else if !has_lane {
        span.right = layout.lane_or_end(None);
    }
    span
}

/// Writes a dot at the lane of each receiver that has one.
fn write_dots<A: Allocator, W: Write>(
    layout: Layout,
    stations: &[Station<A>],
    receivers: &[usize],
    y: usize,
    out: &mut W,
) -> io::Result<()> {
    write!(out, "<path class=\"dots\" d=\"")?;
    for place in receivers {
        if let Some(lane) = lane_of(*place, stations) {
            write!(out, "M{} {y}h0", layout.lane(lane))?;
        }
    }
    writeln!(out, "\"/>")
}

/// Writes a cross at the lane of each station that doesn't receive a message, or one at its end where none has a lane.
fn write_crosses<A: Allocator, W: Write>(
    layout: Layout,
    stations: &[Station<A>],
    arrow: &Arrow<A>,
    right: usize,
    y: usize,
    out: &mut W,
) -> io::Result<()> {
    let mut has_lane = false;
    for place in &arrow.to {
        if let Some(lane) = lane_of(*place, stations) {
            write_cross(layout.lane(lane), y, out)?;
            has_lane = true;
        }
    }
    if !has_lane {
        write_cross(right, y, out)?;
    }
    Ok(())
}
