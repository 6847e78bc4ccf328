//! A ladder of the packets that a finding names, in SVG: a lane for each station, and an arrow for each packet.

use crate::gathering::{Gathering, Seen};
use crate::plot::Thousandths;
use diagnosis_parts::Party;
use findings::Packets;
use ladder::{Escaped, Kind};
use std::alloc::{AllocError, Allocator};
use std::io;
use std::io::Write;

/// Where the first lane stands, from the left.
const FIRST_LANE: usize = 220;

/// How far a lane is from the next.
const LANE: usize = 300;

/// Where the first row stands, from the top.
const FIRST_ROW: usize = 56;

/// How far a row is from the next.
const ROW: usize = 34;

/// Writes the ladder of some packets.
pub(crate) fn write_rungs<A: Allocator + Copy, W: Write>(
    alloc: A,
    packets: Packets,
    gathering: &Gathering<'_, A>,
    out: &mut W,
) -> io::Result<()> {
    let lanes = lanes_of(alloc, packets, gathering)?;
    let lanes = lanes.as_slice();
    let width = lane_at(lanes.len());
    let mut place = 0usize;
    writeln!(
        out,
        "<svg class=\"rungs\" width=\"{width}\" height=\"{}\"><title>{packets}</title>",
        row_at(4)
    )?;
    write_lanes(lanes, out)?;
    for number in numbers_of(packets) {
        if let Some(seen) = gathering.packet(number) {
            write_rung(lanes, place, seen, out)?;
            place = place.saturating_add(1);
        }
    }
    writeln!(out, "</svg>")
}

/// The numbers of packets; 0 stands for none.
fn numbers_of(packets: Packets) -> [u64; 4] {
    [packets.first, packets.second, packets.third, packets.fourth]
}

/// The stations of some packets, in the order in which they appear.
fn lanes_of<A: Allocator + Copy>(
    alloc: A,
    packets: Packets,
    gathering: &Gathering<'_, A>,
) -> Result<Vec<Party, A>, AllocError> {
    let mut lanes = Vec::new(alloc);
    for number in numbers_of(packets) {
        if let Some(seen) = gathering.packet(number) {
            add_lane(seen.sender, &mut lanes)?;
            add_lane(seen.receiver, &mut lanes)?;
        }
    }
    Ok(lanes)
}

/// Adds a station, if it is one that isn't there.
fn add_lane<A: Allocator>(
    party: Option<Party>,
    lanes: &mut Vec<Party, A>,
) -> Result<(), AllocError> {
    match party {
        Some(party) if !lanes.as_slice().contains(&party) => {
            lanes.push(party)?;
            Ok(())
        }
        Some(_) | None => Ok(()),
    }
}

/// Where a lane stands, from the left.
fn lane_at(lane: usize) -> usize {
    lane.saturating_mul(LANE).saturating_add(FIRST_LANE)
}

/// Where a row stands, from the top.
fn row_at(row: usize) -> usize {
    row.saturating_mul(ROW).saturating_add(FIRST_ROW)
}

/// Writes the lanes with the names of their stations.
fn write_lanes<W: Write>(lanes: &[Party], out: &mut W) -> io::Result<()> {
    let mut lane = 0usize;
    let foot = row_at(4).saturating_sub(20);
    for party in lanes {
        let x = lane_at(lane);
        writeln!(
            out,
            "<text class=\"station\" x=\"{x}\" y=\"16\">{party}</text><path class=\"lane\" d=\"M{x} 24V{foot}\"/>"
        )?;
        lane = lane.saturating_add(1);
    }
    Ok(())
}

/// Writes a packet: its number, its time, and an arrow with its label.
fn write_rung<A: Allocator, W: Write>(
    lanes: &[Party],
    place: usize,
    seen: &Seen<A>,
    out: &mut W,
) -> io::Result<()> {
    let y = row_at(place);
    let text = y.saturating_add(4);
    let class = class_of(seen.kind);
    writeln!(
        out,
        "<g class=\"{class}\"><text class=\"number\" x=\"8\" y=\"{text}\">{}</text>\
         <text class=\"end\" x=\"190\" y=\"{text}\">{} ms</text>",
        seen.number,
        Thousandths(seen.since)
    )?;
    let from = place_of(lanes, seen.sender);
    let to = place_of(lanes, seen.receiver);
    write_arrow(from, to, y, out)?;
    let x = from.map_or(FIRST_LANE, |from| middle_of(from, to));
    let above = y.saturating_sub(6);
    let label = Escaped::whole(seen.label.as_str());
    writeln!(
        out,
        "<text class=\"label\" x=\"{x}\" y=\"{above}\">{label}</text></g>"
    )
}

/// Where the label of an arrow stands, from the left.
fn middle_of(from: usize, to: Option<usize>) -> usize {
    let to = to.unwrap_or(from.saturating_add(LANE));
    from.saturating_add(to) / 2
}

/// Writes an arrow; one to several stations ends in a ring beside its lane.
fn write_arrow<W: Write>(
    from: Option<usize>,
    to: Option<usize>,
    y: usize,
    out: &mut W,
) -> io::Result<()> {
    let Some(from) = from else {
        return Ok(());
    };
    let Some(to) = to else {
        let end = from.saturating_add(LANE / 2);
        return writeln!(
            out,
            "<path class=\"arrow\" d=\"M{from} {y}H{end}\"/><circle class=\"ring\" cx=\"{end}\" cy=\"{y}\" r=\"4\"/>"
        );
    };
    let back = if from < to {
        to.saturating_sub(9)
    } else {
        to.saturating_add(9)
    };
    let (above, below) = (y.saturating_sub(4), y.saturating_add(4));
    writeln!(
        out,
        "<path class=\"arrow\" d=\"M{from} {y}H{to}\"/><path class=\"head\" d=\"M{to} {y}L{back} {above}V{below}z\"/>"
    )
}

/// Where the lane of a station stands, from the left.
fn place_of(lanes: &[Party], party: Option<Party>) -> Option<usize> {
    let party = party?;
    let mut lane = 0usize;
    for own in lanes {
        if *own == party {
            return Some(lane_at(lane));
        }
        lane = lane.saturating_add(1);
    }
    None
}

/// The class of what a packet is.
fn class_of(kind: Kind) -> &'static str {
    match kind {
        Kind::Request => "request",
        Kind::Answer => "answer",
        Kind::Refusal => "refusal",
        Kind::Unconfirmed => "unconfirmed",
        Kind::Other => "other",
    }
}
