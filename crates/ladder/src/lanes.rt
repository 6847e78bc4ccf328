//! What stands in the background of the rows: lanes with their names, bands of networks, and shades.

use crate::escaped::Escaped;
use crate::layout::{BANDS, Layout};
use crate::picture::{Band, Shade, Station, lane_of, name_of};
use std::alloc::Allocator;
use std::io;
use std::io::Write;

/// Half the width of a shade.
const SHADE: usize = 7;

/// Writes the bands, each with the number of its network; every other one colours its column.
pub(crate) fn write_bands<W: Write>(layout: Layout, bands: &[Band], out: &mut W) -> io::Result<()> {
    let mut is_coloured = false;
    for band in bands {
        write_band(layout, *band, is_coloured, out)?;
        is_coloured = !is_coloured;
    }
    Ok(())
}

/// Writes a band above its lanes.
fn write_band<W: Write>(
    layout: Layout,
    band: Band,
    is_coloured: bool,
    out: &mut W,
) -> io::Result<()> {
    let network = band.network;
    let x = layout.lane_edge(band.first).saturating_add(1);
    let end = layout.lane_edge(band.last.saturating_add(1));
    let width = end.saturating_sub(x).saturating_sub(1);
    let height = layout.foot().saturating_sub(BANDS);
    let text = x.saturating_add(6);
    let shown = if 70 <= width { "network " } else { "" };
    writeln!(out, "<g class=\"band\"><title>network {network}</title>")?;
    if is_coloured {
        writeln!(
            out,
            "<rect class=\"column\" x=\"{x}\" y=\"{BANDS}\" width=\"{width}\" height=\"{height}\"/>"
        )?;
    }
    writeln!(
        out,
        "<rect x=\"{x}\" y=\"0\" width=\"{width}\" height=\"{BANDS}\"/>"
    )?;
    writeln!(
        out,
        "<text class=\"number\" x=\"{text}\" y=\"13\">{shown}{network}</text></g>"
    )
}

/// Writes the shades of devices that ignore requests.
pub(crate) fn write_shades<A: Allocator, W: Write>(
    layout: Layout,
    stations: &[Station<A>],
    shades: &[Shade],
    out: &mut W,
) -> io::Result<()> {
    for shade in shades {
        if let Some(lane) = lane_of(shade.station, stations) {
            let name = Escaped::whole(name_of(shade.station, stations));
            let x = layout.lane(lane).saturating_sub(SHADE);
            let y = layout.row(shade.first);
            let height = layout.row(shade.last).saturating_sub(y).saturating_add(6);
            let until = shade.until;
            writeln!(
                out,
                "<g class=\"shade\"><title>{name} ignores requests until {until} ms</title>"
            )?;
            writeln!(
                out,
                "<rect class=\"deaf\" x=\"{x}\" y=\"{y}\" width=\"14\" height=\"{height}\"/></g>"
            )?;
        }
    }
    Ok(())
}

/// Writes the lanes, each with its name above and below.
pub(crate) fn write_lanes<A: Allocator, W: Write>(
    layout: Layout,
    stations: &[Station<A>],
    out: &mut W,
) -> io::Result<()> {
    for station in stations {
        if let Some(place) = station.lane {
            write_lane(layout, place, station.name.as_str(), out)?;
        }
    }
    Ok(())
}

/// Writes the lane at a place.
fn write_lane<W: Write>(layout: Layout, place: usize, name: &str, out: &mut W) -> io::Result<()> {
    let x = layout.lane(place);
    let head = layout.head();
    let foot = layout.foot();
    let whole = Escaped::whole(name);
    writeln!(
        out,
        "<g class=\"lane\"><title>{whole}</title><path d=\"M{x} {head}V{foot}\"/>"
    )?;
    let name = Escaped {
        text: name,
        most: layout.name_length(),
    };
    let above = head.saturating_sub(8);
    if layout.is_slanted() {
        let below = foot.saturating_add(12);
        write_slanted(name, x, above, -60, out)?;
        write_slanted(name, x, below, 60, out)?;
    } else {
        let below = foot.saturating_add(16);
        write_level(name, x, above, out)?;
        write_level(name, x, below, out)?;
    }
    writeln!(out, "</g>")
}

/// Writes a name in the middle of its lane.
fn write_level<W: Write>(name: Escaped<'_>, x: usize, y: usize, out: &mut W) -> io::Result<()> {
    writeln!(
        out,
        "<text class=\"name over\" x=\"{x}\" y=\"{y}\">{name}</text>"
    )
}

/// Writes a name that begins at its lane, turned by so many degrees.
fn write_slanted<W: Write>(
    name: Escaped<'_>,
    x: usize,
    y: usize,
    degrees: i32,
    out: &mut W,
) -> io::Result<()> {
    writeln!(
        out,
        "<text class=\"name\" transform=\"translate({x} {y}) rotate({degrees})\">{name}</text>"
    )
}
