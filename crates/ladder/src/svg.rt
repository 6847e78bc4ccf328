//! The picture as SVG.

use crate::escaped::Escaped;
use crate::lanes::{write_bands, write_lanes, write_shades};
use crate::layout::Layout;
use crate::marks::write_row;
use crate::picture::Ladder;
use std::alloc::Allocator;
use std::io;
use std::io::Write;

/// What is written of a row.
#[derive(Clone, Copy, Debug, PartialEq, Eq)]
pub(crate) enum Piece {
    /// All of it, in a picture that stands alone.
    Whole,
    /// Its moment, in the column of a page that stays.
    Moment,
    /// Its mark, which leads to what the page tells of it.
    Mark,
}

/// How the picture looks. Each rule names the class of the picture, as it may stand in a page.
pub(crate) const STYLE: &str = "\
.ladder{background:#fff;font:12px system-ui,sans-serif}
.ladder .paper{fill:#fff}
.ladder text{fill:#222;paint-order:stroke;stroke:#fff;stroke-width:3px;stroke-linejoin:round}
.ladder path,.ladder circle{fill:none;stroke:currentColor;stroke-width:1.5}
.ladder .lane path{stroke:#ccc;stroke-width:1}
.ladder .name{font-weight:600}
.ladder .over{text-anchor:middle}
.ladder .band rect{fill:#e3e8ef}
.ladder .band .column{fill:#f6f8fa}
.ladder .band text{stroke:none;fill:#555}
.ladder .deaf{fill:#f3c9c5}
.ladder .gap rect{fill:#eee}
.ladder .gap text{stroke:none;fill:#666}
.ladder .moment{fill:#666;text-anchor:end}
.ladder .label{text-anchor:middle;fill:currentColor}
.ladder .before{text-anchor:end}
.ladder .head,.ladder .dot{fill:currentColor}
.ladder circle{fill:#fff}
.ladder .dots{stroke-width:8;stroke-linecap:round}
.ladder .lost path{stroke-dasharray:4 3}
.ladder .lost .cross{stroke-dasharray:none}
.ladder .request{color:#1452a8}
.ladder .answer{color:#1d6b2c}
.ladder .refusal{color:#b3261e}
.ladder .unconfirmed{color:#6a3d9a}
.ladder .other{color:#5c5c5c}
.ladder .note{color:#222}
.ladder .legend tspan{fill:currentColor}
.ladder a:hover .label{text-decoration:underline}
.ladder a:target .label{font-weight:700}
.ladder .off{opacity:.12}
@media (prefers-color-scheme:dark){
.ladder{background:#16191d}
.ladder .paper,.ladder circle{fill:#16191d}
.ladder text{fill:#e4e6e8;stroke:#16191d}
.ladder .lane path{stroke:#454b52}
.ladder .band rect{fill:#2a313a}
.ladder .band .column{fill:#1b1f24}
.ladder .band text,.ladder .gap text,.ladder .moment{fill:#a4abb3}
.ladder .deaf{fill:#5a2f2c}
.ladder .gap rect{fill:#23282e}
.ladder .label{fill:currentColor}
.ladder .head,.ladder .dot{fill:currentColor}
.ladder .request{color:#7db4ff}
.ladder .answer{color:#7ccf8a}
.ladder .refusal{color:#ff8f86}
.ladder .unconfirmed{color:#c9a2f2}
.ladder .other{color:#b0b6bd}
.ladder .note{color:#e4e6e8}
}
";

/// Writes a ladder as a picture in SVG: UTF-8 of one element `svg`.
///
/// # Errors
/// Those of writing.
pub fn write_svg<A: Allocator, W: Write>(ladder: &Ladder<A>, out: &mut W) -> io::Result<()> {
    let layout = layout_of(ladder);
    write_start(layout, out)?;
    write_behind(layout, ladder, out)?;
    write_rows(layout, ladder, Piece::Whole, out)?;
    write_legend(layout, ladder.remark.as_str(), out)?;
    writeln!(out, "</svg>")
}

/// Where everything stands in the picture of a ladder.
pub(crate) fn layout_of<A: Allocator>(ladder: &Ladder<A>) -> Layout {
    Layout {
        lanes: ladder.lanes(),
        rows: ladder.rows.len(),
    }
}

/// Writes what stands behind the rows: bands, shades and lanes.
pub(crate) fn write_behind<A: Allocator, W: Write>(
    layout: Layout,
    ladder: &Ladder<A>,
    out: &mut W,
) -> io::Result<()> {
    let stations = ladder.stations.as_slice();
    write_bands(layout, ladder.bands.as_slice(), out)?;
    write_shades(layout, stations, ladder.shades.as_slice(), out)?;
    write_lanes(layout, stations, out)
}

/// Writes all rows, or a piece of each.
pub(crate) fn write_rows<A: Allocator, W: Write>(
    layout: Layout,
    ladder: &Ladder<A>,
    piece: Piece,
    out: &mut W,
) -> io::Result<()> {
    let mut place = 0usize;
    for row in &ladder.rows {
        write_row(layout, ladder.stations.as_slice(), place, row, piece, out)?;
        place = place.saturating_add(1);
    }
    Ok(())
}

/// Writes what the picture begins with.
fn write_start<W: Write>(layout: Layout, out: &mut W) -> io::Result<()> {
    let width = layout.width();
    let height = layout.height();
    let y = layout.head().saturating_sub(8);
    writeln!(
        out,
        "<svg xmlns=\"http://www.w3.org/2000/svg\" class=\"ladder\" width=\"{width}\" height=\"{height}\" \
         viewBox=\"0 0 {width} {height}\">"
    )?;
    writeln!(
        out,
        "<title>Ladder of a run</title>\n<style>\n{STYLE}</style>"
    )?;
    writeln!(
        out,
        "<rect class=\"paper\" width=\"{width}\" height=\"{height}\"/>"
    )?;
    writeln!(out, "<text class=\"moment\" x=\"66\" y=\"{y}\">ms</text>")
}

/// What the picture says of its marks.
pub(crate) const LEGEND: &str = "\
An arrow is a message at the time it is received, a line with dots a broadcast; one with a cross was sent then, and is \
never received. A dot alone is an event.";

/// Which colour is what.
const COLOURS: [(&str, &str); 5] = [
    ("request", "request"),
    ("answer", "answer"),
    ("refusal", "Error, Reject, Abort"),
    ("unconfirmed", "unconfirmed request"),
    ("other", "network and link messages"),
];

/// Writes which colour is what, each in an element.
pub(crate) fn write_colours<W: Write>(element: &str, out: &mut W) -> io::Result<()> {
    let mut before = "";
    for (class, words) in COLOURS {
        write!(
            out,
            "{before}<{element} class=\"{class}\">{words}</{element}>"
        )?;
        before = " · ";
    }
    Ok(())
}

/// Writes what the marks mean, and what isn't in the picture.
fn write_legend<W: Write>(layout: Layout, remark: &str, out: &mut W) -> io::Result<()> {
    let first = layout.legend().saturating_add(20);
    let second = first.saturating_add(18);
    let third = second.saturating_add(18);
    write!(out, "<text class=\"legend\" x=\"8\" y=\"{first}\">")?;
    write_colours("tspan", out)?;
    writeln!(out, "</text>")?;
    writeln!(out, "<text x=\"8\" y=\"{second}\">{LEGEND}</text>")?;
    let remark = Escaped::whole(remark);
    writeln!(out, "<text x=\"8\" y=\"{third}\">{remark}</text>")
}
