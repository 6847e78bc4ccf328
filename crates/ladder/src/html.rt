//! The picture as a part of a page in HTML, whose names and moments stay where it is scrolled.

use crate::escaped::Escaped;
use crate::lanes::{write_bands, write_lanes};
use crate::layout::{Layout, MOMENTS};
use crate::picture::Ladder;
use crate::svg::{LEGEND, Piece, STYLE, layout_of, write_behind, write_colours, write_rows};
use std::alloc::Allocator;
use std::io;
use std::io::Write;

/// How the four pieces stand, of which three stay.
const PIECES: &str = "\
.picture{display:grid;overflow:auto;width:fit-content;max-width:100%;max-height:85vh;border:1px solid #ddd}
.picture svg{display:block}
.corner,.names{position:sticky;top:0;z-index:1}
.corner,.moments{position:sticky;left:0;z-index:1}
.corner{z-index:2}
.legend .request{color:#1452a8}.legend .answer{color:#1d6b2c}.legend .refusal{color:#b3261e}
.legend .unconfirmed{color:#6a3d9a}.legend .other{color:#5c5c5c}
@media (prefers-color-scheme:dark){
.picture{border-color:#3a4047}
.legend .request{color:#7db4ff}.legend .answer{color:#7ccf8a}.legend .refusal{color:#ff8f86}
.legend .unconfirmed{color:#c9a2f2}.legend .other{color:#b0b6bd}
}
";

/// A part of the picture: from where, and how wide and high it is.
#[derive(Clone, Copy)]
struct Window {
    x: usize,
    y: usize,
    width: usize,
    height: usize,
}

/// Writes a ladder as a part of a page: a picture of four pieces, and what its marks mean. Each arrow leads to its
/// anchor, which the page must have, and has the name `a` with the number of its row, from 0; so has each event.
///
/// # Errors
/// Those of writing.
pub fn write_html<A: Allocator, W: Write>(ladder: &Ladder<A>, out: &mut W) -> io::Result<()> {
    let layout = layout_of(ladder);
    let head = layout.head();
    let right = layout.width().saturating_sub(MOMENTS);
    let below = layout.legend().saturating_sub(head);
    writeln!(
        out,
        "<style>\n{STYLE}{PIECES}</style>\n\
         <div class=\"picture\" style=\"grid-template-columns:{MOMENTS}px {right}px\">"
    )?;
    write_names(layout, ladder, right, out)?;
    let column = Window {
        x: 0,
        y: head,
        width: MOMENTS,
        height: below,
    };
    write_window(column, "moments", out)?;
    write_rows(layout, ladder, Piece::Moment, out)?;
    let rows = Window {
        x: MOMENTS,
        y: head,
        width: right,
        height: below,
    };
    writeln!(out, "</svg>")?;
    write_window(rows, "rows", out)?;
    write_behind(layout, ladder, out)?;
    write_rows(layout, ladder, Piece::Mark, out)?;
    writeln!(out, "</svg>\n</div>")?;
    write_legend(ladder.remark.as_str(), out)
}

/// Writes the pieces above the rows: the corner, and the names of networks and stations.
fn write_names<A: Allocator, W: Write>(
    layout: Layout,
    ladder: &Ladder<A>,
    right: usize,
    out: &mut W,
) -> io::Result<()> {
    let height = layout.head();
    let y = height.saturating_sub(8);
    let corner = Window {
        x: 0,
        y: 0,
        width: MOMENTS,
        height,
    };
    write_window(corner, "corner", out)?;
    writeln!(
        out,
        "<text class=\"moment\" x=\"66\" y=\"{y}\">ms</text>\n</svg>"
    )?;
    let names = Window {
        x: MOMENTS,
        y: 0,
        width: right,
        height,
    };
    write_window(names, "names", out)?;
    write_bands(layout, ladder.bands.as_slice(), out)?;
    write_lanes(layout, ladder.stations.as_slice(), out)?;
    writeln!(out, "</svg>")
}

/// Writes what a piece begins with.
fn write_window<W: Write>(window: Window, class: &str, out: &mut W) -> io::Result<()> {
    let Window {
        x,
        y,
        width,
        height,
    } = window;
    writeln!(
        out,
        "<svg class=\"ladder {class}\" width=\"{width}\" height=\"{height}\" viewBox=\"{x} {y} {width} {height}\">\n\
         <rect class=\"paper\" x=\"{x}\" y=\"{y}\" width=\"{width}\" height=\"{height}\"/>"
    )
}

/// Writes what the marks mean, and what isn't in the picture.
fn write_legend<W: Write>(remark: &str, out: &mut W) -> io::Result<()> {
    let remark = Escaped::whole(remark);
    write!(out, "<p class=\"legend\">")?;
    write_colours("span", out)?;
    writeln!(out, "</p>\n<p>{LEGEND} {remark}</p>")
}
