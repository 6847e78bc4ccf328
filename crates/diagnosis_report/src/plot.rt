//! A picture of numbers over a capture, in SVG: bars side by side.

use crate::rates::width_of;
use std::io::Write;
use std::{fmt, io};

/// How many bars a picture has.
pub(crate) const PLACES: usize = 120;

/// Where the bars begin, from the left.
const LEFT: u64 = 80;

/// How far a bar is from the next.
const STEP: u64 = 7;

/// Where they end, from the left.
const RIGHT: u64 = 920;

/// Where they stand, from the top.
const FOOT: u64 = 130;

/// How high the highest is.
const HEIGHT: u64 = 110;

/// A bar.
#[derive(Clone, Copy)]
pub(crate) struct Bar {
    /// Its place from the left, from 0.
    pub(crate) place: u64,
    /// What it shows, in thousandths.
    pub(crate) value: u64,
}

/// A number of thousandths, with three decimals.
#[derive(Clone, Copy)]
pub(crate) struct Thousandths(pub(crate) u64);

impl fmt::Display for Thousandths {
    fn fmt<W: fmt::Write>(&self, f: &mut fmt::Formatter<W>) -> fmt::Result {
        write!(f, "{}.{:03}", self.0 / 1000, self.0 % 1000)
    }
}

/// What a picture shows, and over which time.
#[derive(Clone, Copy)]
pub(crate) struct Plot<'t> {
    pub(crate) title: &'t str,
    pub(crate) unit: &'t str,
    /// The length of the capture, in microseconds.
    pub(crate) duration: u64,
}

/// The greatest value of bars.
pub(crate) fn top_of(bars: &[Bar]) -> u64 {
    let mut top = 0u64;
    for bar in bars {
        top = top.max(bar.value);
    }
    top
}

/// Writes a picture with two rows of bars, the second before the first.
pub(crate) fn write_plot<W: Write>(
    plot: Plot<'_>,
    behind: &[Bar],
    before: &[Bar],
    out: &mut W,
) -> io::Result<()> {
    let top = top_of(behind).max(top_of(before));
    let Plot {
        title,
        unit,
        duration,
    } = plot;
    writeln!(out, "<figure><figcaption>{title}, {unit}</figcaption>")?;
    writeln!(
        out,
        "<svg class=\"plot\" width=\"940\" height=\"160\" viewBox=\"0 0 940 160\"><title>{title}, {unit}</title>"
    )?;
    write_bars(plot, "behind", top, behind, out)?;
    write_bars(plot, "before", top, before, out)?;
    writeln!(
        out,
        "<path class=\"axis\" d=\"M{LEFT} 20V{FOOT}H{RIGHT}\"/>\n\
         <text class=\"end\" x=\"74\" y=\"26\">{}</text><text class=\"end\" x=\"74\" y=\"134\">0</text>\n\
         <text x=\"{LEFT}\" y=\"150\">0 s</text><text class=\"end\" x=\"{RIGHT}\" y=\"150\">{} s</text>\n\
         </svg></figure>",
        Thousandths(top),
        width_of(duration).saturating_mul(PLACES as u64) / 1_000_000
    )
}

/// Writes bars of this class.
fn write_bars<W: Write>(
    plot: Plot<'_>,
    class: &str,
    top: u64,
    bars: &[Bar],
    out: &mut W,
) -> io::Result<()> {
    for bar in bars {
        if bar.value != 0 {
            write_bar(plot, class, top, *bar, out)?;
        }
    }
    Ok(())
}

/// Writes a bar, with its value and the second in which it begins.
fn write_bar<W: Write>(
    plot: Plot<'_>,
    class: &str,
    top: u64,
    bar: Bar,
    out: &mut W,
) -> io::Result<()> {
    let height = (bar.value.saturating_mul(HEIGHT) / top.max(1)).clamp(1, HEIGHT);
    let x = LEFT.saturating_add(bar.place.saturating_mul(STEP));
    let y = FOOT.saturating_sub(height);
    let second = width_of(plot.duration).saturating_mul(bar.place) / 1_000_000;
    writeln!(
        out,
        "<rect class=\"{class}\" x=\"{x}\" y=\"{y}\" width=\"6\" height=\"{height}\"><title>from {second} s: {}</title></rect>",
        Thousandths(bar.value)
    )
}
