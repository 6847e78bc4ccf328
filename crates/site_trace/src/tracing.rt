//! All that was put out, one line after another.

ghost use Rattle.std.specs.Prelude.{◌≡◌, ◌<◌, ◌+◌, ◌^◌, OnOk, length, map};
ghost use Rattle.std.specs.Io.KnownBytes.{Appends};
ghost use Rattle.bus_traffic.specs.Bus.{bus_of};
ghost use Rattle.site_trace.specs.Lines.{bus_text, frames_text, item_text, items_text, line, text_behind};

use crate::lines::{FrameLine, ItemLine};
use bus_traffic::{Bus, Recent};
use site_parts::Station;
use std::alloc::Allocator;
use std::io;
use std::io::Write;
use traffic::Item;

/// Prints items of a site with these stations at a moment, in milliseconds, each on a line; the first of them has this
/// number.
///
/// # Errors
/// Those of writing.
#[tactic(auto, using(crate::proofs::TraceLaws::trace_rules))]
pub fn print_items<A: Allocator, W: Write>(
    stations: &[Station<A>],
    number: usize,
    items: &[Item<A>],
    moment: u64,
    out: &mut W,
) -> io::Result<()>
    requires { number + length items.now < 2 ^ 64 }
    ensures { OnOk result (Appends (W.contents out.old) (W.contents out.new)
        (items_text stations.now number items.now moment)) }
{
    let mut number = number;
    for item in items {
        print_item(stations, number, item, moment, out)?;
        number += 1;
    }
    Ok(())
}

/// Prints an item with its number.
fn print_item<A: Allocator, W: Write>(
    stations: &[Station<A>],
    number: usize,
    item: &Item<A>,
    moment: u64,
    out: &mut W,
) -> io::Result<()>
    ensures { OnOk result (Appends (W.contents out.old) (W.contents out.new)
        (line (item_text stations.now number item.now moment))) }
{
    let text = ItemLine {
        number,
        item,
        stations,
        moment,
    };
    writeln!(out, "{text}")
}

/// Prints what may still be heard of the frames that were put out on these buses behind so many, bus by bus, at a
/// moment, in milliseconds, each on a line.
///
/// # Errors
/// Those of writing.
#[tactic(auto, using(crate::proofs::TraceLaws::trace_rules))]
pub fn print_frames<A: Allocator, W: Write>(
    stations: &[Station<A>],
    before: u64,
    buses: &[Bus<A>],
    moment: u64,
    out: &mut W,
) -> io::Result<()>
    ensures { OnOk result (Appends (W.contents out.old) (W.contents out.new)
        (frames_text stations.now before (map (λ b. bus_of b) buses.now) moment)) }
{
    for bus in buses {
        print_bus(stations, before, bus, moment, out)?;
    }
    Ok(())
}

/// .. of a bus.
#[tactic(auto, using(crate::proofs::TraceLaws::trace_rules))]
fn print_bus<A: Allocator, W: Write>(
    stations: &[Station<A>],
    before: u64,
    bus: &Bus<A>,
    moment: u64,
    out: &mut W,
) -> io::Result<()>
    ensures { OnOk result (Appends (W.contents out.old) (W.contents out.new)
        (bus_text stations.now before moment (bus_of bus.now))) }
{
    for held in &bus.recent {
        print_behind(stations, before, bus.net, held.recent(), moment, out)?;
    }
    Ok(())
}

/// Prints a frame, if it was put out behind so many.
fn print_behind<A: Allocator, W: Write>(
    stations: &[Station<A>],
    before: u64,
    net: u16,
    recent: &Recent<A>,
    moment: u64,
    out: &mut W,
) -> io::Result<()>
    ensures { OnOk result (Appends (W.contents out.old) (W.contents out.new)
        (text_behind stations.now before net moment recent.now)) }
{
    if recent.sending.place.frames < before {
        return Ok(());
    }
    let text = FrameLine {
        net,
        sending: &recent.sending,
        stations,
        moment,
    };
    writeln!(out, "{text}")
}
