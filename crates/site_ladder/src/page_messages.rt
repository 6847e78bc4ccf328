//! What the page says of each message: a line, and what its octets say below it.

use crate::equal::Equal;
use crate::found::Found;
use crate::tree::write_tree;
use console::{explain_datagram, explain_npdu};
use ladder::{Anchor, Escaped};
use ladder_labels::{DatagramLabel, FrameLabel, npdu_in_frame};
use mstp_frame::Frame;
use npdu::{Mac, Station};
use site_gathering::{Datagram, Gathering, PutFrame, World};
use site_trace::NameAt;
use std::alloc::Allocator;
use std::io;
use std::io::Write;
use traffic::Item;
use words::{Hex, Spelling};

/// Writes the datagrams of the part (J.2).
pub(crate) fn write_datagrams<A: Allocator + Copy, W: Write>(
    world: &World<A>,
    gathering: &Gathering<'_, A>,
    found: &Found<A>,
    out: &mut W,
) -> io::Result<()> {
    writeln!(out, "<h2>Datagrams</h2>")?;
    let mut equal = Equal::new(gathering.alloc)?;
    let mut number = 0u64;
    for item in world.items() {
        if is_told(gathering.datagrams.as_slice(), number) {
            let first = equal.first_of(number, item.octets.as_slice())?;
            write_datagram(world, gathering, number, item, out)?;
            write_row(found, Anchor::Datagram(number), out)?;
            match first {
                Some(first) => write_same(Anchor::Datagram(first), first, out)?,
                None => explain_item(gathering.alloc, item, out)?,
            }
            writeln!(out, "</div></details>")?;
        }
        number = number.saturating_add(1);
    }
    Ok(())
}

/// Whether the part tells of the datagram of a number: of the first of a broadcast.
fn is_told(datagrams: &[Datagram], number: u64) -> bool {
    match datagrams.get(number as usize) {
        Some(datagram) => datagram.is_told,
        None => false,
    }
}

/// The name of the station at an address of a network, or that address.
fn name_at<A: Allocator>(net: u16, mac: Mac, stations: &[site_parts::Station<A>]) -> NameAt<'_, A> {
    let address = Station { net, mac };
    NameAt { address, stations }
}

/// How many datagrams carry the same broadcast, and how many of them are received. Any other message is in one.
#[derive(Clone, Copy)]
struct Copies {
    sent: u64,
    received: u64,
}

/// The datagrams of the message whose first one stands at a place.
fn copies_of(datagrams: &[Datagram], first: usize) -> Copies {
    let mut copies = Copies {
        sent: 0,
        received: 0,
    };
    let Some(datagrams) = datagrams.get(first..) else {
        return copies;
    };
    for datagram in datagrams {
        if datagram.first != first {
            break;
        }
        copies.sent = copies.sent.saturating_add(1);
        if datagram.is_received {
            copies.received = copies.received.saturating_add(1);
        }
    }
    copies
}

/// Writes a datagram, or a broadcast, with the number of its first datagram.
fn write_datagram<A: Allocator + Copy, W: Write>(
    world: &World<A>,
    gathering: &Gathering<'_, A>,
    number: u64,
    item: &Item<A>,
    out: &mut W,
) -> io::Result<()> {
    let alloc = gathering.alloc;
    let from = name_at(item.net, item.from, world.site().stations());
    let moment = item.put_out;
    write!(
        out,
        "<details><summary>Datagram {number}, sent at {moment} ms, {from} to "
    )?;
    let copies = copies_of(gathering.datagrams.as_slice(), number as usize);
    write_receivers(world, item, copies, out)?;
    let label = format!(in alloc; "{}", DatagramLabel(item.octets.as_slice()))?;
    write_summary(label.as_str(), Anchor::Datagram(number), out)
}

/// Writes what the octets of a datagram say, with the standard's names.
fn explain_item<A: Allocator + Copy, W: Write>(
    alloc: A,
    item: &Item<A>,
    out: &mut W,
) -> io::Result<()> {
    let mut told = Vec::new(alloc);
    let _ = explain_datagram(Spelling::Names, item.octets.as_slice(), &mut told)?;
    write_tree(told.as_slice(), out)
}

/// Writes where a message is found in the picture, if it is there.
fn write_row<A: Allocator + Copy, W: Write>(
    found: &Found<A>,
    anchor: Anchor,
    out: &mut W,
) -> io::Result<()> {
    match found.message(anchor) {
        Some(row) => writeln!(out, "<a href=\"#a{row}\">in the ladder</a>"),
        None => writeln!(out),
    }
}

/// Writes that a message has the octets of one before, of this number.
fn write_same<W: Write>(anchor: Anchor, number: u64, out: &mut W) -> io::Result<()> {
    writeln!(
        out,
        "the octets of <a href=\"#{anchor}\">number {number}</a>"
    )
}

/// Writes who a datagram or a broadcast is for, and that some of these never receive it.
fn write_receivers<A: Allocator + Copy, W: Write>(
    world: &World<A>,
    item: &Item<A>,
    copies: Copies,
    out: &mut W,
) -> io::Result<()> {
    let Copies { sent, received } = copies;
    if sent <= 1 {
        write!(
            out,
            "{}",
            name_at(item.net, item.to, world.site().stations())
        )?;
    } else {
        write!(out, "{sent} stations")?;
    }
    if received == 0 || sent <= received {
        return write_heard(0 < received, out);
    }
    let lost = sent.saturating_sub(received);
    write!(
        out,
        ", <span class=\"lost\">never received by {lost}</span>"
    )
}

/// Writes that a message is never received, where it isn't.
fn write_heard<W: Write>(is_heard: bool, out: &mut W) -> io::Result<()> {
    if is_heard {
        return Ok(());
    }
    write!(out, ", <span class=\"lost\">never received</span>")
}

/// Writes what a message is, and what stands before what its octets say.
fn write_summary<W: Write>(label: &str, anchor: Anchor, out: &mut W) -> io::Result<()> {
    let label = Escaped::whole(label);
    writeln!(out, ": {label}</summary>")?;
    write!(out, "<div id=\"{anchor}\">")
}

/// Writes the frames of the part, where the site has buses (9.3).
pub(crate) fn write_frames<A: Allocator + Copy, W: Write>(
    world: &World<A>,
    gathering: &Gathering<'_, A>,
    found: &Found<A>,
    out: &mut W,
) -> io::Result<()> {
    if world.buses().buses.is_empty() {
        return Ok(());
    }
    writeln!(out, "<h2>Frames</h2>")?;
    let mut equal = Equal::new(gathering.alloc)?;
    let mut place = 0u64;
    for put in &gathering.frames {
        if put.is_told {
            if let Some(frame) = Frame::read(put.octets.as_slice()) {
                let first = equal.first_of(place, put.octets.as_slice())?;
                write_frame(world, gathering.alloc, put, frame, place, out)?;
                write_row(found, Anchor::Frame(place), out)?;
                match first {
                    Some(first) => write_same(
                        Anchor::Frame(first),
                        number_of(gathering, first),
                        out,
                    )?,
                    None => explain_frame(gathering.alloc, frame, out)?,
                }
                writeln!(out, "</div></details>")?;
            }
        }
        place = place.saturating_add(1);
    }
    Ok(())
}

/// The number of the frame at a place among those that are shown.
fn number_of<A: Allocator + Copy>(gathering: &Gathering<'_, A>, place: u64) -> u64 {
    match gathering.frames.get(place as usize) {
        Some(put) => put.number,
        None => place,
    }
}

/// Writes a frame.
fn write_frame<A: Allocator + Copy, W: Write>(
    world: &World<A>,
    alloc: A,
    put: &PutFrame<A>,
    frame: Frame<'_>,
    place: u64,
    out: &mut W,
) -> io::Result<()> {
    let PutFrame { number, moment, .. } = put;
    let stations = world.site().stations();
    let from = name_at(put.network, Mac::One(frame.source), stations);
    let to = name_at(put.network, Mac::One(frame.destination), stations);
    write!(
        out,
        "<details><summary>Frame {number}, sent at {moment} ms, {from} to {to}"
    )?;
    write_heard(put.is_heard, out)?;
    let label = format!(in alloc; "{}", FrameLabel(frame))?;
    write_summary(label.as_str(), Anchor::Frame(place), out)
}

/// Writes what the octets of a frame say, with the standard's names.
fn explain_frame<A: Allocator + Copy, W: Write>(
    alloc: A,
    frame: Frame<'_>,
    out: &mut W,
) -> io::Result<()> {
    let mut told = Vec::new(alloc);
    print_frame(frame, &mut told)?;
    write_tree(told.as_slice(), out)
}

/// Prints the type of a frame and what it carries, as `explain` prints them of a capture (9.3).
fn print_frame<W: Write>(frame: Frame<'_>, out: &mut W) -> io::Result<()> {
    writeln!(out, "frame {}", u8::from(frame.frame_type))?;
    match npdu_in_frame(frame) {
        Some(npdu) => {
            let _ = explain_npdu(Spelling::Names, npdu, out)?;
            Ok(())
        }
        None if frame.data.is_empty() => Ok(()),
        None => writeln!(out, "octets {}", Hex(frame.data)),
    }
}
