//! What comes of a step, and all that is known, in words.

use bus_traffic::{Bus, Ear, HeardFrame, Known, NextTold, Recent};
use sheets::{push_mark, push_octets};
use std::alloc::{AllocError, Allocator};

/// Appends the frames that were heard, each with the octets that ended it and its stamp, and how many octets are left:
/// `8 end 55FF00100500008C @0, 3 end none`, `-` where there were none.
///
/// # Errors
/// Want of memory.
pub(crate) fn push_heard<A: Allocator>(
    frames: &[HeardFrame<A>],
    rest: usize,
    out: &mut String,
) -> Result<(), AllocError> {
    for frame in frames {
        push_mark(", ", out)?;
        write!(out, "{} end ", frame.used)?;
        push_octets(frame.octets.as_slice(), out)?;
        write!(out, " @{}", frame.stamp)?;
    }
    if rest > 0 {
        push_mark(", ", out)?;
        write!(out, "{rest} end none")?;
    }
    if out.is_empty() {
        out.push('-')?;
    }
    Ok(())
}

/// Appends which frame, by its number, is told to which station: `0 > 2.16`.
///
/// # Errors
/// Want of memory.
pub(crate) fn push_told<A: Allocator>(
    next: &NextTold<'_, A>,
    out: &mut String,
) -> Result<(), AllocError> {
    let number = next.recent.sending.place.frames;
    write!(out, "{number} > {}.{}", next.bus.net, next.ear.address)
}

/// Appends what an ear keeps.
fn push_ear(ear: &Ear, out: &mut String) -> Result<(), AllocError> {
    write!(out, "ear {} @{} ", ear.address, ear.last)?;
    push_octets(ear.deframer.kept(), out)?;
    out.push('\n')
}

/// Appends what is known of a frame.
fn push_known<A: Allocator>(known: &Known<A>, out: &mut String) -> Result<(), AllocError> {
    write!(out, "known @{} ", known.stamp)?;
    push_octets(known.octets.as_slice(), out)?;
    out.push('\n')
}

/// Appends a frame that may still be told, and where it was delivered.
fn push_recent<A: Allocator>(recent: &Recent<A>, out: &mut String) -> Result<(), AllocError> {
    let sending = &recent.sending;
    let place = sending.place;
    write!(
        out,
        "recent {} {} {} @{} ",
        place.items, place.frames, sending.sender, sending.stamp
    )?;
    push_octets(sending.octets.as_slice(), out)?;
    for (address, heard) in recent.heard.as_slice().iter().enumerate() {
        if *heard {
            write!(out, " {address}")?;
        }
    }
    out.push('\n')
}

/// Appends all that is known of a bus.
///
/// # Errors
/// Want of memory.
pub(crate) fn push_bus<A: Allocator>(bus: &Bus<A>, out: &mut String) -> Result<(), AllocError> {
    writeln!(out, "bus {}", bus.net)?;
    for ear in bus.ears.as_slice() {
        push_ear(ear, out)?;
    }
    for known in bus.known.as_slice() {
        push_known(known, out)?;
    }
    for held in bus.recent.as_slice() {
        push_recent(held.recent(), out)?;
    }
    Ok(())
}
