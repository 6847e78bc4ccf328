//! Rows of what datagrams carry: `81 0A 00 08 01 00 10 08 -> 01001008`, the NPDU, its header and
//! that of the datagram written again as the same octets.

use crate::said::octets_of;
use bvll::Bvll;
use npdu::View;
use sheets::{Counts, Given, Stop, Trial, push_octets, refusal, refused_memory, run_trial};
use std::alloc::{AllocError, Allocator};

/// Reads a datagram and the NPDU that it carries, and writes both again.
///
/// # Errors
/// `Differs` where the row does not hold, and those of reading it.
pub(crate) fn run(given: Given<'_>, asked: &str, wanted: &str) -> Result<Counts, Stop> {
    let octets = octets_of(given.alloc, asked)?;
    run_trial(given, &HeadersTrial, octets.as_slice(), wanted)
}

/// What a datagram carries.
#[derive(Clone, Copy)]
struct HeadersTrial;

impl<'a> Trial<'a> for HeadersTrial {
    fn answer(&self, given: Given<'a>, octets: &[u8]) -> Result<String, Stop> {
        told(given, given.memory, octets)
    }
}

/// What a datagram carries, or why it is none, in words.
fn told<A: Allocator + Copy>(given: Given<'_>, memory: A, octets: &[u8]) -> Result<String, Stop> {
    match Bvll::read(octets) {
        Ok(bvll) => carried(given, memory, bvll, octets),
        Err(fault) => refusal(given.alloc, fault),
    }
}

/// What a datagram carries, in words, with what is written of it where that is not what was read.
fn carried<A: Allocator + Copy>(
    given: Given<'_>,
    memory: A,
    bvll: Bvll<'_>,
    octets: &[u8],
) -> Result<String, Stop> {
    let mut words = String::new(given.alloc);
    push_datagram(given, memory, bvll, octets, &mut words)?;
    match bvll {
        Bvll::ForwardedNpdu { npdu, .. }
        | Bvll::DistributeBroadcastToNetwork(npdu)
        | Bvll::OriginalUnicastNpdu(npdu)
        | Bvll::OriginalBroadcastNpdu(npdu) => push_npdu(given, memory, npdu, &mut words)?,
        Bvll::Result(_)
        | Bvll::WriteBroadcastDistributionTable(_)
        | Bvll::ReadBroadcastDistributionTable
        | Bvll::ReadBroadcastDistributionTableAck(_)
        | Bvll::RegisterForeignDevice { .. }
        | Bvll::ReadForeignDeviceTable
        | Bvll::ReadForeignDeviceTableAck(_)
        | Bvll::DeleteForeignDeviceTableEntry(_) => words.push_str("no npdu")?,
    }
    Ok(words)
}

/// Appends an NPDU, or why there is none.
fn push_npdu<A: Allocator + Copy>(
    given: Given<'_>,
    memory: A,
    npdu: &[u8],
    words: &mut String,
) -> Result<(), Stop> {
    match View::read(npdu) {
        Ok(view) => push_view(given, memory, view, npdu, words),
        Err(fault) => {
            words.push_str("npdu ")?;
            words.push_str(refusal(given.alloc, fault)?.as_str())?;
            Ok(())
        }
    }
}

/// Appends what is written of a datagram that was read, where it differs from that.
fn push_datagram<A: Allocator + Copy>(
    given: Given<'_>,
    memory: A,
    bvll: Bvll<'_>,
    octets: &[u8],
    words: &mut String,
) -> Result<(), Stop> {
    let mut again = Vec::new(memory);
    if bvll.whole_length().is_some() && bvll.write(&mut again).is_err() {
        return Err(refused_memory(given.alloc, &[], again.as_slice()));
    }
    push_unlike(octets, again.as_slice(), words)?;
    Ok(())
}

/// Appends an NPDU that was read, behind what is written of it where that differs.
fn push_view<A: Allocator + Copy>(
    given: Given<'_>,
    memory: A,
    view: View<'_>,
    npdu: &[u8],
    words: &mut String,
) -> Result<(), Stop> {
    let mut again = Vec::new(memory);
    if view.is_sound() && npdu::write(&view, &mut again).is_err() {
        return Err(refused_memory(given.alloc, &[], again.as_slice()));
    }
    push_unlike(npdu, again.as_slice(), words)?;
    push_octets(npdu, words)?;
    Ok(())
}

/// Appends what was written of octets, where it differs from them.
fn push_unlike(octets: &[u8], again: &[u8], words: &mut String) -> Result<(), AllocError> {
    if again != octets {
        words.push_str("written ")?;
        push_octets(again, words)?;
        words.push_str(" of ")?;
    }
    Ok(())
}
