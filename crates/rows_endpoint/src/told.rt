//! What is said and told, in words: `05>0100200A0F, executed done`, the address that it goes to, or `all`, before the
//! octets of each NPDU, `-` for nothing. Of one with more than 40 octets the first twelve stand there, and their
//! number. A parcel that isn't from the station's address, or not of that moment, is told so.

use npdu::{Mac, Parcel, Target};
use primitives::Reply;
use sheets::{Stop, differs, push_mark, push_octets};
use std::alloc::{AllocError, Allocator, Global};
use tags::Items;
use words::Words;

/// How many octets of an NPDU are told at most.
const FEW: usize = 40;

/// Appends the octets of an NPDU in words.
fn push_npdu(octets: &[u8], out: &mut String) -> Result<(), AllocError> {
    if octets.len() <= FEW {
        return push_octets(octets, out);
    }
    push_octets(&octets[..12], out)?;
    write!(out, "..{}", octets.len())
}

/// Appends a parcel in words.
///
/// # Errors
/// Want of memory; a parcel of another address or moment.
pub(crate) fn push_parcel<A: Allocator>(
    alloc: Global,
    from: Mac,
    now: u64,
    parcel: &Parcel<A>,
    out: &mut String,
) -> Result<(), Stop> {
    if parcel.from != from || parcel.stamp != now {
        return Err(differs(alloc, "a parcel of another address or moment"));
    }
    match &parcel.to {
        Target::All => out.push_str("all")?,
        Target::One(mac) => push_octets(mac.as_octets(), out)?,
    }
    out.push('>')?;
    push_npdu(parcel.npdu.as_slice(), out)?;
    Ok(())
}

/// Appends what is said from this address at this moment.
///
/// # Errors
/// Want of memory; a parcel of another address or moment.
pub(crate) fn push_parcels<A: Allocator>(
    alloc: Global,
    from: Mac,
    now: u64,
    said: &Items<Parcel<A>, A>,
    out: &mut String,
) -> Result<(), Stop> {
    for parcel in said.as_slice() {
        push_mark(", ", out)?;
        push_parcel(alloc, from, now, parcel, out)?;
    }
    Ok(())
}

/// Appends a reply: `many` for the one to ReadPropertyMultiple.
///
/// # Errors
/// Want of memory.
pub(crate) fn push_reply<A: Allocator>(
    reply: &Reply<A>,
    out: &mut String,
) -> Result<(), AllocError> {
    match reply {
        Reply::Many(_) => out.push_str("many"),
        reply => write!(out, "{}", Words(reply)),
    }
}

/// What came, or `-` for nothing.
///
/// # Errors
/// Want of memory.
pub(crate) fn told_or_nothing(mut out: String) -> Result<String, Stop> {
    if out.is_empty() {
        out.push('-')?;
    }
    Ok(out)
}
