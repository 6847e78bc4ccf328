//! What is said and executed, in words: `05>200A0F, executed done`, the address that it goes to before the octets of
//! each APDU, `-` for nothing. Of an APDU with more than 40 octets the first five stand there, and their number.

use crate::telling::push_front;
use primitives::Reply;
use sheets::{Stop, push_mark, push_octets};
use std::alloc::{AllocError, Allocator};
use transactions::{Executed, ServerSaid, ServerTold};
use words::Words;

/// How many octets of an APDU are told at most.
const FEW: usize = 40;

/// How many octets of a longer APDU are told.
const FRONT: usize = 5;

/// Appends what is said in words.
fn push_said<A: Allocator>(said: &ServerSaid<A>, out: &mut String) -> Result<(), Stop> {
    let mut octets = Vec::new(*out.allocator());
    said.write(&mut octets)?;
    push_mark(", ", out)?;
    push_octets(said.way().to.as_octets(), out)?;
    out.push('>')?;
    Ok(push_front(octets.as_slice(), FEW, FRONT, out)?)
}

/// Appends what is executed in words: its reply, `many` for the reply to ReadPropertyMultiple.
fn push_executed<A: Allocator>(executed: &Executed<A>, out: &mut String) -> Result<(), AllocError> {
    push_mark(", ", out)?;
    match executed.reply() {
        Reply::Many(_) => out.push_str("executed many"),
        reply => write!(out, "executed {}", Words(reply)),
    }
}

/// Appends what is said and executed, in words.
///
/// # Errors
/// Want of memory.
pub(crate) fn push_told<A: Allocator>(told: &ServerTold<A>, out: &mut String) -> Result<(), Stop> {
    for said in told.said.as_slice() {
        push_said(said, out)?;
    }
    if let Some(executed) = &told.executed {
        push_executed(executed, out)?;
    }
    if out.is_empty() {
        out.push('-')?;
    }
    Ok(())
}
