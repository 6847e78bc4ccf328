//! A stream of octets on a bus (9.5.4): the frames that are heard in it are the same whole and octet by octet, each is
//! one, and behind a silence a Token is heard.

use crate::told::push_told;
use crate::watched::Hearer;
use mstp_frame::{Deframer, Frame};
use sheets::{Stop, differs};
use std::alloc::Global;

/// A Token from 5 to 16 (G.1).
const TOKEN: [u8; 8] = [0x55, 0xFF, 0x00, 0x10, 0x05, 0x00, 0x00, 0x8C];

/// What hears octets on a bus, and begins anew with each.
#[derive(Clone, Copy)]
pub(crate) struct HeardBus;

impl Hearer for HeardBus {
    fn copy(&self) -> Result<Self, Stop> {
        Ok(HeardBus)
    }

    // It keeps nothing, so that one run tells all.
    fn drops(&mut self, alloc: Global, octets: &[u8]) -> Result<bool, Stop> {
        hear(alloc, octets)?;
        Ok(false)
    }

    fn told(&mut self, alloc: Global) -> Result<Vec<u8>, Stop> {
        Ok(Vec::new(alloc))
    }
}

/// Hears octets on a bus, whole and one by one, and a Token behind a silence.
fn hear(alloc: Global, octets: &[u8]) -> Result<(), Stop> {
    let mut deframer = Deframer::new();
    let mut frames = Vec::new(alloc);
    feed(alloc, &mut deframer, octets, &mut frames)?;
    let mut other = Deframer::new();
    let mut others = Vec::new(alloc);
    for octet in octets {
        feed(alloc, &mut other, &[*octet], &mut others)?;
    }
    push_told(deframer.kept(), &mut frames)?;
    push_told(other.kept(), &mut others)?;
    if frames.as_slice() != others.as_slice() {
        return Err(differs(alloc, "other frames where a stream is cut"));
    }
    deframer.silence();
    let mut token = Vec::new(alloc);
    feed(alloc, &mut deframer, &TOKEN, &mut token)?;
    if !deframer.kept().is_empty() || !token.ends_with(&TOKEN) {
        return Err(differs(alloc, "no Token behind a silence"));
    }
    Ok(())
}

/// Feeds a piece until all of it is used, and appends the frames that are heard.
fn feed(
    alloc: Global,
    deframer: &mut Deframer,
    piece: &[u8],
    frames: &mut Vec<u8>,
) -> Result<(), Stop> {
    let mut rest = piece;
    for _ in 0..piece.len() {
        let fed = deframer.feed(rest);
        let (_, behind) = rest.split_at(fed.used);
        rest = behind;
        if fed.frame.is_some() {
            if Frame::read(fed.octets).is_none() {
                return Err(differs(alloc, "a frame that is none"));
            }
            push_told(fed.octets, frames)?;
        }
        if rest.is_empty() {
            return Ok(());
        }
    }
    if !piece.is_empty() {
        return Err(differs(alloc, "octets that are not used"));
    }
    Ok(())
}
