//! The frames that octets end at an ear.

ghost use Rattle.std.specs.Prelude.{◌≡◌, ◌<◌, ◌≤◌, ◌++◌, ◌∷◌, [], Some, None, IfOk, IfSome, OnSome, length, drop};
ghost use Rattle.bus_traffic.specs.Hearing.{Ends, Hears};
ghost use Rattle.bus_traffic.specs.Sendings.{judged_by, known_of};

use crate::cut_frame::CutFrame;
use crate::judging::judge;
use crate::sending::Known;
use mstp_frame::Deframer;
use std::alloc::{AllocError, Allocator};
use tags::{Fault, Items, Octets};

/// A frame that octets end.
#[derive(Drop)]
pub(crate) struct Completed<A: Allocator> {
    /// The whole frame.
    pub(crate) octets: Octets<A>,
    /// How many octets were taken, behind those of the frame before it: the last ends the frame.
    pub(crate) used: usize,
}

/// A frame that an ear heard, and that was put out.
#[derive(Drop)]
pub struct HeardFrame<A: Allocator> {
    /// The whole frame.
    pub octets: Octets<A>,
    /// How many octets were taken, behind those of the frame before it: the last ends the frame.
    pub used: usize,
    /// The youngest stamp with which it was put out, in milliseconds.
    pub stamp: u64,
}

/// How octets end that an ear hears.
#[derive(Drop)]
pub enum Ending<A: Allocator> {
    /// So many are taken behind the last frame, none of which is refused, and this is left of a frame.
    Over { rest: usize, cut: CutFrame<A> },
    /// The next frame is refused.
    Refused(Fault),
}

/// What an ear hears in octets: the frames that they end, in order, up to the first that is refused.
#[derive(Drop)]
pub struct Hearing<A: Allocator> {
    pub frames: Items<HeardFrame<A>, A>,
    pub ending: Ending<A>,
}

/// Takes octets up to the end of a frame.
///
/// # Errors
/// Want of memory.
fn next_completed<A: Allocator + Copy>(
    alloc: A,
    deframer: &mut Deframer,
    octets: &[u8],
) -> Result<Option<Completed<A>>, AllocError>
    ensures ends { IfOk result (λ c. Ends deframer.old octets.now c deframer.new) }
    ensures some { IfOk result (λ c. IfSome c (λ c. 0 < c.used)) }
    ensures used { IfOk result (λ c. IfSome c (λ c. c.used ≤ length octets.now)) }
{
    let fed = deframer.feed(octets);
    if fed.frame.is_none() {
        return Ok(None);
    }
    Ok(Some(Completed {
        octets: Octets::from_slice(alloc, fed.octets)?,
        used: fed.used,
    }))
}

/// Returns what is heard in octets that come to those of a deframer at the moment `now`, in milliseconds, on a bus of
/// which this is known.
///
/// # Errors
/// Want of memory.
#[tactic(auto, using(crate::proofs::HearingLaws::hearing_rules))]
pub(crate) fn hear<A: Allocator + Copy>(
    alloc: A,
    known: &[Known<A>],
    deframer: &mut Deframer,
    octets: &[u8],
    now: u64,
) -> Result<Hearing<A>, AllocError>
    ensures { IfOk result (λ h.
        Hears A (λ whole. judged_by now (known_of whole known.now)) deframer.old octets.now h.frames h.ending) }
{
    let mut frames = Items::new(alloc);
    let mut left = octets;
    while let Some(frame) = next_completed(alloc, deframer, left)? {
        match judge(known, frame.octets.as_slice(), now) {
            Ok(stamp) => {
                let (_, rest) = left.split_at(frame.used);
                left = rest;
                frames.push(HeardFrame {
                    octets: frame.octets,
                    used: frame.used,
                    stamp,
                })?;
            }
            Err(fault) => {
                let ending = Ending::Refused(fault);
                return Ok(Hearing { frames, ending });
            }
        }
    }
    let ending = Ending::Over {
        rest: left.len(),
        cut: CutFrame::of(alloc, deframer)?,
    };
    Ok(Hearing { frames, ending })
}
