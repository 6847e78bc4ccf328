//! Rows on moments by place.
//!
//! `new 3; set 1 50; first 0 49; first 1 50; next -> 3; set; 0; 1; 0`: each step is taken by one list of moments, which
//! has no place at first.
//!
//! - `new COUNT`: a list anew, with the moment 0 at so many places. Told is how many it has.
//! - `set PLACE MOMENT`, `fill MOMENT`: the moment is put at this place, or at each.
//! - `first FROM NOW`: told is the first place, from one on, at which the moment has come, or `none`.
//! - `next`: told is a moment that none of them is earlier than.

use due_times::DueTimes;
use sheets::{Given, Part, Stop, Trial, number, push_mark, two_words};
use std::alloc::{AllocError, Allocator};

/// The steps of a row, and the memory of the moments.
#[derive(Clone, Copy)]
pub(crate) struct Moments<'w, A> {
    pub(crate) memory: A,
    pub(crate) words: &'w str,
}

impl<'w, 'a, A: Allocator + Copy> Trial<'a> for Moments<'w, A> {
    fn answer(&self, given: Given<'a>, _octets: &[u8]) -> Result<String, Stop> {
        let mut times = DueTimes::new(self.memory, 0)?;
        let mut out = String::new(given.alloc);
        for step in self.words.split("; ") {
            push_mark("; ", &mut out)?;
            take(&mut times, self.memory, step, &mut out)?;
        }
        Ok(out)
    }
}

/// Takes a step, and appends what comes of it in words.
fn take<A: Allocator + Copy>(
    times: &mut DueTimes<A>,
    memory: A,
    step: &str,
    out: &mut String,
) -> Result<(), Stop> {
    let (verb, rest) = two_words(step);
    let (first, second) = two_words(rest);
    match verb {
        "new" => {
            *times = DueTimes::new(memory, number(first)? as usize)?;
            Ok(write!(out, "{}", times.len())?)
        }
        "set" => {
            set(times, number(first)? as usize, u64::from(number(second)?))?;
            Ok(out.push_str("set")?)
        }
        "fill" => {
            fill(times, u64::from(number(first)?))?;
            Ok(out.push_str("filled")?)
        }
        "first" => {
            let place = times.first_due(number(first)? as usize, u64::from(number(second)?));
            Ok(push_place(place, out)?)
        }
        "next" => Ok(write!(out, "{}", times.next())?),
        _ => Err(Stop::Unread(Part::Asked)),
    }
}

/// Puts a moment at a place, if there is one.
fn set<A: Allocator + Copy>(
    times: &mut DueTimes<A>,
    place: usize,
    moment: u64,
) -> Result<(), Stop> {
    if place >= times.len() {
        return Err(Stop::Unread(Part::Asked));
    }
    times.set(place, moment);
    Ok(())
}

/// Puts a moment at each place.
fn fill<A: Allocator + Copy>(times: &mut DueTimes<A>, moment: u64) -> Result<(), Stop> {
    for place in 0..times.len() {
        set(times, place, moment)?;
    }
    Ok(())
}

/// Appends a place, or `none`.
fn push_place(place: Option<usize>, out: &mut String) -> Result<(), AllocError> {
    match place {
        Some(place) => write!(out, "{place}"),
        None => out.push_str("none"),
    }
}
