//! By which classes a mark is chosen in a page: its request `r3`, and its stations `s1`, by their places.

use crate::picture::{Arrow, Note, Reach};
use std::alloc::Allocator;
use std::fmt;

/// How many receivers of a message are named at most: one for more is for all.
const FEW: usize = 4;

/// The classes of a message behind others. One for all stations, or for many, is of each.
#[derive(Clone, Copy)]
pub(crate) struct ClassesOf<'a, A: Allocator> {
    pub(crate) arrow: &'a Arrow<A>,
}

impl<A: Allocator> fmt::Display for ClassesOf<'_, A> {
    fn fmt<W: fmt::Write>(&self, f: &mut fmt::Formatter<W>) -> fmt::Result {
        let arrow = self.arrow;
        fmt_request(arrow.request, f)?;
        if arrow.reach == Reach::All || FEW < arrow.to.len() {
            return f.write_str(" all");
        }
        write!(f, " s{}", arrow.from)?;
        for place in &arrow.to {
            write!(f, " s{place}")?;
        }
        Ok(())
    }
}

/// The classes of a note behind others.
#[derive(Clone, Copy)]
pub struct ClassesOfNote<'a, A: Allocator> {
    pub(crate) note: &'a Note<A>,
}

impl<A: Allocator> Note<A> {
    /// Returns the classes by which it is chosen in a page, to stand behind another: ` r3 s1`.
    pub fn classes(&self) -> ClassesOfNote<'_, A> {
        ClassesOfNote { note: self }
    }
}

impl<A: Allocator> fmt::Display for ClassesOfNote<'_, A> {
    fn fmt<W: fmt::Write>(&self, f: &mut fmt::Formatter<W>) -> fmt::Result {
        let note = self.note;
        fmt_request(note.request, f)?;
        match note.station {
            Some(place) => write!(f, " s{place}"),
            None => Ok(()),
        }
    }
}

/// Writes the class of a request, if there is one.
fn fmt_request<W: fmt::Write>(request: Option<u64>, f: &mut fmt::Formatter<W>) -> fmt::Result {
    match request {
        Some(number) => write!(f, " r{number}"),
        None => Ok(()),
    }
}
