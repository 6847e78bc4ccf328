//! Where messages and requests are found in a picture: the rows in which they are first.

use ladder::{Anchor, Ladder, Mark};
use std::alloc::{AllocError, Allocator};

/// The places of rows, by the numbers of what is first there.
#[derive(Drop)]
pub(crate) struct Found<A: Allocator> {
    requests: Vec<Option<usize>, A>,
    datagrams: Vec<Option<usize>, A>,
    frames: Vec<Option<usize>, A>,
}

impl<A: Allocator + Copy> Found<A> {
    /// Returns where all is found in a picture.
    ///
    /// # Errors
    /// Want of memory.
    pub(crate) fn of(alloc: A, ladder: &Ladder<A>) -> Result<Self, AllocError> {
        let mut found = Found {
            requests: Vec::new(alloc),
            datagrams: Vec::new(alloc),
            frames: Vec::new(alloc),
        };
        let mut row = 0usize;
        for shown in &ladder.rows {
            found.put(&shown.mark, row)?;
            row = row.saturating_add(1);
        }
        Ok(found)
    }

    /// Notes what stands in a row.
    fn put(&mut self, mark: &Mark<A>, row: usize) -> Result<(), AllocError> {
        match mark {
            Mark::Arrow(arrow) => {
                match arrow.anchor {
                    Anchor::Datagram(number) => put_first(&mut self.datagrams, number, row)?,
                    Anchor::Frame(number) => put_first(&mut self.frames, number, row)?,
                }
                self.put_request(arrow.request, row)
            }
            Mark::Note(note) => self.put_request(note.request, row),
            Mark::Gap(_) => Ok(()),
        }
    }

    /// Notes that a row is of a request, if it is.
    fn put_request(&mut self, request: Option<u64>, row: usize) -> Result<(), AllocError> {
        match request {
            Some(number) => put_first(&mut self.requests, number, row),
            None => Ok(()),
        }
    }

    /// Returns how many requests are shown.
    pub(crate) fn count_requests(&self) -> usize {
        self.requests
            .as_slice()
            .iter()
            .filter(|row| row.is_some())
            .count()
    }

    /// Returns the first row of a request, if it is shown.
    pub(crate) fn request(&self, number: u64) -> Option<usize> {
        place_of(self.requests.as_slice(), number)
    }

    /// Returns the first row of a message, if it is shown.
    pub(crate) fn message(&self, anchor: Anchor) -> Option<usize> {
        match anchor {
            Anchor::Datagram(number) => place_of(self.datagrams.as_slice(), number),
            Anchor::Frame(number) => place_of(self.frames.as_slice(), number),
        }
    }
}

/// The row under a number, if there is one.
fn place_of(rows: &[Option<usize>], number: u64) -> Option<usize> {
    match rows.get(number as usize) {
        Some(row) => *row,
        None => None,
    }
}

/// Puts a row under a number that has none.
fn put_first<A: Allocator>(
    rows: &mut Vec<Option<usize>, A>,
    number: u64,
    row: usize,
) -> Result<(), AllocError> {
    let place = number as usize;
    for _ in rows.len()..place.saturating_add(1) {
        rows.push(None)?;
    }
    if place < rows.len() && rows[place].is_none() {
        rows[place] = Some(row);
    }
    Ok(())
}
