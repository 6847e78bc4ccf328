//! What stays of the rows of a part: those that are of its stations and requests, and those of messages where they are
//! sent only if they are never received. The others are complete then.

use crate::gathering::{Facts, Gathering};
use ladder::{Anchor, Arrow, Mark, Note, Row, Segment};
use std::alloc::{AllocError, Allocator};

/// What comes of the rows of messages where they are sent.
enum Missed<A: Allocator> {
    /// All that they are for receive them.
    None,
    /// These don't.
    By(Vec<usize, A>),
}

impl<A: Allocator + Copy> Gathering<'_, A> {
    /// Takes the rows that stay.
    pub fn take_rows(&mut self) -> Result<Vec<Row<A>, A>, AllocError> {
        let rows = std::mem::replace(&mut self.rows, Vec::new(self.alloc));
        let mut kept = Vec::new(self.alloc);
        for row in rows {
            if self.is_chosen(&row) {
                if let Some(row) = self.finished(row)? {
                    kept.push(row)?;
                }
            }
        }
        Ok(kept)
    }

    /// Whether the part is of the stations and of the request of a row.
    fn is_chosen(&self, row: &Row<A>) -> bool {
        match &row.mark {
            Mark::Arrow(arrow) => { self.part.has_request(arrow.request) && self.has_arrow(arrow) }
            Mark::Note(
                Note {
                    station,
                    request,
                    ..
                },
            ) => self.part.has_request(*request) && self.has_station(*station),
            Mark::Gap(_) => true,
        }
    }

    /// Whether the part is of a station that sends or receives a message.
    fn has_arrow(&self, arrow: &Arrow<A>) -> bool {
        if self.has_station(Some(arrow.from)) {
            return true;
        }
        for place in &arrow.to {
            if self.has_station(Some(*place)) {
                return true;
            }
        }
        false
    }

    /// Whether the part is of a station.
    fn has_station(&self, station: Option<usize>) -> bool {
        match (&self.only, station) {
            (None, _) => true,
            (Some(_), None) => false,
            (Some(only), Some(place)) => match only.get(place) {
                Some(is_shown) => *is_shown,
                None => false,
            },
        }
    }

    /// The row as it stays, if it does. The page tells of its message in any case.
    fn finished(&mut self, row: Row<A>) -> Result<Option<Row<A>>, AllocError> {
        let Row { moment, mark } = row;
        let Mark::Arrow(mut arrow) = mark else {
            return Ok(Some(Row { moment, mark }));
        };
        self.tell(arrow.anchor);
        if !arrow.is_heard {
            match self.missed(&arrow)? {
                Missed::None => return Ok(None),
                Missed::By(stations) => arrow.to = stations,
            }
        }
        arrow.segment = self.segment(arrow.anchor);
        let mark = Mark::Arrow(arrow);
        Ok(Some(Row { moment, mark }))
    }

    /// Notes that the page tells of a message.
    fn tell(&mut self, anchor: Anchor) {
        match anchor {
            Anchor::Datagram(number) => {
                let place = number as usize;
                if place < self.datagrams.len() {
                    self.datagrams[place].is_told = true;
                }
            }
            Anchor::Frame(number) => {
                let place = number as usize;
                if place < self.frames.len() {
                    self.frames[place].is_told = true;
                }
            }
        }
    }

    /// Who never receives a message that is for them.
    fn missed(&self, arrow: &Arrow<A>) -> Result<Missed<A>, AllocError> {
        match arrow.anchor {
            Anchor::Datagram(number) => self.missed_datagrams(number as usize),
            Anchor::Frame(number) => match self.frames.get(number as usize) {
                Some(frame) if !frame.is_heard => {
                    let to = Vec::from_slice(self.alloc, arrow.to.as_slice())?;
                    Ok(Missed::By(to))
                }
                Some(_) | None => Ok(Missed::None),
            },
        }
    }

    /// Who never receives a broadcast, or the one datagram, that begins at a place.
    fn missed_datagrams(&self, first: usize) -> Result<Missed<A>, AllocError> {
        let mut to = Vec::new(self.alloc);
        let mut is_missed = false;
        let Some(datagrams) = self.datagrams.get(first..) else {
            return Ok(Missed::None);
        };
        for datagram in datagrams {
            if datagram.first != first {
                break;
            }
            if !datagram.is_received {
                is_missed = true;
                if let Some(place) = datagram.to {
                    to.push(place)?;
                }
            }
        }
        Ok(if is_missed {
            Missed::By(to)
        } else {
            Missed::None
        })
    }

    /// What is known of a message.
    fn facts_at(&self, anchor: Anchor) -> Option<Facts> {
        match anchor {
            Anchor::Datagram(number) => self.datagrams.get(number as usize)?.facts,
            Anchor::Frame(number) => self.frames.get(number as usize)?.facts,
        }
    }

    /// The number of a segment, and of how many, where that is known.
    fn segment(&self, anchor: Anchor) -> Option<Segment> {
        let facts = self.facts_at(anchor)?;
        let part = facts.part?;
        let number = u64::from(part.sequence_number).saturating_add(1);
        let count = match self.requests.segments(facts.request, part.of) {
            Some(count) if number <= count => Some(count),
            Some(_) | None => None,
        };
        Some(Segment { number, count })
    }
}
