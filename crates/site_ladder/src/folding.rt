//! What is done with the rows once lanes are chosen: the same broadcasts of stations without lanes become one row, and
//! pauses get rows of their own.

use ladder::{Arrow, Mark, Note, Reach, Row, Shade, Station};
use profile::KEEP_MS;
use site_gathering::Restart;
use std::alloc::{AllocError, Allocator};

/// A time from which on nothing happens is shown as a pause, in milliseconds.
const PAUSE_MS: u64 = 500;

/// Puts the same broadcasts that stations without lanes send at the same moment into one row.
pub(crate) fn folded<A: Allocator + Copy>(
    alloc: A,
    rows: Vec<Row<A>, A>,
    stations: &[Station<A>],
) -> Result<Vec<Row<A>, A>, AllocError> {
    let mut kept: Vec<Row<A>, A> = Vec::new(alloc);
    // the places of rows of the last moment that others may join
    let mut open: Vec<usize, A> = Vec::new(alloc);
    let mut moment = 0u64;
    for row in rows {
        if row.moment != moment {
            open.clear();
            moment = row.moment;
        }
        if !is_folded(&row, stations) {
            kept.push(row)?;
        } else if let Some(place) = same_row(&kept, &open, &row) {
            join(&mut kept, place, &row)?;
        } else {
            open.push(kept.len())?;
            kept.push(row)?;
        }
    }
    Ok(kept)
}

/// Whether a row is a broadcast of a station without a lane.
fn is_folded<A: Allocator>(row: &Row<A>, stations: &[Station<A>]) -> bool {
    match &row.mark {
        Mark::Arrow(arrow) => {
            arrow.reach == Reach::All
                && match stations.get(arrow.from) {
                    Some(station) => station.lane.is_none(),
                    None => false,
                }
        }
        Mark::Note(_) | Mark::Gap(_) => false,
    }
}

/// The place of a row with the same message, of those at some places.
fn same_row<A: Allocator>(
    rows: &Vec<Row<A>, A>,
    open: &Vec<usize, A>,
    row: &Row<A>,
) -> Option<usize> {
    for place in open {
        if let Some(other) = rows.get(*place) {
            if is_same(other, row) {
                return Some(*place);
            }
        }
    }
    None
}

/// Whether two rows have the same message.
fn is_same<A: Allocator>(a: &Row<A>, b: &Row<A>) -> bool {
    match (&a.mark, &b.mark) {
        (Mark::Arrow(a), Mark::Arrow(b)) => {
            a.label.as_str() == b.label.as_str() && a.is_heard == b.is_heard
        }
        _ => false,
    }
}

/// Adds a broadcast to the row at a place: one sender more, and those that receive it.
fn join<A: Allocator>(
    rows: &mut Vec<Row<A>, A>,
    place: usize,
    row: &Row<A>,
) -> Result<(), AllocError> {
    if rows.len() <= place {
        return Ok(());
    }
    if let (Mark::Arrow(arrow), Mark::Arrow(other)) = (&mut rows[place].mark, &row.mark) {
        arrow.more = arrow.more.saturating_add(1);
        add_receivers(arrow, other.to.as_slice())?;
    }
    Ok(())
}

/// Adds stations to those that receive a message.
fn add_receivers<A: Allocator>(
    arrow: &mut Arrow<A>,
    receivers: &[usize],
) -> Result<(), AllocError> {
    for place in receivers {
        if !arrow.to.as_slice().contains(place) {
            arrow.to.push(*place)?;
        }
    }
    Ok(())
}

/// The rows with one for each pause.
pub(crate) fn with_pauses<A: Allocator + Copy>(
    alloc: A,
    rows: Vec<Row<A>, A>,
) -> Result<Vec<Row<A>, A>, AllocError> {
    let mut all = Vec::new(alloc);
    let mut last = None;
    for row in rows {
        if let Some(moment) = last {
            let length = row.moment.saturating_sub(moment);
            if PAUSE_MS <= length {
                all.push(Row {
                    moment,
                    mark: Mark::Gap(length),
                })?;
            }
        }
        last = Some(row.moment);
        all.push(row)?;
    }
    Ok(all)
}

/// The shades of devices that ignore requests after they restart.
pub(crate) fn shades_of<A: Allocator + Copy>(
    alloc: A,
    restarts: &[Restart],
    rows: &[Row<A>],
) -> Result<Vec<Shade, A>, AllocError> {
    let mut shades = Vec::new(alloc);
    for restart in restarts {
        if let Some(shade) = shade_of(*restart, rows) {
            shades.push(shade)?;
        }
    }
    Ok(shades)
}

/// The shade after a restart: from its row, or the first one after it, to the last one before the device takes requests
/// again (5.4.5).
fn shade_of<A: Allocator>(restart: Restart, rows: &[Row<A>]) -> Option<Shade> {
    let Restart { station, moment } = restart;
    let until = moment.saturating_add(KEEP_MS);
    let mut first = None;
    let mut last = 0usize;
    let mut place = 0usize;
    for row in rows {
        let is_after = moment < row.moment || moment == row.moment && is_restart(row, station);
        if first.is_none() && is_after && row.moment < until {
            first = Some(place);
        }
        if row.moment < until {
            last = place;
        }
        place = place.saturating_add(1);
    }
    Some(Shade {
        station,
        first: first?,
        last,
        until,
    })
}

/// Whether a row is that of a restart of a station.
fn is_restart<A: Allocator>(row: &Row<A>, restarted: usize) -> bool {
    match &row.mark {
        Mark::Note(
            Note {
                station: Some(station),
                text,
                ..
            },
        ) => *station == restarted && text.as_str().starts_with("restarted "),
        Mark::Note(_) | Mark::Arrow(_) | Mark::Gap(_) => false,
    }
}
