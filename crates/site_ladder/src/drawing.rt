//! The ladder of a run, and the page that tells of it.

use crate::folding::{folded, shades_of, with_pauses};
use crate::lanes::{bands_of, stations_of};
use crate::page::write_page;
use ladder::{Ladder, write_svg};
use site_gathering::{Event, Gathering, Part, Stop, Watcher, World, place_named, watch};
use std::alloc::{AllocError, Allocator, Global};
use tags::Fault;

/// What is drawn.
#[derive(Clone, Copy, Debug, PartialEq, Eq)]
enum Form {
    /// The picture alone.
    Picture,
    /// A page with the picture in it.
    Page,
}

/// A run that is drawn at its end.
#[derive(Drop)]
struct Drawing<'p, A: Allocator + Copy> {
    gathering: Gathering<'p, A>,
    form: Form,
    drawn: Vec<u8, A>,
}

impl<A: Allocator + Copy> Watcher<A> for Drawing<'_, A> {
    fn begin(&mut self, world: &World<A>) -> Result<(), Fault> {
        if let Some(names) = self.gathering.part.only {
            let only = flags_of(self.gathering.alloc, names, world)?;
            self.gathering.only = Some(only);
        }
        Ok(())
    }

    fn make(&mut self, world: &mut World<A>, event: &Event<A>) -> Result<(), Fault> {
        self.gathering.make(world, event)
    }

    fn refuse(&mut self, world: &World<A>, _n: u64, fault: Fault) -> Result<(), Fault> {
        self.gathering.put_refusal(world, None, fault)?;
        Ok(())
    }

    fn end(&mut self, world: &World<A>) -> Result<(), Fault> {
        let ladder = ladder_of(world, &mut self.gathering)?;
        let written = match self.form {
            Form::Picture => write_svg(&ladder, &mut self.drawn),
            Form::Page => write_page(world, &self.gathering, &ladder, &mut self.drawn),
        };
        match written {
            Ok(()) => Ok(()),
            // what is written into memory fails for want of it alone
            Err(_) => Err(Fault::Memory),
        }
    }
}

/// Of each station whether it is one of some, whose names have commas between them.
///
/// # Errors
/// `NoSuch` for a name that no station has, and `Memory`.
fn flags_of<A: Allocator + Copy>(
    alloc: A,
    names: &str,
    world: &World<A>,
) -> Result<Vec<bool, A>, Fault> {
    let stations = world.site().stations();
    let mut flags = Vec::new(alloc);
    for _ in stations {
        flags.push(false)?;
    }
    for name in names.split(',') {
        match place_named(name.as_bytes(), stations) {
            Some(place) if place < flags.len() => flags[place] = true,
            Some(_) | None => return Err(Fault::NoSuch),
        }
    }
    Ok(flags)
}

/// The ladder of what was gathered.
fn ladder_of<A: Allocator + Copy>(
    world: &World<A>,
    gathering: &mut Gathering<'_, A>,
) -> Result<Ladder<A>, AllocError> {
    let alloc = gathering.alloc;
    let rows = gathering.take_rows()?;
    let stations = stations_of(alloc, world, rows.as_slice())?;
    let rows = folded(alloc, rows, stations.as_slice())?;
    let rows = with_pauses(alloc, rows)?;
    let shades = shades_of(alloc, gathering.restarts.as_slice(), rows.as_slice())?;
    let mut ladder = Ladder {
        bands: bands_of(alloc, world, stations.as_slice())?,
        stations,
        rows,
        shades,
        remark: String::new(alloc),
    };
    ladder.remark = remark_of(alloc, world, gathering.part, &ladder)?;
    Ok(ladder)
}

/// What is said of what isn't in a picture.
fn remark_of<A: Allocator + Copy>(
    alloc: A,
    world: &World<A>,
    part: Part<'_>,
    ladder: &Ladder<A>,
) -> Result<String<A>, AllocError> {
    let tokens = if world.buses().buses.is_empty() {
        ""
    } else {
        " Token, Poll For Master and Reply To Poll For Master are left out where they carry no data."
    };
    let count = ladder.stations.len().saturating_sub(ladder.lanes());
    if count == 0 {
        return format!(in alloc; "{part}{tokens}");
    }
    format!(in alloc;
        "{part}{tokens} Stations without a lane, of which no message but broadcasts is shown: {count}."
    )
}

/// Takes the steps of a script in a world of a site, as their texts describe them, and gives the picture of a part of
/// the run: SVG in UTF-8, with a lane for each station that sends or receives more than broadcasts, an arrow for each
/// message that is received, one that ends in the air for each that is sent and never received, and each entry of the
/// history. The document is read in memory of `reading`.
///
/// # Errors
/// Those of `site_gathering::watch`, `NoSuch` where the part names a station that the site hasn't, and `Memory`.
pub fn ladder<A: Allocator + Copy>(
    reading: Global,
    alloc: A,
    site: &[u8],
    script: &[u8],
    part: Part<'_>,
) -> Result<Vec<u8, A>, Stop> {
    draw(reading, alloc, site, script, part, Form::Picture)
}

/// The same, and gives a page in HTML that needs no other file: the picture, the history, and each datagram and each
/// frame of the part with what its octets say.
///
/// # Errors
/// Those of [`ladder`].
pub fn report<A: Allocator + Copy>(
    reading: Global,
    alloc: A,
    site: &[u8],
    script: &[u8],
    part: Part<'_>,
) -> Result<Vec<u8, A>, Stop> {
    draw(reading, alloc, site, script, part, Form::Page)
}

/// Takes the steps of a script, and draws what comes of them.
fn draw<A: Allocator + Copy>(
    reading: Global,
    alloc: A,
    site: &[u8],
    script: &[u8],
    part: Part<'_>,
    form: Form,
) -> Result<Vec<u8, A>, Stop> {
    let mut drawing = Drawing {
        gathering: Gathering::new(alloc, part),
        form,
        drawn: Vec::new(alloc),
    };
    watch(reading, alloc, site, script, &mut drawing)?;
    let Drawing { drawn, .. } = drawing;
    Ok(drawn)
}
