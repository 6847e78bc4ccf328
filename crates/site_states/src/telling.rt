//! How each line begins, and what is known where it is told.

ghost use Rattle.std.specs.Prelude.{Some};
ghost use Rattle.site_states.specs.Shown.{head_text};

use network_faults::StationName;
use site_parts::Station;
use std::alloc::Allocator;
use std::fmt;
use words::Spelling;

/// The beginning of a line: a moment, in milliseconds, and the name of a station, as `4002 state ahu1`.
#[derive(Clone, Copy)]
pub(crate) struct Head<'a> {
    pub(crate) moment: u64,
    pub(crate) name: &'a [u8],
}

impl fmt::Display for Head<'_> {
    ghost output = { λ h. Some (head_text h.moment h.name.now) };

    fn fmt<W: fmt::Write>(&self, f: &mut fmt::Formatter<W>) -> fmt::Result {
        write!(f, "{} state {}", self.moment, StationName(self.name))
    }
}

/// What is known where something is told of a station.
#[derive(Clone, Copy)]
pub(crate) struct Telling<'a, A: Allocator> {
    /// In milliseconds.
    pub(crate) moment: u64,
    /// The name of the station.
    pub(crate) name: &'a [u8],
    /// The stations of the site, whose names are told.
    pub(crate) stations: &'a [Station<A>],
    /// The standard's numbers, or its names.
    pub(crate) spelling: Spelling,
}

impl<'a, A: Allocator> Telling<'a, A> {
    /// The beginning of each line.
    pub(crate) fn head(&self) -> Head<'a> {
        Head {
            moment: self.moment,
            name: self.name,
        }
    }
}
