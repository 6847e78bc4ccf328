//! How far a live run has come round its site.

/// Where a live run is on its way round its site: each station has its turn there to wake, in their order.
#[derive(Clone, Copy, Debug, PartialEq, Eq)]
pub enum Lap {
    /// It has come to the station at this place, counted from 0.
    At(usize),
    /// Each station had its turn since time passed last.
    Over,
}

impl Lap {
    ghost use Rattle.std.specs.Prelude.{◌≡◌};
    ghost use Rattle.site_live.specs.Laps.{start_of};

    /// Returns the place from which on stations are looked at: that to which it has come, or the first, in a new lap.
    pub fn start(self) -> usize
        ensures { result ≡ start_of self }
    {
        match self {
            Lap::At(place) => place,
            Lap::Over => 0,
        }
    }
}
