//! Where everything stands in a picture, in pixels from its upper left corner.

/// The least width of a picture.
const LEAST_WIDTH: usize = 1000;

/// The width up to which lanes come closer, so that they stand side by side on a screen.
const SCREEN_WIDTH: usize = 1310;

/// The width of the column of moments.
pub(crate) const MOMENTS: usize = 74;

/// The distance of two lanes from which on a name stands above its lane, and the least distance.
const NAME_LANE: usize = 100;

const LEAST_LANE: usize = 40;

/// The height of the bands with the numbers of networks.
pub(crate) const BANDS: usize = 18;

/// The height of names above their lanes, and of names that are slanted.
const NAMES: usize = 24;

const SLANTED_NAMES: usize = 112;

/// How far a slanted name goes to the right of its lane.
const SLANT: usize = 80;

/// The height of a row.
const ROW: usize = 24;

/// From the upper edge of a row to its line.
const ROW_LINE: usize = 18;

/// The height of the lines below the names.
const LEGEND: usize = 68;

/// The width of a character, about.
const CHARACTER: usize = 7;

/// How far an arrow goes that ends in the air.
pub(crate) const STUB: usize = 40;

/// How far the middle of a label is from the left end of its line, at most.
const MIDDLE: usize = 360;

/// How many characters of a label are shown at most, and of a note.
pub(crate) const MOST_OF_LABEL: usize = 80;

pub(crate) const MOST_OF_NOTE: usize = 60;

/// Where everything stands in a picture with so many lanes and rows.
#[derive(Clone, Copy, Debug, PartialEq, Eq)]
pub(crate) struct Layout {
    pub(crate) lanes: usize,
    pub(crate) rows: usize,
}

impl Layout {
    /// The distance of two lanes.
    pub(crate) fn lane_width(self) -> usize {
        if self.lanes == 0 {
            return LEAST_WIDTH;
        }
        let roomy = (LEAST_WIDTH - MOMENTS) / self.lanes;
        let close = (SCREEN_WIDTH - MOMENTS) / self.lanes;
        if NAME_LANE <= roomy {
            roomy
        } else {
            close.min(NAME_LANE).max(LEAST_LANE)
        }
    }

    /// Whether names are slanted, since lanes are too close for them.
    pub(crate) fn is_slanted(self) -> bool {
        self.lane_width() < NAME_LANE
    }

    /// The width of the picture.
    pub(crate) fn width(self) -> usize {
        let lanes = self.lane_width().saturating_mul(self.lanes);
        let slant = if self.is_slanted() { SLANT } else { 0 };
        MOMENTS
            .saturating_add(lanes)
            .saturating_add(slant)
            .max(LEAST_WIDTH)
    }

    /// The height of the names above the lanes, and of those below.
    fn names(self) -> usize {
        if self.is_slanted() {
            SLANTED_NAMES
        } else {
            NAMES
        }
    }

    /// The upper edge of the first row.
    pub(crate) fn head(self) -> usize {
        BANDS.saturating_add(self.names())
    }

    /// The lower edge of the last row.
    pub(crate) fn foot(self) -> usize {
        self.head().saturating_add(ROW.saturating_mul(self.rows))
    }

    /// The upper edge of the lines below the names.
    pub(crate) fn legend(self) -> usize {
        self.foot().saturating_add(self.names())
    }

    /// The height of the picture.
    pub(crate) fn height(self) -> usize {
        self.legend().saturating_add(LEGEND)
    }

    /// Where the lane at a place begins, from the left.
    pub(crate) fn lane_edge(self, place: usize) -> usize {
        MOMENTS.saturating_add(self.lane_width().saturating_mul(place))
    }

    /// Where the lane at a place stands, from the left.
    pub(crate) fn lane(self, place: usize) -> usize {
        self.lane_edge(place).saturating_add(self.lane_width() / 2)
    }

    /// Where the lane at a place stands, or where all lanes end.
    pub(crate) fn lane_or_end(self, place: Option<usize>) -> usize {
        match place {
            Some(place) => self.lane(place),
            None => self.lane_edge(self.lanes),
        }
    }

    /// How many characters of a lane's name are shown at most.
    pub(crate) fn name_length(self) -> usize {
        if self.is_slanted() {
            14
        } else {
            self.lane_width() / (CHARACTER + 1)
        }
    }

    /// Where the line of the row at a place stands, from above.
    pub(crate) fn row(self, place: usize) -> usize {
        self.head()
            .saturating_add(ROW.saturating_mul(place))
            .saturating_add(ROW_LINE)
    }

    /// The middle of a label of so many characters above a line from one place to another: it stays on the line's side
    /// of the first place, near the left end of a long line, and within the picture.
    pub(crate) fn middle_of(self, from: usize, to: usize, characters: usize) -> usize {
        let half = width_of(characters) / 2;
        let left = from.min(to);
        let middle = from.midpoint(to).min(left.saturating_add(MIDDLE));
        let beside = if from < to {
            middle.max(from.saturating_add(half))
        } else {
            middle.min(from.saturating_sub(half))
        };
        beside
            .min(self.width().saturating_sub(half))
            .max(MOMENTS.saturating_add(half))
    }

    /// Whether a note of so many characters fits in behind a place.
    pub(crate) fn fits_behind(self, place: usize, characters: usize) -> bool {
        place.saturating_add(width_of(characters.min(MOST_OF_NOTE))) <= self.width()
    }
}

/// The width of so many characters, about.
fn width_of(characters: usize) -> usize {
    CHARACTER.saturating_mul(characters)
}
