//! The picture as plain data: stations, lanes, and rows with messages, events and pauses.

use std::alloc::Allocator;
use std::fmt;

/// What a message is: the colour of its arrow (20.1).
#[derive(Clone, Copy, Debug, PartialEq, Eq)]
pub enum Kind {
    /// A request that is to be answered.
    Request,
    /// An answer to one.
    Answer,
    /// An Error, a Reject or an Abort.
    Refusal,
    /// A request that isn't answered.
    Unconfirmed,
    /// What networks and links say to one another, and octets that say nothing.
    Other,
}

/// What a page tells of a message: its number among all datagrams, or among the frames that are shown, of a run, from
/// 0.
#[derive(Clone, Copy, Debug, PartialEq, Eq)]
pub enum Anchor {
    Datagram(u64),
    Frame(u64),
}

/// The name of the place in a page: `d12`, `f34`.
impl fmt::Display for Anchor {
    fn fmt<W: fmt::Write>(&self, f: &mut fmt::Formatter<W>) -> fmt::Result {
        match self {
            Anchor::Datagram(number) => write!(f, "d{number}"),
            Anchor::Frame(number) => write!(f, "f{number}"),
        }
    }
}

/// Whom a message is for.
#[derive(Clone, Copy, Debug, PartialEq, Eq)]
pub enum Reach {
    /// One station: an arrow.
    One,
    /// All that are there: a line with a dot at each receiver.
    All,
}

/// Whether a message was there before.
#[derive(Clone, Copy, Debug, PartialEq, Eq)]
pub enum Repeat {
    /// It wasn't.
    None,
    /// Its sender sends it again: the how manyth time, from 1.
    Retry(u64),
    /// The network delivers it again.
    Delivery,
}

/// A segment of a message (5.2).
#[derive(Clone, Copy, Debug, PartialEq, Eq)]
pub struct Segment {
    /// Its number, from 1.
    pub number: u64,
    /// How many segments the message has, where that is known.
    pub count: Option<u64>,
}

/// A message: from the lane of its sender to those of its receivers. A station is its place among the stations.
#[derive(Drop)]
pub struct Arrow<A: Allocator> {
    pub from: usize,
    /// How many other stations, without lanes, say the same at the same time.
    pub more: usize,
    pub reach: Reach,
    /// Who receives it, or, where nobody does, who it is for.
    pub to: Vec<usize, A>,
    /// Whether those receive it; else the arrow ends in the air.
    pub is_heard: bool,
    pub kind: Kind,
    pub label: String<A>,
    pub segment: Option<Segment>,
    pub repeat: Repeat,
    /// The number of the request that it belongs to.
    pub request: Option<u64>,
    pub anchor: Anchor,
}

/// What is told of a station, or of none.
#[derive(Drop)]
pub struct Note<A: Allocator> {
    /// The station's place among the stations.
    pub station: Option<usize>,
    pub text: String<A>,
    /// The number of the request that it tells of.
    pub request: Option<u64>,
}

/// What stands in a row.
#[derive(Drop)]
pub enum Mark<A: Allocator> {
    Arrow(Arrow<A>),
    Note(Note<A>),
    /// So many milliseconds pass, and nothing is shown.
    Gap(u64),
}

/// A row, at a moment in milliseconds.
#[derive(Drop)]
pub struct Row<A: Allocator> {
    pub moment: u64,
    pub mark: Mark<A>,
}

/// A station: its name, and the place of its lane from the left, from 0, unless it is left out.
#[derive(Drop)]
pub struct Station<A: Allocator> {
    pub name: String<A>,
    pub lane: Option<usize>,
}

/// Lanes side by side of stations of one network, from the first to the last.
#[derive(Clone, Copy, Debug, PartialEq, Eq)]
pub struct Band {
    pub network: u16,
    pub first: usize,
    pub last: usize,
}

/// A device that ignores requests from one row to another, both among them.
#[derive(Clone, Copy, Debug, PartialEq, Eq)]
pub struct Shade {
    /// The device's place among the stations.
    pub station: usize,
    pub first: usize,
    pub last: usize,
    /// The moment at which it takes requests again, in milliseconds.
    pub until: u64,
}

/// A ladder: the stations, the networks of its lanes from left to right, and its rows from top to bottom.
#[derive(Drop)]
pub struct Ladder<A: Allocator> {
    pub stations: Vec<Station<A>, A>,
    pub bands: Vec<Band, A>,
    pub rows: Vec<Row<A>, A>,
    pub shades: Vec<Shade, A>,
    /// What is said below the picture of what isn't in it.
    pub remark: String<A>,
}

impl<A: Allocator> Ladder<A> {
    /// How many lanes it has.
    pub fn lanes(&self) -> usize {
        lanes_of(self.stations.as_slice())
    }
}

/// How many stations have lanes.
fn lanes_of<A: Allocator>(stations: &[Station<A>]) -> usize {
    let mut lanes = 0usize;
    for station in stations {
        if station.lane.is_some() {
            lanes = lanes.saturating_add(1);
        }
    }
    lanes
}

/// The lane of the station at a place, if it has one.
pub(crate) fn lane_of<A: Allocator>(place: usize, stations: &[Station<A>]) -> Option<usize> {
    match stations.get(place) {
        Some(station) => station.lane,
        None => None,
    }
}

/// The name of the station at a place.
pub(crate) fn name_of<A: Allocator>(place: usize, stations: &[Station<A>]) -> &str {
    match stations.get(place) {
        Some(station) => station.name.as_str(),
        None => "?",
    }
}
