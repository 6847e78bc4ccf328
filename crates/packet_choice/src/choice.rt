//! Which packets are asked for.

use crate::ends::ends_of;
use crate::place::Place;
use captures::Packet;
use diagnosis_parts::Party;
use std::alloc::Allocator;

/// Which packets are asked for. A list of places stands for one station, wherever it is seen.
#[derive(Drop)]
pub struct Choice<A: Allocator> {
    /// Those from so many microseconds after the first packet on.
    pub from: u64,
    /// Those up to so many microseconds after it.
    pub to: u64,
    /// Those that one of two stations sent to the other.
    pub between: Option<[Vec<Place, A>; 2]>,
    /// Those that this station sent or is to receive.
    pub device: Option<Vec<Place, A>>,
}

/// Whether a packet is asked for.
#[derive(Clone, Copy, PartialEq, Eq)]
pub enum Chosen {
    /// It is.
    Asked,
    /// It is of other stations.
    Beside,
    /// It is of another time.
    Untimely,
}

impl<A: Allocator> Choice<A> {
    /// The packets that are asked for, as whoever reads them sees it.
    pub fn excerpt(&self) -> Excerpt<'_> {
        let between = match &self.between {
            Some([first, second]) => Some((first.as_slice(), second.as_slice())),
            None => None,
        };
        let device = match &self.device {
            Some(places) => Some(places.as_slice()),
            None => None,
        };
        Excerpt {
            from: self.from,
            to: self.to,
            between,
            device,
        }
    }
}

/// The packets that are asked for, as whoever reads them sees it.
#[derive(Clone, Copy)]
pub struct Excerpt<'c> {
    /// Those from so many microseconds after the first packet on.
    from: u64,
    /// Those up to so many microseconds after it.
    to: u64,
    /// Those that one of two stations sent to the other.
    between: Option<(&'c [Place], &'c [Place])>,
    /// Those that this station sent or is to receive.
    device: Option<&'c [Place]>,
}

impl Excerpt<'_> {
    /// All packets.
    pub fn all() -> Excerpt<'static> {
        Excerpt {
            from: 0,
            to: u64::MAX,
            between: None,
            device: None,
        }
    }

    /// Whether packets of some stations are asked for, and not those of all.
    pub fn is_of_stations(self) -> bool {
        self.between.is_some() || self.device.is_some()
    }

    /// Whether not all packets are asked for.
    pub fn is_partial(self) -> bool {
        self.from != 0 || self.to != u64::MAX || self.is_of_stations()
    }

    /// Whether what is between these stations is asked for, in either direction.
    pub fn is_asked_of(self, one: Party, other: Option<Party>) -> bool {
        self.is_between(one, other) && self.is_of_device(one, other)
    }

    /// Whether these are the two stations, if any are named.
    fn is_between(self, one: Party, other: Option<Party>) -> bool {
        let Some((first, second)) = self.between else {
            return true;
        };
        let Some(other) = other else {
            return false;
        };
        (is_any(first, one) && is_any(second, other))
            || (is_any(first, other) && is_any(second, one))
    }

    /// Whether one of these is the device, if one is named.
    fn is_of_device(self, one: Party, other: Option<Party>) -> bool {
        let Some(device) = self.device else {
            return true;
        };
        match other {
            Some(other) => is_any(device, one) || is_any(device, other),
            None => is_any(device, one),
        }
    }
}

/// Whether a station is at one of these places.
fn is_any(places: &[Place], party: Party) -> bool {
    for place in places {
        if place.has(party) {
            return true;
        }
    }
    false
}

/// Packet by packet, which are asked for.
#[derive(Clone, Copy)]
pub struct Choosing<'c> {
    excerpt: Excerpt<'c>,
    /// When the first packet with a stamp was captured, in microseconds.
    began: Option<u64>,
    /// When the last one was.
    moment: u64,
}

impl<'c> Choosing<'c> {
    /// At the beginning of a file.
    pub fn new(excerpt: Excerpt<'c>) -> Choosing<'c> {
        Choosing {
            excerpt,
            began: None,
            moment: 0,
        }
    }

    /// Whether the next packet is asked for.
    pub fn choose(&mut self, packet: &Packet<'_>) -> Chosen {
        if let Some(moment) = packet.microseconds {
            self.began = Some(self.began.unwrap_or(moment));
            self.moment = moment;
        }
        let since = self
            .moment
            .saturating_sub(self.began.unwrap_or(self.moment));
        let excerpt = self.excerpt;
        if since < excerpt.from || excerpt.to < since {
            return Chosen::Untimely;
        }
        if !excerpt.is_of_stations() {
            return Chosen::Asked;
        }
        match ends_of(packet) {
            Some(ends) if excerpt.is_asked_of(ends.sender, ends.receiver) => Chosen::Asked,
            Some(_) | None => Chosen::Beside,
        }
    }
}
