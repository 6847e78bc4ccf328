//! The parts of a site, as faults are about them.

/// A part of a site. Indices count among all networks, all stations, a station's links or a device's objects, the first
/// being 0.
#[derive(Clone, Copy, Debug, PartialEq, Eq)]
pub enum Part {
    /// The site as a whole.
    Site,
    /// A network.
    Network(usize),
    /// A station.
    Station(usize),
    /// A station's link to a network: a port of a router, or the one link of another station.
    Link {
        /// The station's index.
        station: usize,
        /// The index among its links.
        link: usize,
    },
    /// An object of a device.
    Object {
        /// The device's index among all stations.
        device: usize,
        /// The index among its objects.
        object: usize,
    },
}

/// What a fault is about: a part, and the key of a site file that says what is wrong there, if one key does.
#[derive(Clone, Copy, Debug, PartialEq, Eq)]
pub struct Subject {
    /// The part.
    pub part: Part,
    /// The key.
    pub key: Option<&'static str>,
}

impl Part {
    /// The part, where no single key says what is wrong.
    pub(crate) fn whole(self) -> Subject {
        Subject {
            part: self,
            key: None,
        }
    }

    /// What a key of the part says.
    pub(crate) fn key(self, key: &'static str) -> Subject {
        Subject {
            part: self,
            key: Some(key),
        }
    }
}
