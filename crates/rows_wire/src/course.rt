//! What becomes of datagrams on their way.

/// What becomes of a datagram on its way.
#[derive(Clone, Copy, Debug, PartialEq, Eq)]
pub enum Way {
    Arrives,
    IsLost,
    ArrivesTwice,
    /// It arrives before all that wait.
    Overtakes,
}

impl Way {
    pub fn is_overtaking(self) -> bool {
        self == Way::Overtakes
    }

    /// How often it arrives.
    pub fn copies(self) -> u8 {
        match self {
            Way::Arrives | Way::Overtakes => 1,
            Way::IsLost => 0,
            Way::ArrivesTwice => 2,
        }
    }
}

/// What becomes of one datagram after another.
#[derive(Clone, Copy, Debug, PartialEq, Eq)]
pub enum Course {
    /// Each arrives, in order.
    InOrder,
    /// As numbers tell that follow from each other, of which this is the latest.
    Seeded(u64),
}

/// The way of a datagram by a number: of eight one is lost, one arrives twice, and one overtakes others.
fn way_of(number: u64) -> Way {
    match number >> 61 {
        0 => Way::IsLost,
        1 => Way::ArrivesTwice,
        2 => Way::Overtakes,
        _ => Way::Arrives,
    }
}

/// The number that follows from another: each of 64 bits comes once, before any comes again.
pub fn next_number(latest: u64) -> u64 {
    latest
        .wrapping_mul(6_364_136_223_846_793_005)
        .wrapping_add(1_442_695_040_888_963_407)
}

impl Course {
    /// What becomes of the next datagram.
    pub fn next_way(&mut self) -> Way {
        match self {
            Course::InOrder => Way::Arrives,
            Course::Seeded(latest) => {
                *latest = next_number(*latest);
                way_of(*latest)
            }
        }
    }
}
