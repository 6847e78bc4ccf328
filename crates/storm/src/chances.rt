//! How often what happens.

use crate::percent::Percent;

/// How often what happens.
#[derive(Clone, Copy, Debug, PartialEq, Eq)]
pub struct Chances {
    /// Of all events: how many begin something new, most of them a request.
    pub issue: Percent,
    /// Of the datagrams, and of the frames at each station of their bus: how many are never heard there.
    pub lose: Percent,
    /// Of the deliveries: how many are of what was delivered before.
    pub repeat: Percent,
    /// Of the deliveries, wakes and ticks: how many are of another thing than what is next.
    pub reorder: Percent,
    /// Of the frames at each station of their bus: how many are heard with wrong octets, and never whole.
    pub damage: Percent,
    /// Of what begins: how often a device restarts.
    pub restart: Percent,
}

impl Chances {
    /// A plant in common weather: a twentieth of all events begins something, of a hundred frames and datagrams two are
    /// lost, two repeated, two overtaken and one is damaged, and of a hundred things that begin one is a restart.
    pub const USUAL: Chances = Chances {
        issue: Percent { tenths: 50 },
        lose: Percent { tenths: 20 },
        repeat: Percent { tenths: 20 },
        reorder: Percent { tenths: 20 },
        damage: Percent { tenths: 10 },
        restart: Percent { tenths: 10 },
    };
}
