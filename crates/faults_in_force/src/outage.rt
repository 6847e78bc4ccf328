//! A station or a network that receives nothing for a while.

use crate::set_aside::Delivery;

/// How long an outage is, and what it has seen.
#[derive(Clone, Copy)]
pub(crate) struct Outage {
    /// The last moment of it, in milliseconds.
    pub(crate) until: u64,
    /// Datagrams and frames before these had their turn while it lasted, if they hadn't before.
    pub(crate) items: u64,
    pub(crate) frames: u64,
}

impl Outage {
    /// A moment has come, before which so many datagrams and frames were put out.
    pub(crate) fn pass(&mut self, now: u64, items: u64, frames: u64) {
        if now <= self.until {
            self.items = items;
            self.frames = frames;
        }
    }

    /// Whether a delivery is lost by it, that is to its station or on its network.
    pub(crate) fn takes(self, delivery: Delivery) -> bool {
        match delivery {
            Delivery::Datagram(number) => number < self.items,
            Delivery::Frame { number, .. } => number < self.frames,
        }
    }
}
