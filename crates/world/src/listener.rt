//! Who hears on a bus.

/// A node that hears on a bus.
#[derive(Clone, Copy, Debug, PartialEq, Eq)]
pub struct Listener {
    /// Its place among the nodes of its world.
    pub place: usize,
    /// The number of its port.
    pub port: usize,
    /// Its address on the bus, 0 to 127 (9.5.2).
    pub mac: u8,
}
