//! The packet that a message stands in.

/// The packet that a message stands in.
#[derive(Clone, Copy)]
pub struct At {
    /// Its number.
    pub packet: u64,
    /// When it was captured, in microseconds.
    pub moment: u64,
    /// How many microseconds after the first packet that was.
    pub since: u64,
}
