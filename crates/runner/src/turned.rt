//! What a turn comes to.

/// What a turn comes to.
#[derive(Clone, Copy, Debug, PartialEq, Eq)]
pub enum Turned {
    /// An event happened: the one that was given, or the delivery of the datagram that came.
    Stepped,
    /// A datagram that nobody of the site sent was heard by its station.
    Stray,
    /// A datagram came and was dropped.
    Dropped,
    /// Nothing came.
    Nothing,
}
