//! What is asked of a diagnosis, and how much is known at a time.

use std::num::NonZeroUsize;

/// How long a transaction waits, and how much is known at a time: of each table the entry leaves whose last packet is
/// the oldest.
#[derive(Clone, Copy)]
pub struct Settings {
    /// For so many milliseconds a request waits for its answer.
    pub timeout: u64,
    /// An answer that takes more milliseconds is slow.
    pub slow: u64,
    /// A port of UDP beside the usual ones, where each datagram is to be one of BACnet/IP.
    pub port: Option<u16>,
    /// More broadcasts within a second are a storm.
    pub broadcasts: u64,
    /// How many findings of a name are kept.
    pub findings: u64,
    /// The most transactions that are followed.
    pub transactions: NonZeroUsize,
    /// The most transactions that are listed after their ends.
    pub listed: usize,
    /// The most stations that are known.
    pub stations: NonZeroUsize,
    /// The most datagrams that are compared with those that follow.
    pub sightings: NonZeroUsize,
}

/// A number of entries.
const fn entries(count: usize) -> NonZeroUsize {
    match NonZeroUsize::new(count) {
        Some(count) => count,
        None => NonZeroUsize::MIN,
    }
}

impl Settings {
    /// What is usual: a request waits for 20 s, an answer is slow after 1 s, 500 broadcasts a second are a storm, 20
    /// findings of a name are kept; 16,384 transactions are followed and 65,536 listed, 4,096 stations known,
    /// and 1,024 datagrams compared.
    pub fn usual() -> Settings {
        Settings {
            timeout: 20_000,
            slow: 1000,
            port: None,
            broadcasts: 500,
            findings: 20,
            transactions: entries(16_384),
            listed: 65_536,
            stations: entries(4096),
            sightings: entries(1024),
        }
    }
}
