//! What is counted of a capture.

/// What is counted of packets.
#[derive(Clone, Copy)]
pub struct PacketCounts {
    /// The packets that were read.
    pub packets: u64,
    /// Datagrams of BACnet/IP, without those that were captured twice.
    pub datagrams: u64,
    /// Datagrams that were captured twice.
    pub twice: u64,
    /// Frames of MS/TP.
    pub frames: u64,
    /// Packets that are neither, or end too early.
    pub passed_over: u64,
    /// Datagrams and frames in which no header could be read.
    pub unread: u64,
}

impl PacketCounts {
    /// Nothing yet.
    pub fn none() -> PacketCounts {
        PacketCounts {
            packets: 0,
            datagrams: 0,
            twice: 0,
            frames: 0,
            passed_over: 0,
            unread: 0,
        }
    }
}

/// What is counted of transactions.
#[derive(Clone, Copy)]
pub struct RequestCounts {
    /// Confirmed requests, each once.
    pub requests: u64,
    /// Those that were answered.
    pub answered: u64,
    /// Those that weren't, though the capture goes on for the time that they wait, or their invoke ID was used again.
    pub unanswered: u64,
    /// Those that wait for their answer.
    pub open: u64,
    /// Requests that came again before their answer.
    pub repeats: u64,
    /// Requests that came again after their answer.
    pub repeats_after_answer: u64,
    /// Answers to no request that is known.
    pub strays: u64,
    /// Transactions that left before their end, since too many were open.
    pub left: u64,
    /// Transactions that left the list of those that ended.
    pub unlisted: u64,
}

impl RequestCounts {
    /// Nothing yet.
    pub fn none() -> RequestCounts {
        RequestCounts {
            requests: 0,
            answered: 0,
            unanswered: 0,
            open: 0,
            repeats: 0,
            repeats_after_answer: 0,
            strays: 0,
            left: 0,
            unlisted: 0,
        }
    }
}

/// Counts one more.
pub fn raise(count: &mut u64) {
    *count = count.saturating_add(1);
}
