//! The states of a master node, and whom a frame is for.

/// Where a master node stands between its inputs (9.5.6). Initialize and Use_Token are passed through within one.
#[derive(Clone, Copy, Debug, PartialEq, Eq)]
pub enum State {
    /// It waits for a frame.
    Idle,
    /// It said data, and waits for the reply.
    WaitForReply,
    /// A sole master waits for the next tick.
    DoneWithToken,
    /// It gave the token, and waits to hear the next station use it.
    PassToken,
    /// It heard nothing for so long that the token may be lost.
    NoToken,
    /// It polled, and waits for a reply.
    PollForMaster,
    /// It heard data that want a reply from the node of this address, and has it still to say.
    AnswerDataRequest(u8),
}

/// Whom a frame is for, as a station sees it (9.3).
#[derive(Clone, Copy, Debug, PartialEq, Eq)]
pub enum Whom {
    /// This station alone.
    ToUs,
    /// All stations.
    ToAll,
    /// Another station.
    ToOthers,
}
