//! Times of the profile, all in milliseconds. Where the standard has a name for one (5.4.1, 9.5.6, 12.11), it has that
//! name; the values are this product's.

ghost use Rattle.std.specs.Prelude.{◌≡◌};
ghost use Rattle.profile.specs.Times as spec;

/// How long a client waits for an answer before it says the request again (12.11, APDU_Timeout).
pub const APDU_TIMEOUT_MS: u64 = 3000;

/// How long a sender waits for a SegmentACK (12.11, APDU_Segment_Timeout).
pub const APDU_SEGMENT_TIMEOUT_MS: u64 = 2000;

/// How long a receiver waits for the next segment: four segment timeouts (5.4.4).
pub const GATHERING_TIMEOUT_MS: u64 = 8000;

/// A client says a request, and takes its answer, only while fewer have passed since its issue (5.4.4).
pub const DEADLINE_MS: u64 = 12_000;

/// The greatest age at which a message is heard.
pub const LIFE_MS: u64 = 1000;

/// How long after the execution a remembered answer lives, the last of these included; and how long after a restart a
/// device takes no request (5.4.5).
pub const KEEP_MS: u64 = 13_000;

/// How many pass after the issue of a request before its invoke ID is given again (5.4.1).
pub const REUSE_MS: u64 = 27_001;

/// The greatest moment.
pub const MAX_MOMENT_MS: u64 = 1 << 62;

/// How many pass at once at most.
pub const MAX_TICK_MS: u64 = 60_000;

/// For how many seconds more than it asked for a foreign device stays registered (J.5.2.3).
pub const GRACE_SECONDS: u64 = 30;

/// How long a master node hears nothing before it takes the token for lost (9.5.6, Tno_token).
pub const T_NO_TOKEN_MS: u64 = 500;

/// The slot of a master node, by whose number it waits longer than Tno_token (9.5.6, Tslot).
pub const T_SLOT_MS: u64 = 10;

/// How long a master node waits for the reply to what it said (9.5.6, Treply_timeout).
pub const T_REPLY_TIMEOUT_MS: u64 = 255;

/// How long a master node may take for a reply (9.5.6, Treply_delay).
pub const T_REPLY_DELAY_MS: u64 = 250;

/// How long a master node waits for another's first octet, after it gave the token or polled (9.5.6, Tusage_timeout).
pub const T_USAGE_TIMEOUT_MS: u64 = 20;

/// The silence behind which a frame that is cut is given up (9.5.6, Tframe_abort).
pub const T_FRAME_ABORT_MS: u64 = 100;

/// The times of transactions and messages, and the greatest moment: each is that of its definition.
pub fn transaction_times() -> (u64, u64, u64, u64, u64, u64, u64, u64)
    ensures apdu_timeout { result.0 ≡ spec.APDU_TIMEOUT_MS }
    ensures segment_timeout { result.1 ≡ spec.APDU_SEGMENT_TIMEOUT_MS }
    ensures assembly_timeout { result.2 ≡ spec.GATHERING_TIMEOUT_MS }
    ensures deadline { result.3 ≡ spec.DEADLINE_MS }
    ensures life { result.4 ≡ spec.LIFE_MS }
    ensures keep { result.5 ≡ spec.KEEP_MS }
    ensures reuse { result.6 ≡ spec.REUSE_MS }
    ensures moment { result.7 ≡ spec.MAX_MOMENT_MS }
{
    (
        APDU_TIMEOUT_MS,
        APDU_SEGMENT_TIMEOUT_MS,
        GATHERING_TIMEOUT_MS,
        DEADLINE_MS,
        LIFE_MS,
        KEEP_MS,
        REUSE_MS,
        MAX_MOMENT_MS,
    )
}

/// The longest tick, and the seconds of grace of a registration: each is that of its definition.
pub fn event_times() -> (u64, u64)
    ensures tick { result.0 ≡ spec.MAX_TICK_MS }
    ensures grace { result.1 ≡ spec.GRACE_SECONDS }
{
    (MAX_TICK_MS, GRACE_SECONDS)
}

/// The times of a master node (9.5.6): each is that of its definition.
pub fn token_times() -> (u64, u64, u64, u64, u64, u64)
    ensures no_token { result.0 ≡ spec.T_NO_TOKEN_MS }
    ensures slot { result.1 ≡ spec.T_SLOT_MS }
    ensures reply_timeout { result.2 ≡ spec.T_REPLY_TIMEOUT_MS }
    ensures reply_delay { result.3 ≡ spec.T_REPLY_DELAY_MS }
    ensures usage_timeout { result.4 ≡ spec.T_USAGE_TIMEOUT_MS }
    ensures frame_abort { result.5 ≡ spec.T_FRAME_ABORT_MS }
{
    (
        T_NO_TOKEN_MS,
        T_SLOT_MS,
        T_REPLY_TIMEOUT_MS,
        T_REPLY_DELAY_MS,
        T_USAGE_TIMEOUT_MS,
        T_FRAME_ABORT_MS,
    )
}
