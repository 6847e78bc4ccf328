//! Waits, lifetimes, counts and limits: `number APDU_TIMEOUT_MS -> 3000`.

use profile::LinkKind;
use sheets::{Counts, Given, Part, Stop, run_number};

/// The number of this name.
fn number_of(name: &str) -> Option<u64> {
    match name {
        "APDU_TIMEOUT_MS" => Some(profile::APDU_TIMEOUT_MS),
        "NUMBER_OF_APDU_RETRIES" => Some(u64::from(profile::NUMBER_OF_APDU_RETRIES)),
        "APDU_SEGMENT_TIMEOUT_MS" => Some(profile::APDU_SEGMENT_TIMEOUT_MS),
        "GATHERING_TIMEOUT_MS" => Some(profile::GATHERING_TIMEOUT_MS),
        "DEADLINE_MS" => Some(profile::DEADLINE_MS),
        "LIFE_MS" => Some(profile::LIFE_MS),
        "KEEP_MS" => Some(profile::KEEP_MS),
        "REUSE_MS" => Some(profile::REUSE_MS),
        "WINDOW_SIZE" => Some(u64::from(profile::WINDOW_SIZE)),
        "MAX_SEGMENTS_ACCEPTED" => Some(u64::from(profile::MAX_SEGMENTS_ACCEPTED)),
        "MAX_SERVICE_DATA_OCTETS" => Some(profile::MAX_SERVICE_DATA_OCTETS as u64),
        "MAX_REMEMBERED" => Some(profile::MAX_REMEMBERED as u64),
        "MAX_GATHERINGS" => Some(profile::MAX_GATHERINGS as u64),
        "MAX_BINDINGS" => Some(profile::MAX_BINDINGS as u64),
        "MAX_MOMENT_MS" => Some(profile::MAX_MOMENT_MS),
        "MAX_TICK_MS" => Some(profile::MAX_TICK_MS),
        "GRACE_SECONDS" => Some(profile::GRACE_SECONDS),
        "T_NO_TOKEN_MS" => Some(profile::T_NO_TOKEN_MS),
        "T_SLOT_MS" => Some(profile::T_SLOT_MS),
        "T_REPLY_TIMEOUT_MS" => Some(profile::T_REPLY_TIMEOUT_MS),
        "T_REPLY_DELAY_MS" => Some(profile::T_REPLY_DELAY_MS),
        "T_USAGE_TIMEOUT_MS" => Some(profile::T_USAGE_TIMEOUT_MS),
        "T_FRAME_ABORT_MS" => Some(profile::T_FRAME_ABORT_MS),
        "N_POLL" => Some(u64::from(profile::N_POLL)),
        "N_RETRY_TOKEN" => Some(u64::from(profile::N_RETRY_TOKEN)),
        "N_MIN_OCTETS" => Some(u64::from(profile::N_MIN_OCTETS)),
        "MAX_LEARNED_ROUTES" => Some(profile::MAX_LEARNED_ROUTES as u64),
        "MAX_FOREIGN_DEVICES" => Some(profile::MAX_FOREIGN_DEVICES as u64),
        "MAX_PEERS" => Some(profile::MAX_PEERS as u64),
        "MAX_OBJECTS" => Some(profile::MAX_OBJECTS as u64),
        "MAX_DEVICES" => Some(profile::MAX_DEVICES as u64),
        "MAX_NETWORKS" => Some(profile::MAX_NETWORKS as u64),
        "MAX_TEXT_OCTETS" => Some(profile::MAX_TEXT_OCTETS as u64),
        "MAX_DATAGRAM_OCTETS" => Some(profile::MAX_DATAGRAM_OCTETS as u64),
        "MAX_FRAME_DATA_OCTETS" => Some(profile::MAX_FRAME_DATA_OCTETS as u64),
        "MAX_NAME_OCTETS" => Some(profile::MAX_NAME_OCTETS as u64),
        "BACNET_IP_MAX_APDU" => Some(u64::from(LinkKind::BacnetIp.max_apdu())),
        "BACNET_IP_MAX_NPDU" => Some(u64::from(LinkKind::BacnetIp.max_npdu())),
        "MS_TP_MAX_APDU" => Some(u64::from(LinkKind::MsTp.max_apdu())),
        "MS_TP_MAX_NPDU" => Some(u64::from(LinkKind::MsTp.max_npdu())),
        _ => None,
    }
}

/// Runs a row.
pub(crate) fn run(given: Given<'_>, asked: &str, wanted: &str) -> Result<Counts, Stop> {
    match number_of(asked) {
        Some(number) => run_number(given, number, wanted),
        None => Err(Stop::Unread(Part::Asked)),
    }
}
