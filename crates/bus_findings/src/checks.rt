//! Frames whose check octets are wrong (9.3, Annex G).

use diagnosis_parts::raise;
use findings::{Finding, Kind, Packets};
use mstp_frame::{data_check, header_check};

/// More than one of so many frames is too many.
const ONE_OF: u64 = 100;

/// .. where so many are wrong at least.
const FEW: u64 = 10;

/// Frames from this type on have data in another form (9.3, Annex T).
const EXTENDED: u8 = 32;

/// How many frames of a bus there are, and how many with wrong check octets.
#[derive(Clone, Copy)]
pub(crate) struct Checks {
    frames: u64,
    bad: u64,
    /// The first packets with such.
    first: Packets,
}

impl Checks {
    /// None yet.
    pub(crate) fn none() -> Checks {
        Checks {
            frames: 0,
            bad: 0,
            first: Packets::one(0),
        }
    }

    /// Octets that stand for a frame are heard.
    pub(crate) fn hear(&mut self, octets: &[u8], packet: u64) {
        raise(&mut self.frames);
        if !is_bad(octets) {
            return;
        }
        raise(&mut self.bad);
        self.first = self.first.and(packet);
    }

    /// That too many of the frames of a bus are wrong, if they are.
    pub(crate) fn finding(&self, bus: u32) -> Option<Finding> {
        if self.bad < FEW || self.bad.saturating_mul(ONE_OF) <= self.frames {
            return None;
        }
        Some(Finding {
            kind: Kind::BadCheck {
                bus,
                bad: self.bad,
                frames: self.frames,
            },
            packets: self.first,
        })
    }
}

/// Whether a check octet of a frame isn't that of its header, or those of its data.
fn is_bad(octets: &[u8]) -> bool {
    let [
        0x55,
        0xFF,
        frame_type,
        destination,
        source,
        high,
        low,
        check,
        rest @ ..,
    ] = octets
    else {
        return false;
    };
    let header = [*frame_type, *destination, *source, *high, *low];
    if header_check(&header) != *check {
        return true;
    }
    let size = usize::from(u16::from_be_bytes([*high, *low]));
    if EXTENDED <= *frame_type || size == 0 || rest.len() < size {
        return false;
    }
    let (data, behind) = rest.split_at(size);
    match behind {
        [first, second, ..] => data_check(data).to_le_bytes() != [*first, *second],
        [] | [_] => false,
    }
}
