//! What a station hears on a bus (9.3, 9.5.4).

use mstp_frame::Deframer;

/// For how many milliseconds no octet is heard where a frame that has begun is cut. It stands here once more, since a
/// judge takes no measure of whom it judges.
const FRAME_ABORT_MS: u64 = 100;

/// The ear of a station on a bus: the octets of a frame that has begun, and when octets were heard there last.
#[derive(Drop)]
pub struct Ear {
    deframer: Deframer,
    last: u64,
}

impl Ear {
    /// An ear that has heard nothing, from the moment `now` on, in milliseconds.
    pub fn new(now: u64) -> Ear {
        Ear {
            deframer: Deframer::new(),
            last: now,
        }
    }

    /// Hears octets at the moment `now`, in milliseconds, or a silence where there are none, and tells whether each
    /// frame that ends with them is one of those that may be heard.
    pub fn hears_only(&mut self, octets: &[u8], frames: &[&[u8]], now: u64) -> bool {
        if octets.is_empty() {
            self.deframer.silence();
            return true;
        }
        if now.saturating_sub(self.last) >= FRAME_ABORT_MS {
            self.deframer.silence();
        }
        self.last = now;
        self.takes_only(octets, frames)
    }

    /// Takes octets, and tells whether each frame that ends with them is one of these.
    fn takes_only(&mut self, octets: &[u8], frames: &[&[u8]]) -> bool {
        let mut left = octets;
        let mut is_known = true;
        while !left.is_empty() {
            let fed = self.deframer.feed(left);
            is_known = is_known && (fed.frame.is_none() || is_among(fed.octets, frames));
            left = &left[fed.used..];
        }
        is_known
    }
}

/// Whether octets are one of these frames.
fn is_among(octets: &[u8], frames: &[&[u8]]) -> bool {
    frames.iter().any(|frame| *frame == octets)
}
