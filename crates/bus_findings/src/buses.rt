//! What is found of buses.

use crate::checks::Checks;
use crate::replies::Replies;
use crate::tokens::Tokens;
use diagnosis_parts::{At, Settings};
use findings::Findings;
use lru::{DefaultHasher, LruCache};
use mstp_frame::Frame;
use std::alloc::{AllocError, Allocator};

/// What is known of a bus.
#[derive(Clone, Copy)]
struct Bus {
    checks: Checks,
    replies: Replies,
    tokens: Tokens,
}

/// What is known of the buses of the capture's interfaces.
#[derive(Drop)]
pub struct Buses<A: Allocator> {
    known: LruCache<u32, Bus, DefaultHasher, A>,
}

impl<A: Allocator + Copy> Buses<A> {
    /// Nothing is known yet.
    ///
    /// # Errors
    /// Want of memory.
    pub fn new(alloc: A, settings: Settings) -> Result<Buses<A>, AllocError> {
        Ok(Buses {
            known: LruCache::sparse(alloc, settings.stations)?,
        })
    }

    /// Octets that stand for a frame are heard on the bus of an interface.
    ///
    /// # Errors
    /// Want of memory.
    pub fn hear(
        &mut self,
        number: u32,
        octets: &[u8],
        frame: Option<Frame<'_>>,
        at: At,
        findings: &mut Findings<A>,
    ) -> Result<(), AllocError> {
        let mut bus = self.known.peek(&number).copied().unwrap_or(Bus::new());
        bus.checks.hear(octets, at.packet);
        match frame {
            Some(frame) => {
                let lost = bus.tokens.hear(number, frame.frame_type, at);
                let late = bus.replies.hear(number, frame, octets.len(), at);
                if let Some(finding) = lost {
                    findings.tell(finding)?;
                }
                if let Some(finding) = late {
                    findings.tell(finding)?;
                }
            }
            None => {
                bus.tokens.hear_noise(at);
                bus.replies.hear_noise();
            }
        }
        self.known.put(number, bus)?;
        Ok(())
    }

    /// The capture ends: tells of buses on which too many frames are wrong.
    ///
    /// # Errors
    /// Want of memory.
    pub fn finish(&self, findings: &mut Findings<A>) -> Result<(), AllocError> {
        for (number, bus) in &self.known {
            if let Some(finding) = bus.checks.finding(*number) {
                findings.tell(finding)?;
            }
        }
        Ok(())
    }
}

impl Bus {
    /// A bus of which nothing is known.
    fn new() -> Bus {
        Bus {
            checks: Checks::none(),
            replies: Replies::none(),
            tokens: Tokens::none(),
        }
    }
}
