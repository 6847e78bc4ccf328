//! What is known of a capture of which some packets are asked for.

use crate::concern::is_asked;
use captures::Packet;
use diagnosis::{Diagnosis, Settings};
use diagnosis_parts::raise;
use findings::Findings;
use packet_choice::{Chosen, Excerpt};
use std::alloc::{AllocError, Allocator};
use std::marker::Model;

/// What is known of a capture. What is found comes of the packets of all stations, and what is counted of those that
/// are asked for. A contract sees how many packets were read, and the findings that are kept.
#[derive(Drop)]
pub struct Diagnosed<A: Allocator> {
    whole: Diagnosis<A>,
    /// What packets of some stations show, where not those of all are asked for.
    part: Option<Diagnosis<A>>,
    findings: Findings<A>,
    /// How many packets are asked for, where that may not be all.
    asked: Option<u64>,
}

impl<A: Allocator> Model for Diagnosed<A> {
    ghost use Rattle.std.specs.Prelude.{ℕ, List};
    ghost use Rattle.findings.specs.declared.finding.Finding.{Finding};

    ghost Value = { ℕ × List Finding };

    ghost view = { λ d. d.findings };
}

impl<A: Allocator + Copy> Diagnosed<A> {
    ghost use Rattle.std.specs.Prelude.{◌≡◌};

    /// Nothing is known yet.
    ///
    /// # Errors
    /// Want of memory.
    pub(crate) fn new(
        alloc: A,
        settings: Settings,
        excerpt: Excerpt<'_>,
    ) -> Result<Diagnosed<A>, AllocError> {
        let whole = Settings {
            findings: u64::MAX,
            ..settings
        };
        let part = if excerpt.is_of_stations() {
            let part = Settings {
                findings: 0,
                ..settings
            };
            Some(Diagnosis::new(alloc, part)?)
        } else {
            None
        };
        Ok(Diagnosed {
            whole: Diagnosis::new(alloc, whole)?,
            part,
            findings: Findings::new(alloc, settings.findings),
            asked: if excerpt.is_partial() { Some(0) } else { None },
        })
    }

    /// Takes the next packet, as it is chosen.
    ///
    /// # Errors
    /// Want of memory. Then part of what the packet shows may be known.
    pub(crate) fn take(
        &mut self,
        packet: &Packet<'_>,
        chosen: Chosen,
        excerpt: Excerpt<'_>,
    ) -> Result<(), AllocError> {
        self.findings.count_packet();
        match chosen {
            Chosen::Asked => {
                self.count_asked();
                self.whole.take(packet)?;
            }
            Chosen::Beside => self.whole.take(packet)?,
            Chosen::Untimely => self.whole.pass(None)?,
        }
        if let Some(part) = &mut self.part {
            match chosen {
                Chosen::Asked => part.take(packet)?,
                Chosen::Beside => part.pass(packet.microseconds)?,
                Chosen::Untimely => part.pass(None)?,
            }
        }
        self.gather(excerpt)
    }

    /// Counts a packet that is asked for.
    fn count_asked(&mut self) {
        if let Some(asked) = &mut self.asked {
            raise(asked);
        }
    }

    /// The capture ends: what can be found only then is found.
    ///
    /// # Errors
    /// Want of memory.
    pub(crate) fn finish(&mut self, excerpt: Excerpt<'_>) -> Result<(), AllocError> {
        self.whole.finish()?;
        if let Some(part) = &mut self.part {
            part.finish()?;
        }
        self.gather(excerpt)
    }

    /// Takes over what was found that is asked for.
    fn gather(&mut self, excerpt: Excerpt<'_>) -> Result<(), AllocError> {
        if self.whole.findings().kept().is_empty() {
            return Ok(());
        }
        for finding in self.whole.findings().kept() {
            if is_asked(&finding.kind, excerpt) {
                self.findings.tell(*finding)?;
            }
        }
        self.whole.forget_findings();
        Ok(())
    }

    /// Keeps none of the findings so far.
    pub(crate) fn forget_findings(&mut self) {
        self.findings.forget_kept();
    }

    /// The findings that are asked for; each packet that one names was read.
    pub fn findings(&self) -> &Findings<A>
        ensures { result.now ≡ self.now }
    {
        &self.findings
    }

    /// How many packets are asked for, where that may not be all.
    pub fn asked(&self) -> Option<u64> {
        self.asked
    }

    /// What is counted of the packets that are asked for.
    pub fn counted(&self) -> &Diagnosis<A> {
        match &self.part {
            Some(part) => part,
            None => &self.whole,
        }
    }
}
