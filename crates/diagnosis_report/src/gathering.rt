//! What is gathered of a capture as it is read once more: how many requests and broadcasts came, and the packets that
//! findings name.

use crate::rates::Rates;
use captures::{Carried, Packet};
use diagnosis_parts::{Heading, Party, heading_of};
use findings::Finding;
use ladder::Kind;
use ladder_labels::{DatagramLabel, FrameLabel, kind_of_datagram, kind_of_frame};
use mstp_frame::Frame;
use packet_choice::{Choosing, Chosen, Ends, Excerpt, Failure, Taker, ends_of};
use std::alloc::{AllocError, Allocator};

/// A packet that a finding names.
#[derive(Drop)]
pub(crate) struct Seen<A: Allocator> {
    pub(crate) number: u64,
    /// How many microseconds after the first packet it came.
    pub(crate) since: u64,
    /// Who sent it, where that is read.
    pub(crate) sender: Option<Party>,
    /// Whom it is for, where that is one station.
    pub(crate) receiver: Option<Party>,
    pub(crate) kind: Kind,
    pub(crate) label: String<A>,
}

/// What is gathered.
#[derive(Drop)]
pub(crate) struct Gathering<'c, A: Allocator> {
    alloc: A,
    choosing: Choosing<'c>,
    /// When the first packet of the time that is asked for was captured, in microseconds.
    began: Option<u64>,
    /// When the last one was.
    moment: u64,
    /// The numbers of the packets that findings name, in their order.
    wanted: Vec<u64, A>,
    pub(crate) requests: Rates<A>,
    pub(crate) broadcasts: Rates<A>,
    pub(crate) seen: Vec<Seen<A>, A>,
}

impl<'c, A: Allocator + Copy> Gathering<'c, A> {
    /// Nothing yet, of a capture of so many microseconds with these findings.
    pub(crate) fn new(
        alloc: A,
        excerpt: Excerpt<'c>,
        duration: u64,
        findings: &[Finding],
    ) -> Result<Gathering<'c, A>, AllocError> {
        Ok(Gathering {
            alloc,
            choosing: Choosing::new(excerpt),
            began: None,
            moment: 0,
            wanted: wanted_of(alloc, findings)?,
            requests: Rates::new(alloc, duration)?,
            broadcasts: Rates::new(alloc, duration)?,
            seen: Vec::new(alloc),
        })
    }

    /// When the first packet was captured.
    pub(crate) fn began(&self) -> u64 {
        self.began.unwrap_or(0)
    }

    /// The packet of this number, if a finding names it.
    pub(crate) fn packet(&self, number: u64) -> Option<&Seen<A>> {
        for seen in &self.seen {
            if seen.number == number {
                return Some(seen);
            }
        }
        None
    }

    /// How many microseconds after the first packet this one came.
    fn since(&mut self, packet: &Packet<'_>, chosen: Chosen) -> u64 {
        if let (Some(moment), Chosen::Asked | Chosen::Beside) = (packet.microseconds, chosen) {
            self.began = Some(self.began.unwrap_or(moment));
            self.moment = moment;
        }
        self.moment.saturating_sub(self.began())
    }

    /// Counts a packet.
    fn count(&mut self, since: u64, ends: Ends<'_>) {
        if ends.receiver.is_none() {
            self.broadcasts.count(since);
        }
        if ends.apdu.is_some_and(is_request) {
            self.requests.count(since);
        }
    }

    /// Keeps a packet that a finding names.
    fn keep(
        &mut self,
        packet: &Packet<'_>,
        since: u64,
        ends: Option<Ends<'_>>,
    ) -> Result<(), AllocError> {
        let (kind, label) = label_of(self.alloc, packet)?;
        let seen = Seen {
            number: packet.number,
            since,
            sender: ends.map(|ends| ends.sender),
            receiver: ends.and_then(|ends| ends.receiver),
            kind,
            label,
        };
        self.seen.push(seen)?;
        Ok(())
    }
}

impl<A: Allocator + Copy> Taker for Gathering<'_, A> {
    fn take(&mut self, packet: &Packet<'_>) -> Result<(), Failure> {
        let chosen = self.choosing.choose(packet);
        let since = self.since(packet, chosen);
        let ends = ends_of(packet);
        if let (Chosen::Asked, Some(ends)) = (chosen, ends) {
            self.count(since, ends);
        }
        if self.wanted.as_slice().binary_search(&packet.number).is_ok() {
            self.keep(packet, since, ends)?;
        }
        Ok(())
    }
}

/// The numbers of the packets that findings name, in their order.
fn wanted_of<A: Allocator>(alloc: A, findings: &[Finding]) -> Result<Vec<u64, A>, AllocError> {
    let mut wanted = Vec::new(alloc);
    for finding in findings {
        let packets = finding.packets;
        let numbers = [packets.first, packets.second, packets.third, packets.fourth];
        wanted.extend_from_slice(&numbers)?;
    }
    wanted.sort()?;
    Ok(wanted)
}

/// Whether an APDU is a request that is to be answered, or the first segment of one (20.1.2).
fn is_request(apdu: &[u8]) -> bool {
    match heading_of(apdu) {
        Ok(Heading::Request { segment, .. }) => match segment {
            Some(segment) => segment.sequence_number == 0,
            None => true,
        },
        Ok(_) | Err(_) => false,
    }
}

/// What a packet is, and its label.
fn label_of<A: Allocator>(alloc: A, packet: &Packet<'_>) -> Result<(Kind, String<A>), AllocError> {
    match packet.carried {
        Carried::Datagram(datagram) => {
            let label = format!(in alloc; "{}", DatagramLabel(datagram.octets))?;
            Ok((kind_of_datagram(datagram.octets), label))
        }
        Carried::Frame(octets) => match Frame::read(octets) {
            Some(frame) => {
                let label = format!(in alloc; "{}", FrameLabel(frame))?;
                Ok((kind_of_frame(frame), label))
            }
            None => Ok((Kind::Other, String::from_str(alloc, "no frame")?)),
        },
        Carried::Other(cause) => Ok((Kind::Other, format!(in alloc; "{cause}")?)),
    }
}
