//! The requests of a run, and which messages belong to each (5.4).

use crate::gathering::PutFrame;
use ladder_labels::{Call, SegmentOf, Side};
use std::alloc::{AllocError, Allocator};
use traffic::Item;

/// Where a message stands: its place among the datagrams, or among the frames that are shown.
#[derive(Clone, Copy, Debug, PartialEq, Eq)]
pub(crate) enum Source {
    Datagram(usize),
    Frame(usize),
}

/// A message of a request, and the place of the station that sent it.
#[derive(Clone, Copy)]
struct Sent {
    sender: usize,
    source: Source,
}

/// A request that a client issued.
#[derive(Drop)]
struct Request<A: Allocator> {
    /// The places of the client and of the device.
    client: Option<usize>,
    device: Option<usize>,
    /// Its invoke ID, once the client has sent it.
    invoke_id: Option<u8>,
    /// How many segments its request and its answer have, once the last was sent.
    request_segments: Option<u64>,
    answer_segments: Option<u64>,
    sent: Vec<Sent, A>,
}

/// How many requests before the last one a message that comes late may belong to.
const RECENT: usize = 1000;

/// All requests, by their numbers.
#[derive(Drop)]
pub(crate) struct Requests<A: Allocator> {
    alloc: A,
    all: Vec<Request<A>, A>,
    /// The places of those that aren't over, the oldest first.
    open: Vec<usize, A>,
}

impl<A: Allocator + Copy> Requests<A> {
    pub(crate) fn new(alloc: A) -> Self {
        Requests {
            alloc,
            all: Vec::new(alloc),
            open: Vec::new(alloc),
        }
    }

    /// Adds the next request.
    pub(crate) fn issue(
        &mut self,
        client: Option<usize>,
        device: Option<usize>,
    ) -> Result<(), AllocError> {
        self.open.push(self.all.len())?;
        self.all.push(Request {
            client,
            device,
            invoke_id: None,
            request_segments: None,
            answer_segments: None,
            sent: Vec::new(self.alloc),
        })?;
        Ok(())
    }

    /// The place of the client of a request.
    pub(crate) fn client(&self, number: u64) -> Option<usize> {
        self.all.get(number as usize)?.client
    }

    /// The place of the device of a request.
    pub(crate) fn device(&self, number: u64) -> Option<usize> {
        self.all.get(number as usize)?.device
    }

    /// Marks that a request was answered, or ended.
    pub(crate) fn end(&mut self, number: u64) {
        let place = number as usize;
        self.open.retain(|open| *open != place);
    }

    /// The number of the request that a message belongs to, which a station of a client and a device say to one
    /// another. What the client itself sends under an invoke ID that no other of its requests has is the oldest that it
    /// hasn't sent yet.
    pub(crate) fn number_of(
        &mut self,
        call: Call,
        client: usize,
        device: usize,
        sender: usize,
    ) -> Option<u64> {
        let invoke_id = Some(call.invoke_id);
        if let Some(place) = self.open_one(client, device, invoke_id) {
            return Some(place as u64);
        }
        if call.is_request && sender == client {
            if let Some(place) = self.open_one(client, device, None) {
                if place < self.all.len() {
                    self.all[place].invoke_id = invoke_id;
                }
                return Some(place as u64);
            }
        }
        self.late_one(client, device, invoke_id)
    }

    /// The place of the oldest request of a client to a device that isn't over, with an invoke ID, or not sent yet.
    fn open_one(&self, client: usize, device: usize, invoke_id: Option<u8>) -> Option<usize> {
        for place in &self.open {
            if let Some(request) = self.all.get(*place) {
                if request.is_of(client, device, invoke_id) {
                    return Some(*place);
                }
            }
        }
        None
    }

    /// The number of the last request of a client to a device with an invoke ID, among the last ones.
    fn late_one(&self, client: usize, device: usize, invoke_id: Option<u8>) -> Option<u64> {
        let first = self.all.len().saturating_sub(RECENT);
        let mut found = None;
        let mut number = first as u64;
        for request in self.all.get(first..)? {
            if request.is_of(client, device, invoke_id) {
                found = Some(number);
            }
            number = number.saturating_add(1);
        }
        found
    }

    /// Adds a message of a request, maybe a segment, and answers how often its sender sent the same before.
    pub(crate) fn send(
        &mut self,
        number: u64,
        sender: usize,
        source: Source,
        part: Option<SegmentOf>,
        sources: Sources<'_, A>,
    ) -> Result<u64, AllocError> {
        let place = number as usize;
        if self.all.len() <= place {
            return Ok(0);
        }
        let request = &mut self.all[place];
        if let Some(part) = part {
            request.count(part);
        }
        let before = sources.count(request.sent.as_slice(), sender, source);
        request.sent.push(Sent { sender, source })?;
        Ok(before)
    }

    /// How many segments a message of a request has, where that is known.
    pub(crate) fn segments(&self, request: Option<u64>, side: Side) -> Option<u64> {
        let request = self.all.get(request? as usize)?;
        match side {
            Side::Request => request.request_segments,
            Side::Answer => request.answer_segments,
        }
    }
}

impl<A: Allocator> Request<A> {
    /// Whether it is of a client to a device, and has an invoke ID, or was not sent yet.
    fn is_of(&self, client: usize, device: usize, invoke_id: Option<u8>) -> bool {
        self.client == Some(client) && self.device == Some(device) && self.invoke_id == invoke_id
    }

    /// Takes the number of segments from the last one.
    fn count(&mut self, part: SegmentOf) {
        if part.is_last {
            let count = Some(u64::from(part.sequence_number).saturating_add(1));
            match part.of {
                Side::Request => self.request_segments = count,
                Side::Answer => self.answer_segments = count,
            }
        }
    }
}

/// What all messages of a run are looked up in.
#[derive(Clone, Copy)]
pub(crate) struct Sources<'a, A: Allocator> {
    pub(crate) items: &'a [Item<A>],
    pub(crate) frames: &'a [PutFrame<A>],
}

impl<A: Allocator> Sources<'_, A> {
    /// How many of some messages a station sent with the octets of another.
    fn count(self, sent: &[Sent], sender: usize, source: Source) -> u64 {
        let mut count = 0u64;
        for before in sent {
            if before.sender == sender && self.octets(before.source) == self.octets(source) {
                count = count.saturating_add(1);
            }
        }
        count
    }

    /// The octets of a message.
    fn octets(&self, source: Source) -> &[u8] {
        match source {
            Source::Datagram(place) => match self.items.get(place) {
                Some(item) => item.octets.as_slice(),
                None => &[],
            },
            Source::Frame(place) => match self.frames.get(place) {
                Some(frame) => frame.octets.as_slice(),
                None => &[],
            },
        }
    }
}
