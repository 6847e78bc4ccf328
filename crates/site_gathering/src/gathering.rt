//! What happens in a run, row after row: what is received, the entries of the history, refusals, and what is sent.

ghost use Rattle.site_steps.specs.site_run.simulator.world.Step.{IsSoundEvent};

use crate::hearing::{Heard, heard_by};
use crate::part::Part;
use crate::places::{place_at, place_of_event, place_of_instance};
use crate::requests::{Requests, Source, Sources};
use history::Entry;
use ladder::{Anchor, Arrow, Kind, Mark, Note, Reach, Repeat, Row};
use ladder_labels::{Call, SegmentOf};
use site_parts::Station;
use site_steps::{EntryLine, Event, Spelling, World, WorldEntry};
use std::alloc::{AllocError, Allocator};
use tags::{Fault, Octets};

/// What a message is, wherever it is seen.
#[derive(Clone, Copy)]
pub struct Facts {
    /// The place of the station that sent it.
    pub from: usize,
    pub reach: Reach,
    /// The number of the request that it belongs to.
    pub request: Option<u64>,
    pub part: Option<SegmentOf>,
    /// How often its sender sent the same before.
    pub retries: u64,
}

impl Facts {
    /// Whether it was sent before.
    fn repeat(self) -> Repeat {
        match self.retries {
            0 => Repeat::None,
            retries => Repeat::Retry(retries),
        }
    }
}

/// A datagram that was sent.
#[derive(Clone, Copy)]
pub struct Datagram {
    /// The place of the first datagram of the same broadcast, or its own.
    pub first: usize,
    /// The place of the station that it goes to.
    pub to: Option<usize>,
    pub facts: Option<Facts>,
    /// Of the first: the place of the last row in which it is sent or received.
    pub(crate) row: Option<usize>,
    pub is_received: bool,
    /// Whether the part that is shown tells of it.
    pub is_told: bool,
}

/// A frame that was sent, and is no token.
#[derive(Drop)]
pub struct PutFrame<A: Allocator> {
    /// Its number among all frames, from 0.
    pub number: u64,
    /// The number of the network of its bus.
    pub network: u16,
    /// The whole frame.
    pub octets: Octets<A>,
    /// The moment at which it was sent, in milliseconds.
    pub moment: u64,
    pub facts: Option<Facts>,
    /// The place of the last row in which it is received.
    pub(crate) row: Option<usize>,
    /// Whether a station that it is for received it.
    pub is_heard: bool,
    /// Whether the part that is shown tells of it.
    pub is_told: bool,
}

/// A device that restarted, at a moment in milliseconds.
#[derive(Clone, Copy)]
pub struct Restart {
    pub station: usize,
    pub moment: u64,
}

/// A message where it is sent or received.
#[derive(Clone, Copy)]
pub(crate) struct Sight {
    pub(crate) moment: u64,
    pub(crate) source: Source,
    pub(crate) facts: Facts,
    pub(crate) to: Option<usize>,
    pub(crate) is_heard: bool,
    /// Whether it was received before by the same station.
    pub(crate) is_again: bool,
}

/// What was gathered of a run up to now.
#[derive(Drop)]
pub struct Gathering<'p, A: Allocator + Copy> {
    pub alloc: A,
    pub part: Part<'p>,
    /// Of each station whether the part is of it, where it is of some.
    pub only: Option<Vec<bool, A>>,
    /// The rows of the part. A message stands there where it is sent, and where it is received.
    pub(crate) rows: Vec<Row<A>, A>,
    pub datagrams: Vec<Datagram, A>,
    /// What was sent on buses, without tokens.
    pub frames: Vec<PutFrame<A>, A>,
    pub(crate) requests: Requests<A>,
    pub restarts: Vec<Restart, A>,
}

impl<'p, A: Allocator + Copy> Gathering<'p, A> {
    /// What is gathered before anything happens.
    pub fn new(alloc: A, part: Part<'p>) -> Self {
        Gathering {
            alloc,
            part,
            only: None,
            rows: Vec::new(alloc),
            datagrams: Vec::new(alloc),
            frames: Vec::new(alloc),
            requests: Requests::new(alloc),
            restarts: Vec::new(alloc),
        }
    }

    /// Makes an event, and gathers what comes of it.
    pub fn make(&mut self, world: &mut World<A>, event: &Event<A>) -> Result<(), Fault>
        requires sound { IsSoundEvent event.now }
    {
        let items = world.items().len();
        let frames = world.buses().frames;
        let entries = world.history().len();
        let heard = heard_by(self.alloc, world, event)?;
        match world.step(event) {
            Ok(()) => {
                self.put_heard(world, event, heard)?;
                self.put_entries(world, entries)?;
                self.put_out(world, items, frames)?;
                Ok(())
            }
            Err(Fault::Memory) => Err(Fault::Memory),
            Err(fault) => {
                let station = place_of_event(event, world.items(), world.site().stations());
                self.put_refusal(world, station, fault)?;
                Ok(())
            }
        }
    }

    /// Puts down what an event let someone receive: a datagram, or frames.
    fn put_heard(
        &mut self,
        world: &World<A>,
        event: &Event<A>,
        heard: Vec<Heard<A>, A>,
    ) -> Result<(), AllocError> {
        if let Event::Deliver(number) = event {
            self.put_delivery(world, *number as usize)?;
        }
        for heard in heard {
            self.put_frame(world, &heard)?;
        }
        Ok(())
    }

    /// What a message is that a station sends.
    pub(crate) fn facts(
        &mut self,
        world: &World<A>,
        from: usize,
        reach: Reach,
        call: Option<Call>,
        source: Source,
    ) -> Result<Facts, AllocError> {
        let mut facts = Facts {
            from,
            reach,
            request: None,
            part: None,
            retries: 0,
        };
        let Some(call) = call else {
            return Ok(facts);
        };
        facts.part = call.part;
        let stations = world.site().stations();
        let client = place_at(call.client, stations);
        let device = place_at(call.device, stations);
        if let (Some(client), Some(device)) = (client, device) {
            facts.request = self.requests.number_of(call, client, device, from);
        }
        if let Some(number) = facts.request {
            let sources = Sources {
                items: world.items(),
                frames: self.frames.as_slice(),
            };
            let sent = self
                .requests
                .send(number, from, source, call.part, sources)?;
            facts.retries = sent;
        }
        Ok(facts)
    }

    /// Puts down a message where it is sent or received, and answers the place of its row.
    pub(crate) fn put_sight(
        &mut self,
        sight: Sight,
        kind: Kind,
        label: String<A>,
    ) -> Result<usize, AllocError> {
        let mut to = Vec::new(self.alloc);
        if let Some(place) = sight.to {
            to.push(place)?;
        }
        let repeat = if sight.is_again {
            Repeat::Delivery
        } else {
            sight.facts.repeat()
        };
        let row = self.rows.len();
        let arrow = Arrow {
            from: sight.facts.from,
            more: 0,
            reach: sight.facts.reach,
            to,
            is_heard: sight.is_heard,
            kind,
            label,
            segment: None,
            repeat,
            request: sight.facts.request,
            anchor: anchor_of(sight.source),
        };
        self.put_row(sight.moment, Mark::Arrow(arrow))?;
        Ok(row)
    }

    /// Adds a station to the row of a broadcast in which another receives it at the same moment, or to the one where it
    /// is sent; answers whether there is one.
    pub(crate) fn join(&mut self, row: Option<usize>, sight: Sight) -> Result<bool, AllocError> {
        let Some(row) = row else {
            return Ok(false);
        };
        let is_single = sight.facts.reach == Reach::One || sight.is_again;
        if is_single || self.rows.len() <= row || self.rows[row].moment != sight.moment {
            return Ok(false);
        }
        if let Mark::Arrow(arrow) = &mut self.rows[row].mark {
            if arrow.is_heard == sight.is_heard {
                if let Some(place) = sight.to {
                    arrow.to.push(place)?;
                }
                return Ok(true);
            }
        }
        Ok(false)
    }

    /// Puts down the entries of the history behind so many.
    fn put_entries(&mut self, world: &World<A>, before: usize) -> Result<(), AllocError> {
        let Some(entries) = world.history().get(before..) else {
            return Ok(());
        };
        for entry in entries {
            self.put_entry(world, entry)?;
        }
        Ok(())
    }

    /// Puts down an entry of the history at its station.
    fn put_entry<'x>(
        &mut self,
        world: &'x World<A>,
        entry: &'x WorldEntry<A>,
    ) -> Result<(), AllocError> {
        let stations = world.site().stations();
        let station = self.station_of_entry(stations, entry)?;
        let moment = world.moment();
        if !self.part.has(moment) {
            return Ok(());
        }
        let shown = EntryLine {
            entry,
            history: world.history(),
            stations,
            spelling: Spelling::Names,
        };
        let line = format!(in self.alloc; "{shown}")?;
        let (_, text) = line.split_once(' ').unwrap_or(("", line.as_str()));
        let text = String::from_str(self.alloc, text)?;
        let note = Note {
            station,
            text,
            request: request_of(entry),
        };
        self.put_row(moment, Mark::Note(note))
    }

    /// The place of the station that an entry tells of. It remembers who issued what, and who restarted.
    fn station_of_entry(
        &mut self,
        stations: &[Station<A>],
        entry: &WorldEntry<A>,
    ) -> Result<Option<usize>, AllocError> {
        match entry {
            Entry::Issue {
                client,
                instance,
                ..
            } => {
                let client = place_at(*client, stations);
                let device = place_of_instance(*instance, stations);
                self.requests.issue(client, device)?;
                Ok(client)
            }
            Entry::Executed { number, .. } => Ok(self.requests.device(*number)),
            Entry::Answered { number, .. } | Entry::Ended { number, .. } => {
                self.requests.end(*number);
                Ok(self.requests.client(*number))
            }
            Entry::Restarted { instance, moment } => {
                let station = place_of_instance(*instance, stations);
                if let Some(station) = station {
                    let moment = *moment;
                    self.restarts.push(Restart { station, moment })?;
                }
                Ok(station)
            }
        }
    }

    /// Puts down a refusal at a station, or at none.
    pub fn put_refusal(
        &mut self,
        world: &World<A>,
        station: Option<usize>,
        fault: Fault,
    ) -> Result<(), AllocError> {
        let moment = world.moment();
        if !self.part.has(moment) {
            return Ok(());
        }
        let text = format!(in self.alloc; "refused {} {fault}", u8::from(fault))?;
        let note = Note {
            station,
            text,
            request: None,
        };
        self.put_row(moment, Mark::Note(note))
    }

    /// Puts down a row.
    fn put_row(&mut self, moment: u64, mark: Mark<A>) -> Result<(), AllocError> {
        self.rows.push(Row { moment, mark })?;
        Ok(())
    }
}

/// The place of a message in a page.
fn anchor_of(source: Source) -> Anchor {
    match source {
        Source::Datagram(place) => Anchor::Datagram(place as u64),
        Source::Frame(place) => Anchor::Frame(place as u64),
    }
}

/// The number of the request that an entry tells of.
fn request_of<A: Allocator>(entry: &WorldEntry<A>) -> Option<u64> {
    match entry {
        Entry::Issue { number, .. }
        | Entry::Executed { number, .. }
        | Entry::Answered { number, .. }
        | Entry::Ended { number, .. } => Some(*number),
        Entry::Restarted { .. } => None,
    }
}
