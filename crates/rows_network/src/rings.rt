//! What nodes on a bus of MS/TP put out that hear each other: `1 2: until 510; until 512 -> 510 1 55FF0102010000F5; 511
//! 2 55FF02010200004F, 512 1 55FF000201000073`, the nodes at the addresses 1 and 2 of network 2, made at 0. What is put
//! out is heard by all others at the next millisecond, behind its octets; then each node is ticked, in order.
//!
//! - `until 512`: to that moment; told is each frame with its moment and sender, and what is handed up.
//! - `count until 512`: told is how many frames there were.
//! - `down 1 > 2 OCTETS`: is handed down to the node of its sender, said now.
//! - `damage`: of what is on its way the octets are heard, and no frame.
//!
//! Each row is run with each allocation refused in turn.

use crate::addresses::{from_and_to, push_mac};
use crate::ports::{At, Call, Came, make, push_parcel};
use link::{Link, PortSent};
use link_bus::BusPort;
use npdu::Mac;
use sheets::{
    Counts, Given, Part, Stop, Trial, octets, push_mark, push_octets, small, try_row, two_words,
};
use std::alloc::{AllocError, Allocator, Global};
use tags::{Fault, Octets};
use words::parse_number;

/// A frame that is on its way.
#[derive(Drop)]
struct OnWay {
    /// The place of its sender among the nodes.
    sender: usize,
    octets: Octets<Global>,
    stamp: u64,
    is_whole: bool,
}

/// Nodes on a bus, what is on its way, and what is told.
#[derive(Drop)]
struct Ring<A: Allocator + Copy> {
    alloc: Global,
    other: A,
    ports: Vec<BusPort<A>>,
    on_way: Vec<OnWay>,
    now: u64,
    told: String,
    frames: u64,
}

/// Nodes in words, and the steps that are made, one after another.
#[derive(Drop)]
struct Asked<'r, A: Allocator + Copy> {
    memory: A,
    other: A,
    nodes: &'r str,
    steps: &'r str,
}

impl<'r, 'a, A: Allocator + Copy> Trial<'a> for Asked<'r, A> {
    fn answer(&self, given: Given<'a>, _octets: &[u8]) -> Result<String, Stop> {
        let mut ring = ring_of(given.alloc, self.memory, self.other, self.nodes)?;
        let mut all = String::new(given.alloc);
        for words in self.steps.split("; ") {
            if let Some(text) = ring.step(words)? {
                push_mark("; ", &mut all)?;
                all.push_str(text.as_str())?;
            }
        }
        Ok(all)
    }
}

/// Runs a row.
pub(crate) fn run(given: Given<'_>, asked: &str, wanted: &str) -> Result<Counts, Stop> {
    let Some((nodes, steps)) = asked.split_once(": ") else {
        return Err(Stop::Unread(Part::Asked));
    };
    let asked = Asked {
        memory: given.memory,
        other: given.other,
        nodes,
        steps,
    };
    try_row(given, &asked, &[], wanted)
}

/// The nodes at these addresses, made at 0.
fn ring_of<A: Allocator + Copy>(
    alloc: Global,
    memory: A,
    other: A,
    words: &str,
) -> Result<Ring<A>, Stop> {
    let mut ports = Vec::new(alloc);
    for word in words.split(' ') {
        ports.push(BusPort::new(memory, 2, small(word)?, 0))?;
    }
    Ok(Ring {
        alloc,
        other,
        ports,
        on_way: Vec::new(alloc),
        now: 0,
        told: String::new(alloc),
        frames: 0,
    })
}

impl<A: Allocator + Copy> Ring<A> {
    /// Makes a step, and answers what is told of it.
    fn step(&mut self, words: &str) -> Result<Option<String>, Stop> {
        let (verb, rest) = two_words(words);
        match verb {
            "until" => {
                self.run_until(parse_number(rest)?)?;
                Ok(Some(self.all_told()?))
            }
            "count" => {
                let (_, until) = two_words(rest);
                self.run_until(parse_number(until)?)?;
                self.all_told()?;
                Ok(Some(format!(in self.alloc; "{} frames", self.frames)?))
            }
            "down" => {
                self.hand_down(rest)?;
                Ok(None)
            }
            "damage" => {
                self.damage();
                Ok(None)
            }
            _ => Err(Stop::Unread(Part::Asked)),
        }
    }

    /// What was told since the last time, `-` for nothing.
    fn all_told(&mut self) -> Result<String, AllocError> {
        let mut told = String::new(self.alloc);
        told.push_str(self.told.as_str())?;
        self.told = String::new(self.alloc);
        if told.is_empty() {
            told.push('-')?;
        }
        Ok(told)
    }

    /// What is on its way is damaged.
    fn damage(&mut self) {
        for place in 0..self.on_way.len() {
            self.on_way[place].is_whole = false;
        }
    }

    /// A parcel is handed down to the node of its sender.
    fn hand_down(&mut self, words: &str) -> Result<(), Stop> {
        let (from, to, digits) = from_and_to(words)?;
        let octets = octets(self.alloc, digits)?;
        let mac = Some(from);
        let found = self
            .ports
            .as_slice()
            .iter()
            .position(|port| Some(port.station().mac) == mac);
        let Some(place) = found else {
            return Err(Stop::Unread(Part::Asked));
        };
        self.make(place, Call::Down { from, to }, octets.as_slice(), self.now)
    }

    /// Lets each millisecond pass to a moment.
    fn run_until(&mut self, until: u64) -> Result<(), Stop> {
        self.frames = 0;
        for now in self.now.saturating_add(1)..until.saturating_add(1) {
            self.now = now;
            let on_way = std::mem::replace(&mut self.on_way, Vec::new(self.alloc));
            for frame in &on_way {
                self.hear(frame)?;
            }
            for place in 0..self.ports.len() {
                self.make(place, Call::Tick, &[], now)?;
            }
        }
        Ok(())
    }

    /// All nodes but its sender hear a frame.
    fn hear(&mut self, frame: &OnWay) -> Result<(), Stop> {
        let from = match self.ports.get(frame.sender) {
            Some(port) => port.station().mac,
            None => return Err(Stop::Unread(Part::Asked)),
        };
        for place in 0..self.ports.len() {
            if place != frame.sender {
                let octets = frame.octets.as_slice();
                self.make(place, Call::Octets(octets.len()), &[], self.now)?;
                if frame.is_whole {
                    self.make(place, Call::Heard { from }, octets, frame.stamp)?;
                }
            }
        }
        Ok(())
    }

    /// Makes a call of the node at a place: what it puts out is on its way, and it and what is handed up are told.
    fn make(&mut self, place: usize, call: Call, octets: &[u8], stamp: u64) -> Result<(), Stop> {
        let at = At {
            now: self.now,
            stamp,
        };
        let Some(port) = self.ports.get_mut(place) else {
            return Err(Stop::Unread(Part::Asked));
        };
        let mac = port.station().mac;
        match make(self.other, port, call, octets, at)? {
            Ok(came) => self.tell(place, mac, &came),
            Err(Fault::Memory) => Err(Stop::Memory),
            Err(_) => Err(Stop::Unread(Part::Asked)),
        }
    }

    /// What a node puts out is on its way, and it and what is handed up are told.
    fn tell(&mut self, place: usize, mac: Mac, came: &Came<A>) -> Result<(), Stop> {
        if let Some(parcel) = &came.up {
            push_mark(", ", &mut self.told)?;
            write!(self.told, "{} up ", self.now)?;
            push_parcel(parcel, &mut self.told)?;
        }
        for PortSent { sent, .. } in came.out.as_slice() {
            push_mark(", ", &mut self.told)?;
            write!(self.told, "{} ", self.now)?;
            push_mac(mac, &mut self.told)?;
            self.told.push(' ')?;
            push_octets(sent.octets.as_slice(), &mut self.told)?;
            self.on_way.push(OnWay {
                sender: place,
                octets: Octets::from_slice(self.alloc, sent.octets.as_slice())?,
                stamp: sent.stamp,
                is_whole: true,
            })?;
            self.frames = self.frames.saturating_add(1);
        }
        Ok(())
    }
}
