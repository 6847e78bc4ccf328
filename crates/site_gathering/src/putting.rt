//! What an event sends, and what one lets stations receive, each message in a row. The rows of what is sent go away at
//! the end where it is received in the run.

use crate::gathering::{Datagram, Gathering, PutFrame, Sight};
use crate::hearing::{Heard, is_shown, mark_heard};
use crate::places::{place_on_bus, receiver_of, sender_of};
use crate::requests::Source;
use bus_traffic::{Bus, Recent};
use ladder::Reach;
use ladder_labels::{
    DatagramLabel, FrameLabel, call_in, is_broadcast, kind_of_datagram, kind_of_frame,
    npdu_in_datagram, npdu_in_frame,
};
use mstp_frame::Frame;
use npdu::Mac;
use site_steps::World;
use std::alloc::{AllocError, Allocator};
use traffic::Item;

/// The address that stands for all nodes of a bus (9.1.2).
const ALL_NODES: u8 = 255;

impl<A: Allocator + Copy> Gathering<'_, A> {
    /// Puts down what was sent behind so many datagrams and frames.
    pub(crate) fn put_out(
        &mut self,
        world: &World<A>,
        items: usize,
        frames: u64,
    ) -> Result<(), AllocError> {
        if let Some(sent) = world.items().get(items..) {
            self.put_items(world, items, sent)?;
        }
        for bus in &world.buses().buses {
            self.put_bus(world, bus, frames)?;
        }
        Ok(())
    }

    /// Puts down datagrams that an event sends, of which the first has a number.
    fn put_items(
        &mut self,
        world: &World<A>,
        start: usize,
        items: &[Item<A>],
    ) -> Result<(), AllocError> {
        for item in items {
            self.put_item(world, start, item)?;
        }
        Ok(())
    }

    /// Puts down a datagram, in the row of the broadcast that it carries with others.
    fn put_item(
        &mut self,
        world: &World<A>,
        start: usize,
        item: &Item<A>,
    ) -> Result<(), AllocError> {
        let stations = world.site().stations();
        let number = self.datagrams.len();
        let to = receiver_of(item, stations);
        let mut datagram = Datagram {
            first: number,
            to,
            facts: None,
            row: None,
            is_received: false,
            is_told: false,
        };
        if let Some(first) = self.same_broadcast(world.items(), start, item) {
            datagram.first = first;
            self.datagrams.push(datagram)?;
            let _ = self.put_datagram(number, first, item, item.put_out, false, false)?;
            return Ok(());
        }
        let octets = item.octets.as_slice();
        if let Some(from) = sender_of(item, stations) {
            let reach = if is_broadcast(octets) {
                Reach::All
            } else {
                Reach::One
            };
            let call = match npdu_in_datagram(octets) {
                Some(npdu) => call_in(npdu, item.net, item.from, item.to),
                None => None,
            };
            let source = Source::Datagram(number);
            datagram.facts = Some(self.facts(world, from, reach, call, source)?);
        }
        self.datagrams.push(datagram)?;
        let row = self.put_datagram(number, number, item, item.put_out, false, false)?;
        if number < self.datagrams.len() {
            self.datagrams[number].row = row;
        }
        Ok(())
    }

    /// The place of the first datagram of the broadcast that a datagram carries, of those of the same event: the one
    /// sent before it has the same octets, and comes from the same station.
    fn same_broadcast(&self, items: &[Item<A>], start: usize, item: &Item<A>) -> Option<usize> {
        let number = self.datagrams.len();
        if number <= start || !is_broadcast(item.octets.as_slice()) {
            return None;
        }
        let first = self.datagrams.get(number - 1)?.first;
        let before = items.get(first)?;
        let is_same = before.net == item.net
            && before.from == item.from
            && before.to != item.to
            && before.octets.as_slice() == item.octets.as_slice();
        if is_same { Some(first) } else { None }
    }

    /// Puts down a datagram where it is sent or received, at a moment of the part, and answers its row.
    fn put_datagram(
        &mut self,
        number: usize,
        first: usize,
        item: &Item<A>,
        moment: u64,
        is_heard: bool,
        is_again: bool,
    ) -> Result<Option<usize>, AllocError> {
        if !self.part.has(moment)
            || self.datagrams.len() <= first
            || self.datagrams.len() <= number
        {
            return Ok(None);
        }
        let Some(facts) = self.datagrams[first].facts else {
            return Ok(None);
        };
        let before = self.datagrams[first].row;
        let sight = Sight {
            moment,
            source: Source::Datagram(first),
            facts,
            to: self.datagrams[number].to,
            is_heard,
            is_again,
        };
        if self.join(before, sight)? {
            return Ok(before);
        }
        let octets = item.octets.as_slice();
        let label = format!(in self.alloc; "{}", DatagramLabel(octets))?;
        let row = self.put_sight(sight, kind_of_datagram(octets), label)?;
        Ok(Some(row))
    }

    /// Puts down the delivery of the datagram of a number.
    pub(crate) fn put_delivery(
        &mut self,
        world: &World<A>,
        number: usize,
    ) -> Result<(), AllocError> {
        let Some(item) = world.items().get(number) else {
            return Ok(());
        };
        if self.datagrams.len() <= number {
            return Ok(());
        }
        let Datagram {
            first,
            is_received,
            ..
        } = self.datagrams[number];
        self.datagrams[number].is_received = true;
        let row = self.put_datagram(number, first, item, world.moment(), true, is_received)?;
        if !is_received && row.is_some() && first < self.datagrams.len() {
            self.datagrams[first].row = row;
        }
        Ok(())
    }

    /// Puts down the frames that are sent on a bus behind so many.
    fn put_bus(&mut self, world: &World<A>, bus: &Bus<A>, before: u64) -> Result<(), AllocError> {
        for held in &bus.recent {
            let recent = held.recent();
            if recent.sending.place.frames >= before {
                self.put_sending(world, bus.net, recent)?;
            }
        }
        Ok(())
    }

    /// Puts down a frame that is sent, unless it is a token.
    fn put_sending(
        &mut self,
        world: &World<A>,
        network: u16,
        recent: &Recent<A>,
    ) -> Result<(), AllocError> {
        let sending = &recent.sending;
        let Some(frame) = Frame::read(sending.octets.as_slice()) else {
            return Ok(());
        };
        if !is_shown(frame) {
            return Ok(());
        }
        let place = self.frames.len();
        self.frames.push(PutFrame {
            number: sending.place.frames,
            network,
            octets: sending.octets.copy(self.alloc)?,
            moment: world.moment(),
            facts: None,
            row: None,
            is_heard: false,
            is_told: false,
        })?;
        if let Some(from) = place_on_bus(network, frame.source, world.site().stations()) {
            self.put_facts(world, place, from, frame)?;
        }
        let _ = self.put_told_frame(world, place, frame, frame.destination, false, false)?;
        Ok(())
    }

    /// Notes what a frame is.
    fn put_facts(
        &mut self,
        world: &World<A>,
        place: usize,
        from: usize,
        frame: Frame<'_>,
    ) -> Result<(), AllocError> {
        if self.frames.len() <= place {
            return Ok(());
        }
        let network = self.frames[place].network;
        let reach = if frame.destination == ALL_NODES {
            Reach::All
        } else {
            Reach::One
        };
        let call = match npdu_in_frame(frame) {
            Some(npdu) => call_in(
                npdu,
                network,
                Mac::One(frame.source),
                Mac::One(frame.destination),
            ),
            None => None,
        };
        let facts = self.facts(world, from, reach, call, Source::Frame(place))?;
        if place < self.frames.len() {
            self.frames[place].facts = Some(facts);
        }
        Ok(())
    }

    /// Puts down that a frame is received.
    pub(crate) fn put_frame(
        &mut self,
        world: &World<A>,
        heard: &Heard<A>,
    ) -> Result<(), AllocError> {
        let Some(found) = mark_heard(&mut self.frames, heard) else {
            return Ok(());
        };
        let Some(frame) = Frame::read(heard.octets.as_slice()) else {
            return Ok(());
        };
        let is_again = heard.number.is_none();
        let row = self.put_told_frame(world, found, frame, heard.mac, true, is_again)?;
        if !is_again && row.is_some() && found < self.frames.len() {
            self.frames[found].row = row;
        }
        Ok(())
    }

    /// Puts down a frame where it is sent or received, at a moment of the part, and answers its row.
    fn put_told_frame(
        &mut self,
        world: &World<A>,
        place: usize,
        frame: Frame<'_>,
        to: u8,
        is_heard: bool,
        is_again: bool,
    ) -> Result<Option<usize>, AllocError> {
        let moment = world.moment();
        if !self.part.has(moment) || self.frames.len() <= place {
            return Ok(None);
        }
        let Some(facts) = self.frames[place].facts else {
            return Ok(None);
        };
        let before = self.frames[place].row;
        let sight = Sight {
            moment,
            source: Source::Frame(place),
            facts,
            to: place_on_bus(self.frames[place].network, to, world.site().stations()),
            is_heard,
            is_again,
        };
        if self.join(before, sight)? {
            return Ok(before);
        }
        let label = format!(in self.alloc; "{}", FrameLabel(frame))?;
        let row = self.put_sight(sight, kind_of_frame(frame), label)?;
        Ok(Some(row))
    }
}
