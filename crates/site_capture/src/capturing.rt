//! What the steps of a script put out, and what becomes of it.

use crate::fate::Fate;
use crate::hosts::{ends_of, put_names};
use crate::putting::{networks, put_item};
use bus_traffic::Bus;
use captures::{write_frame, write_start};
use site_steps::{Event, Stop, Watcher, World, watch};
use std::alloc::{AllocError, Allocator, Global};
use tags::{Fault, Octets};

/// What is put out: the datagram of a number, or a frame on the bus at a place, at a moment in milliseconds.
#[derive(Drop)]
enum Put<A: Allocator> {
    Datagram(usize),
    Frame {
        place: u16,
        net: u16,
        octets: Octets<A>,
        moment: u64,
    },
}

/// What was put out up to now, and what became of the datagrams, by their numbers.
#[derive(Drop)]
struct Capturing<A: Allocator + Copy> {
    alloc: A,
    puts: Vec<Put<A>, A>,
    fates: Vec<Fate, A>,
    file: Vec<u8, A>,
}

impl<A: Allocator + Copy> Capturing<A> {
    /// Notes that the datagram of a number is received.
    fn put_delivery(&mut self, world: &World<A>, number: usize) {
        if let Some(item) = world.items().get(number) {
            if number < self.fates.len() {
                let after = world.moment().saturating_sub(item.put_out);
                self.fates[number] = self.fates[number].received(after);
            }
        }
    }

    /// Notes what is put out behind so many frames, and all datagrams that weren't noted yet.
    fn put_out(&mut self, world: &World<A>, frames: u64) -> Result<(), AllocError> {
        for number in self.fates.len()..world.items().len() {
            self.puts.push(Put::Datagram(number))?;
            self.fates.push(Fate::lost())?;
        }
        let mut place = 0u16;
        for bus in &world.buses().buses {
            self.put_bus(place, bus, frames, world.moment())?;
            place = place.saturating_add(1);
        }
        Ok(())
    }

    /// Notes the frames that are put out behind so many on the bus at a place.
    fn put_bus(
        &mut self,
        place: u16,
        bus: &Bus<A>,
        before: u64,
        moment: u64,
    ) -> Result<(), AllocError> {
        for held in &bus.recent {
            let sending = &held.recent().sending;
            if sending.place.frames >= before {
                self.puts.push(Put::Frame {
                    place,
                    net: bus.net,
                    octets: sending.octets.copy(self.alloc)?,
                    moment,
                })?;
            }
        }
        Ok(())
    }

    /// Writes all that was put out.
    fn write(&mut self, world: &World<A>) -> Result<(), Fault> {
        let puts = std::mem::replace(&mut self.puts, Vec::new(self.alloc));
        for put in puts {
            match put {
                Put::Datagram(number) => self.write_datagram(world, number)?,
                Put::Frame {
                    place,
                    net,
                    octets,
                    moment,
                } => {
                    let octets = octets.as_slice();
                    let ends = ends_of(self.alloc, net, octets, world.site().stations())?;
                    write_frame(place, octets, moment, ends.as_bytes(), &mut self.file)?;
                }
            }
        }
        Ok(())
    }

    /// Writes the datagram of a number, with what became of it.
    fn write_datagram(&mut self, world: &World<A>, number: usize) -> Result<(), Fault> {
        let (Some(item), Some(fate)) = (world.items().get(number), self.fates.get(number)) else {
            return Ok(());
        };
        let comment = format!(in self.alloc; "{fate}")?;
        put_item(item, comment.as_str(), &mut self.file)
    }
}

impl<A: Allocator + Copy> Watcher<A> for Capturing<A> {
    fn begin(&mut self, world: &World<A>) -> Result<(), Fault> {
        let networks = networks(self.alloc, world.buses().buses.as_slice())?;
        write_start(networks.as_slice(), &mut self.file)?;
        put_names(self.alloc, world.site().stations(), &mut self.file)
    }

    fn make(&mut self, world: &mut World<A>, event: &Event<A>) -> Result<(), Fault> {
        let frames = world.buses().frames;
        let made = world.step(event);
        if let (Ok(()), Event::Deliver(number)) = (made, event) {
            self.put_delivery(world, *number as usize);
        }
        self.put_out(world, frames)?;
        Ok(())
    }

    fn refuse(&mut self, _world: &World<A>, _n: u64, _fault: Fault) -> Result<(), Fault> {
        Ok(())
    }

    fn end(&mut self, world: &World<A>) -> Result<(), Fault> {
        self.write(world)
    }
}

/// Takes the steps of a script in a world of a site, as their texts describe them, and gives a file of pcapng with each
/// datagram and each frame that is put out, in order, the names of its stations, and comments: who says a frame to
/// whom, and what becomes of a datagram that isn't received once, at once. What goes to several stations is a datagram
/// for each of them. The document is read in memory of `reading`.
///
/// # Errors
/// Those of `site_steps::open`; `TooLong` for a datagram of over 65507 octets; and `Memory`.
pub fn capture<A: Allocator + Copy>(
    reading: Global,
    alloc: A,
    site: &[u8],
    script: &[u8],
) -> Result<Vec<u8, A>, Stop> {
    let mut capturing = Capturing {
        alloc,
        puts: Vec::new(alloc),
        fates: Vec::new(alloc),
        file: Vec::new(alloc),
    };
    watch(reading, alloc, site, script, &mut capturing)?;
    let Capturing { file, .. } = capturing;
    Ok(file)
}
