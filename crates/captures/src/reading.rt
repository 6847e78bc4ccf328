//! What is known of a file that is read, and the packet of a record or a block: shared by a file in memory and one that
//! comes in chunks.

ghost use Rattle.std.specs.Prelude.{◌≡◌, ◌<◌, ◌≤◌, ◌+◌, false, IfSome, length};
ghost use Rattle.std.specs.Bool.{OnTrue};

use crate::cause::Cause;
use crate::files::{
    Block, BlockPacket, BlockType, MAX_BLOCK_OCTETS, Start, enhanced_packet, interface_in,
    is_block_cut, is_record_cut, old_packet, simple_packet, start_of, take_block, take_record,
};
use crate::internet::{Datagram, datagram_in};
use crate::link::{LinkType, behind_cooked, behind_cooked_two, behind_ethernet};
use crate::octet_order::OctetOrder;
use crate::stamp::{Interface, PcapUnit};
use std::alloc::{AllocError, Allocator};

/// What a packet of a capture carries.
#[derive(Clone, Copy, Debug, PartialEq, Eq)]
pub enum Carried<'a> {
    /// A datagram of BACnet/IP, with its ends (J.2).
    Datagram(Datagram<'a>),
    /// What was received on a bus, from a frame's preamble on (9.3). Whether it is a whole frame is not looked at.
    Frame(&'a [u8]),
    /// Neither of both.
    Other(Cause),
}

/// A packet of a capture.
#[derive(Clone, Copy, Debug, PartialEq, Eq)]
pub struct Packet<'a> {
    /// Its number in the file, from 1.
    pub number: u64,
    /// When it was captured, in microseconds since 1970 (UTC), where the file says that.
    pub microseconds: Option<u64>,
    /// The number of its interface in its section, from 0; in pcap, 0.
    pub interface: u32,
    /// What it carries.
    pub carried: Carried<'a>,
}

/// Which file it is.
#[derive(Clone, Copy)]
enum Format {
    /// pcap, whose packets all come from a link of this type, with stamps of this unit.
    Pcap(LinkType, PcapUnit),
    /// pcapng, whose packets come from the interfaces that are described before them.
    Pcapng,
}

/// What stands at the front of the rest of a file, and is whole.
#[derive(Clone, Copy)]
pub(crate) enum Item<'a> {
    /// The packet of a record of pcap, from a link of this type, with its stamp in microseconds.
    Record(LinkType, u64, &'a [u8]),
    /// A block of pcapng.
    Block(Block<'a>),
}

impl Item<'_> {
    /// Whether a packet is in it.
    pub(crate) fn has_packet(&self) -> bool {
        match self {
            Item::Record(_, _, _) => true,
            Item::Block(block) => block.block_type.has_packet(),
        }
    }
}

/// What is known of a file.
#[derive(Drop)]
pub(crate) struct Reading<A: Allocator> {
    order: OctetOrder,
    format: Format,
    /// The interfaces of this section, in their order.
    interfaces: Vec<Interface, A>,
    /// How many packets came.
    count: u64,
}

impl<A: Allocator> Reading<A> {
    /// What is known of a file by its start, and what follows that; `None` where it is no capture. Takes no
    /// memory.
    pub(crate) fn of_start(alloc: A, octets: &[u8]) -> Option<(Reading<A>, &[u8])>
        ensures { IfSome result (λ x. length x.1.now ≤ length octets.now) }
    {
        let (start, rest) = start_of(octets)?;
        let (order, format) = match start {
            Start::Pcap(order, unit, number) => {
                (order, Format::Pcap(LinkType::from(number), unit))
            }
            Start::Pcapng => (OctetOrder::Big, Format::Pcapng),
        };
        let reading = Reading {
            order,
            format,
            interfaces: Vec::new(alloc),
            count: 0,
        };
        Some((reading, rest))
    }

    /// The record or block at the front, and what follows it; `None` where it is cut or has a length that can't
    /// be.
    pub(crate) fn front<'o>(&self, octets: &'o [u8]) -> Option<(Item<'o>, &'o [u8])>
        ensures { IfSome result (λ x. length x.1.now < length octets.entry.now) }
    {
        match self.format {
            Format::Pcap(link_type, unit) => {
                let ((stamp, packet), rest) = take_record(self.order, unit, octets)?;
                Some((Item::Record(link_type, stamp, packet), rest))
            }
            Format::Pcapng => {
                let (block, rest) = take_block(self.order, octets)?;
                Some((Item::Block(block), rest))
            }
        }
    }

    /// Whether more octets may complete the record or block at the front: then there are few.
    pub(crate) fn is_cut(&self, octets: &[u8]) -> bool
        ensures few { OnTrue result (length octets.now < MAX_BLOCK_OCTETS + 16) }
        ensures some { result ≡ false → 0 < length octets.now }
    {
        match self.format {
            Format::Pcap(_, _) => is_record_cut(self.order, octets),
            Format::Pcapng => is_block_cut(self.order, octets),
        }
    }

    /// Knows of the section or the interface that an item is about, if it is.
    pub(crate) fn note(&mut self, item: Item<'_>) -> Result<(), AllocError> {
        let Item::Block(block) = item else {
            return Ok(());
        };
        match block.block_type {
            BlockType::SectionHeader => {
                self.order = block.order;
                self.interfaces.clear();
            }
            BlockType::Interface => {
                if let Some(interface) = interface_in(block) {
                    self.interfaces.push(interface)?;
                }
            }
            BlockType::OldPacket
            | BlockType::SimplePacket
            | BlockType::EnhancedPacket
            | BlockType::Other => {}
        }
        Ok(())
    }

    /// Counts a packet, and gives its number.
    pub(crate) fn count_one(&mut self) -> u64 {
        self.count = self.count.saturating_add(1);
        self.count
    }

    /// The packet of a file that ends within it.
    pub(crate) fn cut_packet<'o>(&self, number: u64) -> Packet<'o> {
        Packet {
            number,
            microseconds: None,
            interface: 0,
            carried: Carried::Other(Cause::Cut),
        }
    }

    /// The packet in an item, with its number.
    pub(crate) fn packet_in<'o>(&self, number: u64, item: Item<'o>) -> Packet<'o> {
        match item {
            Item::Record(link_type, stamp, octets) => Packet {
                number,
                microseconds: Some(stamp),
                interface: 0,
                carried: carried_on(link_type, octets),
            },
            Item::Block(block) => match packet_of(block) {
                Some(packet) => self.packet_from(number, packet),
                None => self.cut_packet(number),
            },
        }
    }

    /// The packet that a block has, by its interface.
    fn packet_from<'o>(&self, number: u64, packet: BlockPacket<'o>) -> Packet<'o> {
        let (microseconds, carried) = match self.interfaces.get(packet.interface as usize) {
            Some(interface) => (
                packet.stamp.map(|stamp| interface.microseconds(stamp)),
                carried_on(interface.link_type, packet.octets),
            ),
            None => (None, Carried::Other(Cause::NoInterface)),
        };
        Packet {
            number,
            microseconds,
            interface: packet.interface,
            carried,
        }
    }
}

/// The packet that stands in a block.
fn packet_of(block: Block<'_>) -> Option<BlockPacket<'_>> {
    match block.block_type {
        BlockType::EnhancedPacket => enhanced_packet(block),
        BlockType::OldPacket => old_packet(block),
        BlockType::SimplePacket => simple_packet(block),
        BlockType::SectionHeader | BlockType::Interface | BlockType::Other => None,
    }
}

/// What a packet carries that comes from a link of this type.
fn carried_on(link_type: LinkType, octets: &[u8]) -> Carried<'_> {
    let packet = match link_type {
        LinkType::RawIp | LinkType::Ipv4 => Ok(octets),
        LinkType::Ethernet => behind_ethernet(octets),
        LinkType::LinuxCooked => behind_cooked(octets),
        LinkType::LinuxCookedTwo => behind_cooked_two(octets),
        LinkType::MsTp => return Carried::Frame(octets),
        LinkType::Other(number) => return Carried::Other(Cause::OtherLink(number)),
    };
    match packet {
        Ok(packet) => carried_by(packet),
        Err(cause) => Carried::Other(cause),
    }
}

/// What a packet of IP carries.
fn carried_by(packet: &[u8]) -> Carried<'_> {
    match datagram_in(packet) {
        Ok(datagram) => Carried::Datagram(datagram),
        Err(cause) => Carried::Other(cause),
    }
}
