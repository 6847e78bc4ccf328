//! The records of a pcap file and the blocks of a pcapng file, in either order of octets.

ghost use Rattle.std.specs.Prelude.{◌≡◌, ◌<◌, ◌≤◌, ◌+◌, false, IfSome, length};
ghost use Rattle.std.specs.Bool.{OnTrue};

use crate::octet_order::{OctetOrder, take_octets};
use crate::stamp::{Interface, PcapUnit};

/// A pcap file's header behind its magic number: versions, the time zone, the accuracy of stamps, the most octets of a
/// packet and the link type.
const BEFORE_LINK_TYPE: usize = 16;

/// The octets of a block beside its contents: its type, and its length twice.
const BESIDE_CONTENTS: usize = 12;

/// The octets of a record in front of its packet: its stamp, and two lengths.
const RECORD_HEADER: usize = 16;

/// The most octets of a packet's record or a block, 16 MiB, as Wireshark has it. A greater length is one that can't be.
pub const MAX_BLOCK_OCTETS: usize = 1 << 24;

/// How a file of pcap or pcapng begins.
#[derive(Clone, Copy)]
pub(crate) enum Start {
    /// As a pcap file with this order of octets and unit of stamps, and the number of its link type.
    Pcap(OctetOrder, PcapUnit, u16),
    /// As a pcapng file.
    Pcapng,
}

/// How a file begins, and its records or blocks; `None` where it is no such file. The upper half of a link type's
/// number in pcap tells of check octets, and isn't looked at.
pub(crate) fn start_of(octets: &[u8]) -> Option<(Start, &[u8])>
    ensures { IfSome result (λ x. length x.1.now ≤ length octets.now) }
{
    if section_order(octets).is_some() {
        return Some((Start::Pcapng, octets));
    }
    let (order, unit, rest) = pcap_order(octets)?;
    let (_, rest) = take_octets(BEFORE_LINK_TYPE, rest)?;
    let (number, records) = order.take_u32(rest)?;
    Some((Start::Pcap(order, unit, (number & 0xFFFF) as u16), records))
}

/// The order of octets of a pcap file, with stamps in microseconds or in nanoseconds, by its magic number, and what
/// stands behind that.
fn pcap_order(octets: &[u8]) -> Option<(OctetOrder, PcapUnit, &[u8])>
    ensures { IfSome result (λ x. length x.2.now ≤ length octets.now) }
{
    let (number, rest) = OctetOrder::Big.take_u32(octets)?;
    match number {
        0xA1B2_C3D4 => Some((OctetOrder::Big, PcapUnit::Microseconds, rest)),
        0xA1B2_3C4D => Some((OctetOrder::Big, PcapUnit::Nanoseconds, rest)),
        0xD4C3_B2A1 => Some((OctetOrder::Little, PcapUnit::Microseconds, rest)),
        0x4D3C_B2A1 => Some((OctetOrder::Little, PcapUnit::Nanoseconds, rest)),
        _ => None,
    }
}

/// The octets in front of which it may not be told yet whether a file is a capture: a header of pcap.
pub(crate) const START_OCTETS: usize = 8 + BEFORE_LINK_TYPE;

/// The stamp and the packet of the record at the front of pcap's records, and what stands behind it; `None` where it is
/// cut, or has a length that can't be.
pub(crate) fn take_record(
    order: OctetOrder,
    unit: PcapUnit,
    octets: &[u8],
) -> Option<((u64, &[u8]), &[u8])>
    ensures { IfSome result (λ x. length x.1.now < length octets.now) }
{
    let (seconds, rest) = order.take_u32(octets)?;
    let (fraction, rest) = order.take_u32(rest)?;
    let (count, rest) = order.take_u32(rest)?;
    let (_, rest) = order.take_u32(rest)?;
    if MAX_BLOCK_OCTETS < count as usize {
        return None;
    }
    let (packet, rest) = take_octets(count as usize, rest)?;
    Some(((unit.stamp(seconds, fraction), packet), rest))
}

/// Whether more octets may complete the record at the front: then there are few.
pub(crate) fn is_record_cut(order: OctetOrder, octets: &[u8]) -> bool
    ensures few { OnTrue result (length octets.now < MAX_BLOCK_OCTETS + 16) }
    ensures some { result ≡ false → 0 < length octets.now }
{
    match record_count(order, octets) {
        Some(count) => count <= MAX_BLOCK_OCTETS && octets.len() < RECORD_HEADER + count,
        None => octets.len() < RECORD_HEADER,
    }
}

/// How many octets the packet of the record at the front has.
fn record_count(order: OctetOrder, octets: &[u8]) -> Option<usize>
    ensures { IfSome result (λ _. 16 ≤ length octets.now) }
{
    let (_, rest) = take_octets(8, octets)?;
    let (count, rest) = order.take_u32(rest)?;
    let (_, _) = order.take_u32(rest)?;
    Some(count as usize)
}

/// What a block of pcapng is for, by its type.
#[derive(Clone, Copy, Debug, PartialEq, Eq)]
pub(crate) enum BlockType {
    /// Section Header.
    SectionHeader,
    /// Interface Description.
    Interface,
    /// Packet, which isn't written any more.
    OldPacket,
    /// Simple Packet.
    SimplePacket,
    /// Enhanced Packet.
    EnhancedPacket,
    /// Another, in which there is no packet.
    Other,
}

impl From<u32> for BlockType {
    fn from(number: u32) -> BlockType {
        match number {
            0x0A0D_0D0A => BlockType::SectionHeader,
            1 => BlockType::Interface,
            2 => BlockType::OldPacket,
            3 => BlockType::SimplePacket,
            6 => BlockType::EnhancedPacket,
            _ => BlockType::Other,
        }
    }
}

impl BlockType {
    /// Whether a packet is in it.
    pub(crate) fn has_packet(self) -> bool {
        match self {
            BlockType::OldPacket | BlockType::SimplePacket | BlockType::EnhancedPacket => true,
            BlockType::SectionHeader | BlockType::Interface | BlockType::Other => false,
        }
    }
}

/// A block of pcapng.
#[derive(Clone, Copy)]
pub(crate) struct Block<'a> {
    pub(crate) block_type: BlockType,
    /// The order of octets of its section.
    pub(crate) order: OctetOrder,
    pub(crate) contents: &'a [u8],
}

/// The order of octets of the section whose header stands at the front, and `None` where none does.
pub(crate) fn section_order(octets: &[u8]) -> Option<OctetOrder> {
    let (number, rest) = OctetOrder::Big.take_u32(octets)?;
    if BlockType::from(number) != BlockType::SectionHeader {
        return None;
    }
    let (_, rest) = OctetOrder::Big.take_u32(rest)?;
    let (magic, _) = OctetOrder::Big.take_u32(rest)?;
    match magic {
        0x1A2B_3C4D => Some(OctetOrder::Big),
        0x4D3C_2B1A => Some(OctetOrder::Little),
        _ => None,
    }
}

/// The block at the front in a section of this order, or that of the section which it begins, and what stands behind
/// it; `None` where it is cut, or has a length that is none of a block: less than what stands beside its contents, or
/// no multiple of four.
pub(crate) fn take_block(order: OctetOrder, octets: &[u8]) -> Option<(Block<'_>, &[u8])>
    ensures { IfSome result (λ x. length x.1.now < length octets.now) }
{
    let own_order = section_order(octets);
    let order = own_order.unwrap_or(order);
    let (number, rest) = order.take_u32(octets)?;
    let block_type = BlockType::from(number);
    if block_type == BlockType::SectionHeader && own_order.is_none() {
        return None;
    }
    let (count, rest) = order.take_u32(rest)?;
    let (contents, rest) = take_octets(contents_count(count)?, rest)?;
    let (_, rest) = order.take_u32(rest)?;
    let block = Block {
        block_type,
        order,
        contents,
    };
    Some((block, rest))
}

/// How many octets a block has beside its type and its lengths, where its length is one of a block.
fn contents_count(count: u32) -> Option<usize>
    ensures beside { IfSome result (λ n. n + 12 ≡ count) }
    ensures small { IfSome result (λ n. n ≤ MAX_BLOCK_OCTETS) }
{
    let whole = count as usize;
    if count % 4 != 0 || MAX_BLOCK_OCTETS < whole {
        return None;
    }
    whole.checked_sub(BESIDE_CONTENTS)
}

/// Whether more octets may complete the block at the front, in a section of this order: then there are few.
pub(crate) fn is_block_cut(order: OctetOrder, octets: &[u8]) -> bool
    ensures few { OnTrue result (length octets.now < MAX_BLOCK_OCTETS + 16) }
    ensures some { result ≡ false → 0 < length octets.now }
{
    if octets.len() < BESIDE_CONTENTS {
        return true;
    }
    match block_count(order, octets) {
        Some(count) => octets.len() < BESIDE_CONTENTS + count,
        None => false,
    }
}

/// How many octets the block at the front has beside its type and its lengths.
fn block_count(order: OctetOrder, octets: &[u8]) -> Option<usize>
    ensures { IfSome result (λ n. n ≤ MAX_BLOCK_OCTETS) }
{
    let own_order = section_order(octets);
    let order = own_order.unwrap_or(order);
    let (number, rest) = order.take_u32(octets)?;
    if BlockType::from(number) == BlockType::SectionHeader && own_order.is_none() {
        return None;
    }
    let (count, _) = order.take_u32(rest)?;
    contents_count(count)
}

/// The interface that a description is of, from its contents: the number of its link type, two octets, the most octets
/// of a packet, and options.
pub(crate) fn interface_in(block: Block<'_>) -> Option<Interface> {
    let (number, rest) = block.order.take_u16(block.contents)?;
    let mut interface = Interface::of_link(number);
    if let Some((_, options)) = take_octets(6, rest) {
        note_options(block.order, options, &mut interface);
    }
    Some(interface)
}

/// Notes what the options of a description say of stamps.
fn note_options(order: OctetOrder, options: &[u8], interface: &mut Interface) {
    let mut left = options;
    while let Some((code, contents, rest)) = take_option(order, left) {
        match (code, contents) {
            (RESOLUTION, [resolution]) => interface.resolution = *resolution,
            (OFFSET, [_, _, _, _, _, _, _, _]) => {
                if let Some(seconds) = take_u64(order, contents) {
                    interface.offset = seconds;
                }
            }
            _ => {}
        }
        left = rest;
    }
}

/// The option `if_tsresol` of an interface.
const RESOLUTION: u16 = 9;

/// The option `if_tsoffset` of an interface.
const OFFSET: u16 = 14;

/// The code and the contents of the option at the front, filled up to a multiple of four, and what stands behind it.
fn take_option(order: OctetOrder, octets: &[u8]) -> Option<(u16, &[u8], &[u8])>
    ensures { IfSome result (λ x. length x.2.now < length octets.now) }
{
    let (code, rest) = order.take_u16(octets)?;
    let (count, rest) = order.take_u16(rest)?;
    let count = usize::from(count);
    let (contents, rest) = take_octets(count, rest)?;
    let (_, rest) = take_octets((4 - count % 4) % 4, rest)?;
    Some((code, contents, rest))
}

/// The number of eight octets.
fn take_u64(order: OctetOrder, octets: &[u8]) -> Option<u64> {
    let (first, rest) = order.take_u32(octets)?;
    let (second, _) = order.take_u32(rest)?;
    match order {
        OctetOrder::Big => Some((u64::from(first) << 32) | u64::from(second)),
        OctetOrder::Little => Some((u64::from(second) << 32) | u64::from(first)),
    }
}

/// A packet as its block has it.
#[derive(Clone, Copy)]
pub(crate) struct BlockPacket<'a> {
    /// The number of its interface.
    pub(crate) interface: u32,
    /// Its stamp in units of its interface, where there is one.
    pub(crate) stamp: Option<u64>,
    pub(crate) octets: &'a [u8],
}

/// The packet in the contents of an Enhanced Packet Block.
pub(crate) fn enhanced_packet(block: Block<'_>) -> Option<BlockPacket<'_>> {
    let (interface, rest) = block.order.take_u32(block.contents)?;
    packet_behind(block.order, interface, rest)
}

/// The same from the contents of a Packet Block, where the number has two octets, and two others follow it.
pub(crate) fn old_packet(block: Block<'_>) -> Option<BlockPacket<'_>> {
    let (interface, rest) = block.order.take_u16(block.contents)?;
    let (_, rest) = take_octets(2, rest)?;
    packet_behind(block.order, u32::from(interface), rest)
}

/// The packet behind the number of its interface: both halves of its stamp, the upper one first, two lengths, its
/// octets.
fn packet_behind(order: OctetOrder, interface: u32, rest: &[u8]) -> Option<BlockPacket<'_>> {
    let (high, rest) = order.take_u32(rest)?;
    let (low, rest) = order.take_u32(rest)?;
    let (count, rest) = order.take_u32(rest)?;
    let (_, rest) = order.take_u32(rest)?;
    let (octets, _) = take_octets(count as usize, rest)?;
    Some(BlockPacket {
        interface,
        stamp: Some((u64::from(high) << 32) | u64::from(low)),
        octets,
    })
}

/// The packet in the contents of a Simple Packet Block, of the first interface: as many octets as it had, or as there
/// are.
pub(crate) fn simple_packet(block: Block<'_>) -> Option<BlockPacket<'_>> {
    let (count, rest) = block.order.take_u32(block.contents)?;
    let octets = match take_octets(count as usize, rest) {
        Some((octets, _)) => octets,
        None => rest,
    };
    Some(BlockPacket {
        interface: 0,
        stamp: None,
        octets,
    })
}
