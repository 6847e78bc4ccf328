//! A pcapng file that is written: its section, its interfaces and names of hosts, and packet behind packet. The first
//! interface is IP, on which each datagram stands in a packet of IP and UDP; then comes one for each bus. Stamps are
//! milliseconds, so that datagrams and frames have one time.

ghost use Rattle.std.specs.Prelude.{◌≡◌, ◌≤◌, ◌+◌, ◌⊎◌, IfErr, OnOk, OnErr, length};
ghost use Rattle.tags.specs.Canonical.{Extends};

use crate::checksum::sum_of;
use crate::internet::{Datagram, IP_HEADER_OCTETS, UDP, UDP_HEADER_OCTETS};
use crate::link::LinkType;
use std::alloc::{AllocError, Allocator};
use tags::{Fault, all_or_none};

/// The most octets of a datagram or a frame that is written: what a packet of IP has room for behind two headers.
pub const MAX_OCTETS: usize = 65_507;

/// The octets in front of a datagram.
const FRONT_OCTETS: usize = IP_HEADER_OCTETS + UDP_HEADER_OCTETS;

/// The most octets of a name or a comment that is written.
pub const MAX_WORDS: usize = 255;

/// The option `opt_comment` of a packet.
const COMMENT: u16 = 1;

/// The record `nrb_record_ipv4` of a name.
const HOST: u16 = 1;

/// The option `if_name` of an interface.
const NAME: u16 = 2;

/// The option `if_tsresol` with its length, its value 3 for thousandths of a second, and what fills it up; and the end
/// of the options.
const MILLISECONDS: [u8; 12] = [0, 9, 0, 1, 3, 0, 0, 0, 0, 0, 0, 0];

/// Appends what a file begins with: its section's header, the interface of BACnet/IP, and one for each bus, by the
/// numbers of their networks, in order. After an `Err` the buffer is as it was.
///
/// # Errors
/// `Memory` alone.
pub fn write_start<B: Allocator>(buses: &[u16], out: &mut Vec<u8, B>) -> Result<(), Fault>
    ensures memory { IfErr result (λ fault. fault ≡ Fault.Memory) }
    ensures unchanged { OnErr result (out.new.items ≡ out.old.items) }
{
    let start = out.len();
    let put = put_start(buses, out);
    all_or_none(put, start, out)
}

/// Appends a name for an address of IP, in UTF-8. After an `Err` the buffer is as it was.
///
/// # Errors
/// `TooLong` for over 255 octets, `Memory`.
pub fn write_name<B: Allocator>(
    address: [u8; 4],
    name: &[u8],
    out: &mut Vec<u8, B>,
) -> Result<(), Fault>
    ensures fault { IfErr result (λ fault. (fault ≡ Fault.Memory) ⊎ (fault ≡ Fault.TooLong)) }
    ensures unchanged { OnErr result (out.new.items ≡ out.old.items) }
{
    if name.len() > MAX_WORDS {
        return Err(Fault::TooLong);
    }
    let start = out.len();
    let put = put_name(&address, name, out);
    all_or_none(put, start, out)
}

/// Appends a datagram at a moment, in milliseconds, with a comment in UTF-8, unless that is empty. After an `Err` the
/// buffer is as it was.
///
/// # Errors
/// `TooLong` for over 65507 octets or a comment of over 255, `Memory`.
pub fn write_datagram<B: Allocator>(
    datagram: &Datagram<'_>,
    moment: u64,
    comment: &[u8],
    out: &mut Vec<u8, B>,
) -> Result<(), Fault>
    ensures fault { IfErr result (λ fault. (fault ≡ Fault.Memory) ⊎ (fault ≡ Fault.TooLong)) }
    ensures unchanged { OnErr result (out.new.items ≡ out.old.items) }
{
    if datagram.octets.len() > MAX_OCTETS || comment.len() > MAX_WORDS {
        return Err(Fault::TooLong);
    }
    let start = out.len();
    let front = front_of(datagram);
    let put = put_packet(0, moment, &front, datagram.octets, comment, out);
    all_or_none(put, start, out)
}

/// Appends what is put out on a bus at a moment, in milliseconds, with a comment in UTF-8, unless that is empty. The
/// bus is named by its place among those that the file begins with, from 0. After an `Err` the buffer is as it was.
///
/// # Errors
/// `TooLong` for over 65507 octets or a comment of over 255, `Memory`.
pub fn write_frame<B: Allocator>(
    bus: u16,
    octets: &[u8],
    moment: u64,
    comment: &[u8],
    out: &mut Vec<u8, B>,
) -> Result<(), Fault>
    ensures fault { IfErr result (λ fault. (fault ≡ Fault.Memory) ⊎ (fault ≡ Fault.TooLong)) }
    ensures unchanged { OnErr result (out.new.items ≡ out.old.items) }
{
    if octets.len() > MAX_OCTETS || comment.len() > MAX_WORDS {
        return Err(Fault::TooLong);
    }
    let start = out.len();
    let put = put_packet(u32::from(bus) + 1, moment, &[], octets, comment, out);
    all_or_none(put, start, out)
}

/// Appends a section's header and the descriptions of its interfaces.
#[tactic(auto, using(crate::proofs::Extending::extending))]
fn put_start<B: Allocator>(buses: &[u16], out: &mut Vec<u8, B>) -> Result<(), AllocError>
    ensures err { OnErr result (Extends out.old.items out.new.items) }
{
    put_section(out)?;
    put_interface(LinkType::RawIp, b"BACnet/IP", out)?;
    put_buses(buses, out)
}

/// Appends a section's header, of version 1.0, with no length of the section and no options.
fn put_section<B: Allocator>(out: &mut Vec<u8, B>) -> Result<(), AllocError>
    ensures ok { OnOk result (Extends out.old.items out.new.items) }
    ensures err { OnErr result (Extends out.old.items out.new.items) }
{
    put_numbers(
        &[
            0x0A0D_0D0A,
            28,
            0x1A2B_3C4D,
            0x0001_0000,
            0xFFFF_FFFF,
            0xFFFF_FFFF,
            28,
        ],
        out,
    )
}

/// Appends the description of an interface for each bus.
#[tactic(auto, using(crate::proofs::Extending::extending))]
fn put_buses<B: Allocator>(buses: &[u16], out: &mut Vec<u8, B>) -> Result<(), AllocError>
    ensures ok { OnOk result (Extends out.old.items out.new.items) }
    ensures err { OnErr result (Extends out.old.items out.new.items) }
{
    for net in buses {
        put_interface(LinkType::MsTp, &bus_name(*net), out)?;
    }
    Ok(())
}

/// The name of a bus's interface: `MS/TP 00002`.
fn bus_name(net: u16) -> [u8; 11]
    ensures { length result ≡ 11 }
{
    [
        b'M',
        b'S',
        b'/',
        b'T',
        b'P',
        b' ',
        last_digit(net / 10_000),
        last_digit(net / 1000),
        last_digit(net / 100),
        last_digit(net / 10),
        last_digit(net),
    ]
}

/// The last decimal digit of a number.
fn last_digit(number: u16) -> u8 {
    b'0' + (number % 10) as u8
}

/// Appends the description of an interface, with its name and stamps in milliseconds, and no limit of a packet's
/// length.
#[tactic(auto, using(crate::proofs::Extending::extending))]
fn put_interface<B: Allocator>(
    link_type: LinkType,
    name: &[u8],
    out: &mut Vec<u8, B>,
) -> Result<(), AllocError>
    requires { length name.now ≤ 100 }
    ensures ok { OnOk result (Extends out.old.items out.new.items) }
    ensures err { OnErr result (Extends out.old.items out.new.items) }
{
    let fill = filling(name.len());
    let count = (36 + name.len() + fill.len()) as u32;
    let link_type = u32::from(u16::from(link_type)) << 16;
    let named = (u32::from(NAME) << 16) | name.len() as u32;
    put_numbers(&[1, count, link_type, 0, named], out)?;
    put_three(name, fill, &MILLISECONDS, out)?;
    put_numbers(&[count], out)
}

/// Appends a Name Resolution Block of one name.
#[tactic(auto, using(crate::proofs::Extending::extending))]
fn put_name<B: Allocator>(
    address: &[u8; 4],
    name: &[u8],
    out: &mut Vec<u8, B>,
) -> Result<(), AllocError>
    requires { length name.now ≤ 255 }
    ensures ok { OnOk result (Extends out.old.items out.new.items) }
    ensures err { OnErr result (Extends out.old.items out.new.items) }
{
    let end = ending(name.len());
    let count = (20 + 4 + name.len() + end.len()) as u32;
    let record = (u32::from(HOST) << 16) | (4 + name.len() + 1) as u32;
    put_numbers(&[4, count, record], out)?;
    put_three(address, name, end, out)?;
    put_numbers(&[0, count], out)
}

/// The octet 0 that ends a text of so many octets, and those that fill both up to a multiple of four.
fn ending(count: usize) -> &'static [u8]
    ensures { length result.now ≤ 4 }
{
    match count % 4 {
        0 => &[0, 0, 0, 0],
        1 => &[0, 0, 0],
        2 => &[0, 0],
        _ => &[0],
    }
}

/// How many octets the options of a packet with a comment have.
fn options_of(comment: &[u8]) -> usize
    requires { length comment.now ≤ 255 }
    ensures { result ≤ 300 }
{
    if comment.is_empty() {
        return 0;
    }
    8 + comment.len() + filling(comment.len()).len()
}

/// Appends the options of a packet with a comment: the comment, unless it is empty, and their end.
#[tactic(auto, using(crate::proofs::Extending::extending))]
fn put_options<B: Allocator>(comment: &[u8], out: &mut Vec<u8, B>) -> Result<(), AllocError>
    requires { length comment.now ≤ 255 }
    ensures ok { OnOk result (Extends out.old.items out.new.items) }
    ensures err { OnErr result (Extends out.old.items out.new.items) }
{
    if comment.is_empty() {
        return Ok(());
    }
    put_numbers(&[(u32::from(COMMENT) << 16) | comment.len() as u32], out)?;
    put_three(comment, filling(comment.len()), &[0, 0, 0, 0], out)
}

/// Appends an Enhanced Packet Block, whose packet has two parts.
#[tactic(auto, using(crate::proofs::Extending::extending))]
fn put_packet<B: Allocator>(
    interface: u32,
    moment: u64,
    front: &[u8],
    octets: &[u8],
    comment: &[u8],
    out: &mut Vec<u8, B>,
) -> Result<(), AllocError>
    requires octets { length front.now + length octets.now ≤ 65535 }
    requires words { length comment.now ≤ 255 }
    ensures ok { OnOk result (Extends out.old.items out.new.items) }
    ensures err { OnErr result (Extends out.old.items out.new.items) }
{
    let length = front.len() + octets.len();
    let fill = filling(length);
    let count = (32 + length + fill.len() + options_of(comment)) as u32;
    let length = length as u32;
    let high = (moment >> 32) as u32;
    let low = (moment & 0xFFFF_FFFF) as u32;
    put_numbers(&[6, count, interface, high, low, length, length], out)?;
    put_three(front, octets, fill, out)?;
    put_options(comment, out)?;
    put_numbers(&[count], out)
}

/// The octets that fill so many up to a multiple of four.
fn filling(count: usize) -> &'static [u8]
    ensures { length result.now ≤ 3 }
{
    match count % 4 {
        0 => &[],
        1 => &[0, 0, 0],
        2 => &[0, 0],
        _ => &[0],
    }
}

/// Appends numbers in four octets each.
#[tactic(auto, using(crate::proofs::Extending::extending))]
fn put_numbers<B: Allocator>(numbers: &[u32], out: &mut Vec<u8, B>) -> Result<(), AllocError>
    ensures ok { OnOk result (Extends out.old.items out.new.items) }
    ensures err { OnErr result (Extends out.old.items out.new.items) }
{
    for number in numbers {
        out.extend_from_slice(&number.to_be_bytes())?;
    }
    Ok(())
}

/// Appends three parts.
#[tactic(auto, using(crate::proofs::Extending::extending))]
fn put_three<B: Allocator>(
    a: &[u8],
    b: &[u8],
    c: &[u8],
    out: &mut Vec<u8, B>,
) -> Result<(), AllocError>
    ensures ok { OnOk result (Extends out.old.items out.new.items) }
    ensures err { OnErr result (Extends out.old.items out.new.items) }
{
    out.extend_from_slice(a)?;
    out.extend_from_slice(b)?;
    out.extend_from_slice(c)
}

/// The headers of IP and UDP in front of a datagram, with their lengths and checksums (RFC 791, 3.1; RFC 768).
fn front_of(datagram: &Datagram<'_>) -> [u8; FRONT_OCTETS]
    requires { length datagram.now.octets.now ≤ 65507 }
    ensures { length result ≡ 28 }
{
    let [s0, s1, s2, s3] = datagram.from.ip;
    let [d0, d1, d2, d3] = datagram.to.ip;
    let [p0, p1] = datagram.from.port.to_be_bytes();
    let [q0, q1] = datagram.to.port.to_be_bytes();
    let count = datagram.octets.len() + UDP_HEADER_OCTETS;
    let [u0, u1] = (count as u16).to_be_bytes();
    let [t0, t1] = ((count + IP_HEADER_OCTETS) as u16).to_be_bytes();
    let ends = [s0, s1, s2, s3, d0, d1, d2, d3];
    let ip = [0x45, 0, t0, t1, 0, 0, 0x40, 0, 64, UDP];
    let [i0, i1] = (!sum_of(sum_of(0, &ip), &ends)).to_be_bytes();
    let udp = [0, UDP, u0, u1, p0, p1, q0, q1, u0, u1];
    let [c0, c1] = sent_checksum(sum_of(sum_of(sum_of(0, &ends), &udp), datagram.octets));
    [
        0x45, 0, t0, t1, 0, 0, 0x40, 0, 64, UDP, i0, i1, s0, s1, s2, s3, d0, d1, d2, d3, p0, p1,
        q0, q1, u0, u1, c0, c1,
    ]
}

/// The checksum of UDP over what has this sum: 0 says that there is none, so FFFF stands for it (RFC 768).
fn sent_checksum(sum: u16) -> [u8; 2] {
    let checksum = !sum;
    if checksum == 0 {
        return [0xFF, 0xFF];
    }
    checksum.to_be_bytes()
}
