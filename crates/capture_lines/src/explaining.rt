//! A capture, packet behind packet.

ghost use Rattle.std.specs.Prelude.{◌≤◌};

use crate::lines::{At, Node, TypeName};
use captures::{Capture, Carried, Cause, Datagram, Packet};
use console::{explain_datagram, explain_npdu, say_failed};
use mstp_frame::{Frame, FrameType};
use std::alloc::Allocator;
use std::io;
use std::io::Write;
use words::{Hex, Spelling};

/// Prints the packets of a file of pcap or pcapng, each with its number: a datagram of BACnet/IP and a frame of MS/TP
/// taken apart, with names where they are asked for, and of any other why it is passed over. Answers the exit status:
/// 1 for a file that is none of both, which is told on `err`, for want of memory and a failed write, and else 0, also
/// where a datagram is refused.
pub fn explain_capture<A: Allocator + Copy, W: Write, E: Write>(
    alloc: A,
    spelling: Spelling,
    file: &[u8],
    out: &mut W,
    err: &mut E,
) -> u8
    ensures status { result ≤ 1 }
{
    let Some(capture) = Capture::of_file(alloc, file) else {
        let _ = writeln!(err, "bacsite: capture");
        return 1;
    };
    match print_packets(spelling, capture, out) {
        Ok(()) => 0,
        Err(error) => say_failed(&error, err),
    }
}

/// Prints the packets of a capture.
fn print_packets<A: Allocator, W: Write>(
    spelling: Spelling,
    capture: Capture<'_, A>,
    out: &mut W,
) -> io::Result<()> {
    let mut capture = capture;
    while let Some(packet) = capture.next()? {
        print_packet(spelling, packet, out)?;
    }
    Ok(())
}

/// Prints a packet.
fn print_packet<W: Write>(spelling: Spelling, packet: Packet<'_>, out: &mut W) -> io::Result<()> {
    let number = packet.number;
    match packet.carried {
        Carried::Datagram(datagram) => print_datagram(spelling, number, datagram, out),
        Carried::Frame(octets) => match Frame::read(octets) {
            Some(frame) => print_frame(spelling, number, frame, out),
            None => writeln!(out, "packet {number} passed over: it is no frame of MS/TP"),
        },
        Carried::Other(cause) => print_cause(number, cause, out),
    }
}

/// Prints why a packet is passed over.
fn print_cause<W: Write>(number: u64, cause: Cause, out: &mut W) -> io::Result<()> {
    writeln!(out, "packet {number} passed over: {cause}")
}

/// Prints a datagram with its ends, where it comes from first (J.2).
fn print_datagram<W: Write>(
    spelling: Spelling,
    number: u64,
    datagram: Datagram<'_>,
    out: &mut W,
) -> io::Result<()> {
    let Datagram { from, to, octets } = datagram;
    writeln!(out, "packet {number} {} {}", At(from), At(to))?;
    let _ = explain_datagram(spelling, octets, out)?;
    Ok(())
}

/// Prints a frame with its ends, where it comes from first, its type, and what it carries (9.3).
fn print_frame<W: Write>(
    spelling: Spelling,
    number: u64,
    frame: Frame<'_>,
    out: &mut W,
) -> io::Result<()> {
    writeln!(
        out,
        "packet {number} {} {}",
        Node(frame.source),
        Node(frame.destination)
    )?;
    let kind = u8::from(frame.frame_type);
    match spelling {
        Spelling::Numbers => writeln!(out, "frame {kind}")?,
        Spelling::Names => writeln!(out, "frame {kind}{}", TypeName(frame.frame_type))?,
    }
    match frame.frame_type {
        FrameType::BacnetDataExpectingReply | FrameType::BacnetDataNotExpectingReply => {
            let _ = explain_npdu(spelling, frame.data, out)?;
            Ok(())
        }
        FrameType::Token
        | FrameType::PollForMaster
        | FrameType::ReplyToPollForMaster
        | FrameType::TestRequest
        | FrameType::TestResponse
        | FrameType::ReplyPostponed
        | FrameType::Other(_) => print_data(frame.data, out),
    }
}

/// Prints data that aren't looked into, where there are any.
fn print_data<W: Write>(data: &[u8], out: &mut W) -> io::Result<()> {
    if data.is_empty() {
        return Ok(());
    }
    writeln!(out, "octets {}", Hex(data))
}
