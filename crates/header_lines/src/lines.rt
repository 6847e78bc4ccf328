//! The lines that `explain` prints: a field, a network message, a tag.

ghost use Rattle.std.specs.Prelude.{◌≡◌, [], Some, OnOk, codes, drop, flat_map, map};
ghost use Rattle.std.specs.Fmt.{WritesOnOk};
ghost use Rattle.std.specs.Io.KnownBytes.{Appends};
ghost use Rattle.header_lines.specs.Heard.{way_of, sender_of};
ghost use Rattle.tags.specs.Tag.{plain_tag};
ghost use Rattle.apdu.specs.Apdu.{apdu_of};
ghost use Rattle.npdu.specs.Header.{header_of};
ghost use Rattle.apdu.specs.PduType.{type_number};
ghost use Rattle.names.specs.Headers.{network_messages, pdu_types};
ghost use Rattle.names.specs.Tables.{row_of};
ghost use Rattle.npdu.specs.Message.{message_type};
ghost use Rattle.octet_texts.specs.Pairs.{pair_of};
ghost use Rattle.header_lines.specs.Text.{pairs, dashed, behind, contents_text, control_text, dnet_text, snet_text};
ghost use Rattle.header_lines.specs.Text.{hops_text, named, octets_text, message_text, has_flags, has_sizes};
ghost use Rattle.header_lines.specs.Text.{flags_text};
ghost use Rattle.header_lines.specs.Text.{transaction_text, segment_ack_text, reason_text, class_word, tag_line};

use crate::named::{Behind, ControlWords, FlagWords, ReachWords, SizeWords, TagWords};
use apdu::{Apdu, PduType, Segment};
use names::{Row, network_messages, pdu_types};
use npdu::{Destination, Message, Source, View};
use parameters::Note;
use printing::Spelling;
use std::fmt::{Display, Formatter};
use std::io::Write;
use std::{fmt, io};
use tags::{Class, Content};

/// Octets as pairs of digits without spaces.
#[derive(Clone, Copy)]
pub struct Pairs<'a>(pub &'a [u8]);

impl Display for Pairs<'_> {
    ghost output = { λ p. Some (pairs p.0.now) };

    fn fmt<W: fmt::Write>(&self, f: &mut Formatter<W>) -> Result<(), fmt::Error> {
        write_pairs(self.0, f)
    }
}

/// Octets as pairs of digits without spaces, or `-` where there are none.
#[derive(Clone, Copy)]
pub struct Dashed<'a>(pub &'a [u8]);

impl Display for Dashed<'_> {
    ghost output = { λ d. Some (dashed d.0.now) };

    fn fmt<W: fmt::Write>(&self, f: &mut Formatter<W>) -> Result<(), fmt::Error> {
        if self.0.is_empty() {
            return f.write_str("-");
        }
        write_pairs(self.0, f)
    }
}

/// Writes octets as two upper-case digits each.
fn write_pairs<W: fmt::Write>(octets: &[u8], f: &mut Formatter<W>) -> Result<(), fmt::Error>
    ensures { WritesOnOk W.write_str_gives f.old result (pairs octets.now) f.new }
{
    for octet in octets {
        write!(f, "{octet:02X}")?;
    }
    Ok(())
}

/// Prints what stands behind the header of a datagram, where there is anything (J.2).
pub fn print_contents<W: Write>(octets: &[u8], out: &mut W) -> io::Result<()>
    ensures { OnOk result (Appends (W.contents out.old) (W.contents out.new) (contents_text [] octets.now)) }
{
    match octets {
        [_, _, _, _, first, rest @ ..] => writeln!(
            out,
            "octets {}{}",
            Pairs(&[*first]),
            Pairs(rest)
        ),
        _ => Ok(()),
    }
}

/// Prints what stands behind the header of a BVLC-Result, with the name of its code (J.2.1).
pub fn print_result<W: Write>(octets: &[u8], name: Behind<'_>, out: &mut W) -> io::Result<()>
    ensures { OnOk result (Appends (W.contents out.old) (W.contents out.new)
        (contents_text (behind name.entry.spelling (map row_of name.entry.table.now) name.entry.number) octets.now)) }
{
    match octets {
        [_, _, _, _, first, rest @ ..] => writeln!(
            out,
            "octets {}{}{name}",
            Pairs(&[*first]),
            Pairs(rest)
        ),
        _ => Ok(()),
    }
}

/// Prints the control octet of an NPDU (6.2.2).
pub fn print_control<W: Write>(
    spelling: Spelling,
    view: &View<'_>,
    octets: &[u8],
    out: &mut W,
) -> io::Result<()>
    ensures { OnOk result (Appends (W.contents out.old) (W.contents out.new)
        (control_text spelling (header_of view.now) octets.now)) }
{
    match octets {
        [_, control, ..] => {
            let words = ControlWords { spelling, view };
            writeln!(out, "npdu {}{words}", Pairs(&[*control]))
        }
        _ => Ok(()),
    }
}

/// Prints DNET and DADR (6.2.2).
pub fn print_destination<W: Write>(
    spelling: Spelling,
    destination: Option<Destination<'_>>,
    out: &mut W,
) -> io::Result<()>
    ensures { OnOk result (Appends (W.contents out.old) (W.contents out.new)
        (dnet_text spelling (way_of destination.entry))) }
{
    match destination {
        Some(destination) => {
            let Destination { net, mac, .. } = destination;
            let words = ReachWords {
                spelling,
                destination,
            };
            writeln!(out, "dnet {} {}{words}", u16::from(net), Dashed(mac))
        }
        None => Ok(()),
    }
}

/// Prints SNET and SADR (6.2.2).
pub fn print_source<W: Write>(source: Option<Source<'_>>, out: &mut W) -> io::Result<()>
    ensures { OnOk result (Appends (W.contents out.old) (W.contents out.new) (snet_text (sender_of source.entry))) }
{
    match source {
        Some(s) => writeln!(out, "snet {} {}", s.net, Dashed(s.mac)),
        None => Ok(()),
    }
}

/// Prints the hop count (6.2.2.1).
pub fn print_hops<W: Write>(destination: Option<Destination<'_>>, out: &mut W) -> io::Result<()>
    ensures { OnOk result (Appends (W.contents out.old) (W.contents out.new)
        (hops_text (way_of destination.entry))) }
{
    match destination {
        Some(d) => writeln!(out, "hops {}", d.hops),
        None => Ok(()),
    }
}

/// Prints a network message, a vendor's identifier at the head of its octets (6.2.4).
pub fn print_message<W: Write>(
    spelling: Spelling,
    message: Message,
    body: &[u8],
    out: &mut W,
) -> io::Result<()>
    ensures { OnOk result (Appends (W.contents out.old) (W.contents out.new)
        (message_text spelling message body.now)) }
{
    match message {
        Message::Proprietary { kind, vendor } => {
            writeln!(out, "message {kind}")?;
            print_octets(&vendor.to_be_bytes(), body, out)
        }
        message => {
            print_message_type(spelling, message, out)?;
            writeln!(out, "octets {}", Dashed(body))
        }
    }
}

/// Prints the type of a network message (6.2.4).
fn print_message_type<W: Write>(spelling: Spelling, message: Message, out: &mut W) -> io::Result<()>
    ensures { OnOk result (Appends (W.contents out.old) (W.contents out.new)
        (named (codes "message ") spelling network_messages (message_type message))) }
{
    let number = u8::from(message);
    print_named(spelling, "message ", network_messages(), number, out)
}

/// Prints the type of an APDU (20.1).
pub fn print_type<W: Write>(spelling: Spelling, pdu_type: PduType, out: &mut W) -> io::Result<()>
    ensures { OnOk result (Appends (W.contents out.old) (W.contents out.new)
        (named (codes "apdu ") spelling pdu_types (type_number pdu_type))) }
{
    let number = u8::from(pdu_type);
    print_named(spelling, "apdu ", pdu_types(), number, out)
}

/// Prints a field that is a number, with its name in a table.
pub fn print_named<W: Write>(
    spelling: Spelling,
    field: &str,
    table: &[Row],
    number: u8,
    out: &mut W,
) -> io::Result<()>
    ensures { OnOk result (Appends (W.contents out.old) (W.contents out.new)
        (named field.now spelling (map row_of table.now) number)) }
{
    let name = Behind {
        spelling,
        table,
        number: u32::from(number),
    };
    writeln!(out, "{field}{number}{name}")
}

/// Prints octets, and those behind them.
fn print_octets<W: Write>(front: &[u8], behind: &[u8], out: &mut W) -> io::Result<()>
    ensures { OnOk result (Appends (W.contents out.old) (W.contents out.new) (octets_text front.now behind.now)) }
{
    writeln!(out, "octets {}{}", Pairs(front), Pairs(behind))
}

/// Prints the flags and sizes of an APDU, where it has them (20.1).
pub fn print_flags<W: Write>(
    spelling: Spelling,
    apdu: &Apdu<'_>,
    pdu: &[u8],
    out: &mut W,
) -> io::Result<()>
    ensures { OnOk result (Appends (W.contents out.old) (W.contents out.new)
        (flags_text spelling (apdu_of apdu.now) pdu.now)) }
{
    if let [first, second, ..] = pdu {
        if has_flags(apdu) {
            let words = FlagWords {
                spelling,
                apdu: &*apdu,
            };
            writeln!(out, "flags {}{words}", Pairs(&[*first & 15]))?;
        }
        if has_sizes(apdu) {
            let words = SizeWords {
                spelling,
                apdu: &*apdu,
            };
            writeln!(out, "sizes {}{words}", Pairs(&[*second]))?;
        }
    }
    Ok(())
}

/// Whether the low bits of the first octet say something (20.1.2, 20.1.5, 20.1.6, 20.1.9).
fn has_flags(apdu: &Apdu<'_>) -> bool
    ensures { result ≡ has_flags (apdu_of apdu.now) }
{
    matches!(
        apdu.pdu_type(),
        PduType::ConfirmedRequest | PduType::ComplexAck | PduType::SegmentAck | PduType::Abort
    )
}

/// Whether the second octet says what the requester can take (20.1.2.4, 20.1.2.5).
fn has_sizes(apdu: &Apdu<'_>) -> bool
    ensures { result ≡ has_sizes (apdu_of apdu.now) }
{
    matches!(apdu.pdu_type(), PduType::ConfirmedRequest)
}

/// What stands behind the type, invoke ID and service of an Error (20.1.7).
pub fn contents_of_error(octets: &[u8]) -> &[u8]
    ensures { result.now ≡ drop 3 octets.now }
{
    match octets {
        [_, _, _, contents @ ..] => contents,
        _ => &[],
    }
}

/// Prints the invoke ID, and what a segment says of itself (20.1.2.6 to 20.1.2.8).
pub fn print_transaction<W: Write>(
    invoke_id: u8,
    segment: Option<Segment>,
    out: &mut W,
) -> io::Result<()>
    ensures { OnOk result (Appends (W.contents out.old) (W.contents out.new) (transaction_text invoke_id segment)) }
{
    writeln!(out, "invoke {invoke_id}")?;
    if let Some(segment) = segment {
        writeln!(out, "seq {}", segment.sequence_number)?;
        writeln!(out, "window {}", segment.window)?;
    }
    Ok(())
}

/// Prints a SegmentACK (20.1.6).
pub fn print_segment_ack<W: Write>(
    invoke_id: u8,
    sequence_number: u8,
    window: u8,
    out: &mut W,
) -> io::Result<()>
    ensures { OnOk result (Appends (W.contents out.old) (W.contents out.new)
        (segment_ack_text invoke_id sequence_number window)) }
{
    writeln!(out, "invoke {invoke_id}")?;
    writeln!(out, "seq {sequence_number}")?;
    writeln!(out, "window {window}")
}

/// Prints a Reject or an Abort, with the name of its reason in a table (20.1.8, 20.1.9).
pub fn print_reason<W: Write>(
    spelling: Spelling,
    table: &[Row],
    invoke_id: u8,
    reason: u8,
    out: &mut W,
) -> io::Result<()>
    ensures { OnOk result (Appends (W.contents out.old) (W.contents out.new)
        (reason_text spelling (map row_of table.now) invoke_id reason)) }
{
    writeln!(out, "invoke {invoke_id}")?;
    print_named(spelling, "reason ", table, reason, out)
}

/// Prints one tag (20.2.1), with its words.
pub fn print_tag<W: Write>(spelling: Spelling, note: Note<'_>, out: &mut W) -> io::Result<()>
    ensures { OnOk result (Appends (W.contents out.old) (W.contents out.new)
        (tag_line spelling note.entry.parameter note.entry.position (plain_tag note.entry.tag))) }
{
    let words = TagWords { spelling, note };
    let class = class_word(note.tag.class);
    let number = note.tag.number;
    match note.tag.content {
        Content::Null => writeln!(out, "{class} {number} -{words}"),
        Content::Boolean(false) => writeln!(out, "{class} {number} 00{words}"),
        Content::Boolean(true) => writeln!(out, "{class} {number} 01{words}"),
        Content::Octets(octets) => writeln!(out, "{class} {number} {}{words}", Dashed(octets)),
        Content::Opening => writeln!(out, "open {number}"),
        Content::Closing => writeln!(out, "close {number}"),
    }
}

/// The word of a tag's class (20.2.1.1).
fn class_word(class: Class) -> &'static str
    ensures { result.now ≡ class_word class }
{
    match class {
        Class::Application => "application",
        Class::Context => "context",
    }
}
