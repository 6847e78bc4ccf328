//! What a datagram is, in one line, with the standard's names: `ReadProperty integer-value,1 present-value, invoke 1, a
//! reply is expected`, `Who-Is low-limit 1 high-limit 99`,
//! `Error WriteProperty property write-access-denied, invoke 2`.

ghost use Rattle.std.specs.Prelude.{◌≡◌, ◌⊎◌, ◌++◌, ◌∷◌, [], true, false, IfOk, IfNone, IfSome, OnOk, Some, map};
ghost use Rattle.std.specs.Fmt.{WritesOnOk};
ghost use Rattle.std.specs.Io.KnownBytes.{Appends};
ghost use Rattle.apdu.specs.Apdu.{apdu_of};
ghost use Rattle.bvll.specs.Datagram.{datagram_of};
ghost use Rattle.names.specs.Names.{name_in};
ghost use Rattle.names.specs.Tables.{row_of};
ghost use Rattle.parameters.specs.Position.{start};
ghost use Rattle.tags.specs.Tag.{NoTag, TakesTag, plain_tag};
ghost use Rattle.console.specs.Summary as spec;
ghost use Rattle.console.specs.Summary.{PrintsLine, PrintsNpduLine, PrintsGist, PrintsParts, SumsUp, SumsUpApdu};
ghost use Rattle.console.specs.Summary.{SumsUpBody, SumsUpNpdu, called, confirmed_name, head, message_name};
ghost use Rattle.console.specs.Summary.{which_segment, message_networks, networks, reply_text, tail, unconfirmed_name};

use crate::stop::Stop;
use apdu::{Apdu, PduType, Segment};
use bvll::Bvll;
use header_lines::contents_of_error;
use names::{
    abort_reasons, bvll_functions, bvll_results, confirmed_services, name_in, network_messages,
    reject_reasons, unconfirmed_services,
};
use npdu::{Message, View};
use parameters::{Known, Note, Position, Row, production};
use printing::{Named, Spelling};
use std::io::Write;
use std::{fmt, io};
use tags::{Reader, Tag};

/// Prints what a datagram of BACnet/IP is, on a line (J.2); nothing where its header is refused. Answers whether no
/// header is refused.
pub(crate) fn print_line<W: Write>(octets: &[u8], out: &mut W) -> io::Result<bool>
    ensures { IfOk result (λ is_read. is_read ≡ true
        → PrintsLine octets.now (W.contents out.old) (W.contents out.new)) }
{
    match Bvll::read(octets) {
        Ok(bvll) => match print_datagram(bvll, out) {
            Ok(()) => end_line(out),
            Err(stop) => end_refused(stop, out),
        },
        Err(_) => Ok(false),
    }
}

/// Prints what an NPDU carries, on a line. Answers whether no header is refused.
pub(crate) fn print_npdu_line<W: Write>(octets: &[u8], out: &mut W) -> io::Result<bool>
    ensures { IfOk result (λ is_read. is_read ≡ true
        → PrintsNpduLine octets.now (W.contents out.old) (W.contents out.new)) }
{
    match print_npdu(octets, out) {
        Ok(()) => end_line(out),
        Err(stop) => end_refused(stop, out),
    }
}

/// Ends a line.
fn end_line<W: Write>(out: &mut W) -> io::Result<bool>
    ensures { OnOk result (Appends (W.contents out.old) (W.contents out.new) (10 ∷ [])) }
{
    writeln!(out)?;
    Ok(true)
}

/// Ends the line of what is refused.
fn end_refused<W: Write>(stop: Stop, out: &mut W) -> io::Result<bool>
    ensures { IfOk result (λ is_read. is_read ≡ false) }
{
    match stop {
        Stop::Refused(_) => {
            writeln!(out)?;
            Ok(false)
        }
        Stop::Unwritten(error) => Err(error),
    }
}

/// Prints what a datagram is (J.2).
fn print_datagram<W: Write>(bvll: Bvll<'_>, out: &mut W) -> Result<(), Stop>
    ensures { OnOk result (SumsUp (datagram_of bvll.entry) (W.contents out.old) (W.contents out.new)) }
{
    let spelling = Spelling::Names;
    let name = Named {
        spelling,
        table: bvll_functions(),
        number: u32::from(u8::from(bvll.function())),
    };
    match bvll {
        Bvll::OriginalUnicastNpdu(npdu) | Bvll::OriginalBroadcastNpdu(npdu) => {
            print_npdu(npdu, out)
        }
        Bvll::ForwardedNpdu { npdu, .. } | Bvll::DistributeBroadcastToNetwork(npdu) => {
            write!(out, "{name}: ")?;
            print_npdu(npdu, out)
        }
        Bvll::Result(code) => {
            let code = Named {
                spelling,
                table: bvll_results(),
                number: u32::from(u16::from(code)),
            };
            Ok(write!(out, "{name} {code}")?)
        }
        Bvll::RegisterForeignDevice { seconds_to_live } => {
            Ok(write!(out, "{name} for {seconds_to_live} s")?)
        }
        Bvll::WriteBroadcastDistributionTable(_)
        | Bvll::ReadBroadcastDistributionTable
        | Bvll::ReadBroadcastDistributionTableAck(_)
        | Bvll::ReadForeignDeviceTable
        | Bvll::ReadForeignDeviceTableAck(_)
        | Bvll::DeleteForeignDeviceTableEntry(_) => Ok(write!(out, "{name}")?),
    }
}

/// Prints what an NPDU carries (6.2).
fn print_npdu<W: Write>(octets: &[u8], out: &mut W) -> Result<(), Stop>
    ensures { OnOk result (SumsUpNpdu octets.now (W.contents out.old) (W.contents out.new)) }
{
    match View::read(octets) {
        Ok(view) => print_body(&view, out),
        Err(fault) => {
            write!(out, "an NPDU that is refused")?;
            Err(Stop::Refused(fault))
        }
    }
}

/// Prints what stands behind a header (6.2.4).
fn print_body<W: Write>(view: &View<'_>, out: &mut W) -> Result<(), Stop>
    ensures { OnOk result (SumsUpBody view.now.expects_reply view.now.message view.now.body.now
        (W.contents out.old) (W.contents out.new)) }
{
    match view.message {
        Some(message) => Ok(print_message(message, view.body, out)?),
        None => print_apdu(view.expects_reply, view.body, out),
    }
}

/// Prints what a network message is, and the networks that it names (6.4).
#[tactic(auto, using(crate::proofs::ExplainLaws::line_rules))]
fn print_message<W: Write>(message: Message, body: &[u8], out: &mut W) -> io::Result<()>
    ensures { OnOk result (Appends (W.contents out.old) (W.contents out.new)
        (message_name message ++ message_networks message body.now)) }
{
    write!(out, "{}", MessageName(message))?;
    print_message_networks(message, body, out)
}

/// The name of a network message (6.2.4).
#[derive(Clone, Copy)]
struct MessageName(Message);

impl fmt::Display for MessageName {
    ghost output = { λ m. Some (message_name m.0) };

    #[tactic(auto, unfolding(crate::specs::Summary::message_name))]
    fn fmt<W: fmt::Write>(&self, f: &mut fmt::Formatter<W>) -> fmt::Result {
        match self.0 {
            Message::Proprietary { kind, vendor } => {
                write!(f, "network message {kind} of vendor {vendor}")
            }
            message => fmt_called("network message ", network_messages(), u8::from(message), f),
        }
    }
}

/// Prints a name, or a word and the number.
fn fmt_called<W: fmt::Write>(
    word: &str,
    table: &[names::Row],
    number: u8,
    f: &mut fmt::Formatter<W>,
) -> fmt::Result
    ensures { WritesOnOk W.write_str_gives f.old result
        (called word.now (name_in (map row_of table.now) number) number) f.new }
{
    match name_in(table, u32::from(number)) {
        Some(name) => f.write_str(name),
        None => write!(f, "{word}{number}"),
    }
}

/// Prints the networks that a network message names, and the reason of a Reject-Message-To-Network (6.4.4).
#[tactic(auto, using(crate::proofs::ExplainLaws::line_rules), unfolding(crate::specs::Summary::message_networks))]
fn print_message_networks<W: Write>(message: Message, body: &[u8], out: &mut W) -> io::Result<()>
    ensures { OnOk result (Appends (W.contents out.old) (W.contents out.new) (message_networks message body.now)) }
{
    match (message, body) {
        (Message::WhoIsRouterToNetwork | Message::IAmRouterToNetwork, _) => {
            print_networks(body, out)
        }
        (Message::RejectMessageToNetwork, [reason, networks @ ..]) => {
            print_networks(networks, out)?;
            write!(out, ", reason {reason}")
        }
        (Message::RejectMessageToNetwork | Message::Other(_) | Message::Proprietary { .. }, _) =>
            Ok(()),
    }
}

/// Prints networks by their numbers, two octets each.
#[tactic(auto, using(crate::proofs::ExplainLaws::network_rules))]
fn print_networks<W: Write>(octets: &[u8], out: &mut W) -> io::Result<()>
    ensures { OnOk result (Appends (W.contents out.old) (W.contents out.new) (networks octets.now)) }
{
    let mut left = octets;
    while let [high, low, rest @ ..] = left {
        write!(out, " {}", u16::from(*high) * 256 + u16::from(*low))?;
        left = rest;
    }
    Ok(())
}

/// Prints what an APDU is (20.1).
fn print_apdu<W: Write>(is_reply_expected: bool, octets: &[u8], out: &mut W) -> Result<(), Stop>
    ensures { OnOk result (SumsUpApdu is_reply_expected octets.now (W.contents out.old) (W.contents out.new)) }
{
    match Apdu::read(octets) {
        Ok(apdu) => Ok(print_parts(is_reply_expected, &apdu, octets, out)?),
        Err(fault) => {
            write!(out, "an APDU that is refused")?;
            Err(Stop::Refused(fault))
        }
    }
}

/// Prints what an APDU is, what its tags say, and how it is known again.
fn print_parts<'a, W: Write>(
    is_reply_expected: bool,
    apdu: &Apdu<'a>,
    octets: &'a [u8],
    out: &mut W,
) -> io::Result<()>
    ensures { OnOk result (PrintsParts is_reply_expected (apdu_of apdu.now) octets.entry.now
        (W.contents out.old) (W.contents out.new)) }
{
    write!(out, "{}", Head(&*apdu))?;
    print_gist(rows_of(apdu), data_of(apdu, octets), out)?;
    let tail = Tail {
        apdu: &*apdu,
        is_reply_expected,
    };
    write!(out, "{tail}")
}

/// What an APDU is.
#[derive(Clone, Copy)]
struct Head<'a>(&'a Apdu<'a>);

impl fmt::Display for Head<'_> {
    ghost output = { λ h. Some (head (apdu_of h.0.now)) };

    #[tactic(auto, unfolding(crate::specs::Summary::head))]
    fn fmt<W: fmt::Write>(&self, f: &mut fmt::Formatter<W>) -> fmt::Result {
        match self.0 {
            Apdu::ConfirmedRequest { service, .. } => write!(f, "{}", Confirmed(*service)),
            Apdu::UnconfirmedRequest { service, .. } => write!(f, "{}", Unconfirmed(*service)),
            Apdu::SimpleAck { service, .. } => write!(f, "SimpleACK {}", Confirmed(*service)),
            Apdu::ComplexAck { service, .. } => write!(f, "ComplexACK {}", Confirmed(*service)),
            Apdu::SegmentAck { negative: true, .. } => f.write_str("negative SegmentACK"),
            Apdu::SegmentAck {
                negative: false,
                ..
            } => f.write_str("SegmentACK"),
            Apdu::Error { service, .. } => write!(f, "Error {}", Confirmed(*service)),
            Apdu::Reject { reason, .. } => {
                let reason = Named {
                    spelling: Spelling::Names,
                    table: reject_reasons(),
                    number: u32::from(u8::from(*reason)),
                };
                write!(f, "Reject {reason}")
            }
            Apdu::Abort { reason, .. } => {
                let reason = Named {
                    spelling: Spelling::Names,
                    table: abort_reasons(),
                    number: u32::from(u8::from(*reason)),
                };
                write!(f, "Abort {reason}")
            }
        }
    }
}

/// A confirmed service (15).
#[derive(Clone, Copy)]
struct Confirmed(u8);

impl fmt::Display for Confirmed {
    ghost output = { λ c. Some (confirmed_name c.0) };

    #[tactic(auto, unfolding(crate::specs::Summary::confirmed_name))]
    fn fmt<W: fmt::Write>(&self, f: &mut fmt::Formatter<W>) -> fmt::Result {
        fmt_called("service ", confirmed_services(), self.0, f)
    }
}

/// An unconfirmed service (16).
#[derive(Clone, Copy)]
struct Unconfirmed(u8);

impl fmt::Display for Unconfirmed {
    ghost output = { λ u. Some (unconfirmed_name u.0) };

    #[tactic(auto, unfolding(crate::specs::Summary::unconfirmed_name))]
    fn fmt<W: fmt::Write>(&self, f: &mut fmt::Formatter<W>) -> fmt::Result {
        fmt_called("unconfirmed service ", unconfirmed_services(), self.0, f)
    }
}

/// How an APDU is known again, and whether its sender waits for a reply (6.2.2).
#[derive(Clone, Copy)]
struct Tail<'a> {
    apdu: &'a Apdu<'a>,
    is_reply_expected: bool,
}

impl fmt::Display for Tail<'_> {
    ghost output = { λ t. Some (tail (apdu_of t.apdu.now) ++ reply_text t.is_reply_expected) };

    fn fmt<W: fmt::Write>(&self, f: &mut fmt::Formatter<W>) -> fmt::Result {
        fmt_tail(self.apdu, f)?;
        fmt_reply(self.is_reply_expected, f)
    }
}

/// Prints whether a sender waits for a reply.
fn fmt_reply<W: fmt::Write>(is_expected: bool, f: &mut fmt::Formatter<W>) -> fmt::Result
    ensures { WritesOnOk W.write_str_gives f.old result (reply_text is_expected) f.new }
{
    if is_expected {
        return f.write_str(", a reply is expected");
    }
    Ok(())
}

/// Prints how an APDU is known again.
#[tactic(auto, unfolding(crate::specs::Summary::tail))]
fn fmt_tail<W: fmt::Write>(apdu: &Apdu<'_>, f: &mut fmt::Formatter<W>) -> fmt::Result
    ensures { WritesOnOk W.write_str_gives f.old result (tail (apdu_of apdu.now)) f.new }
{
    match apdu {
        Apdu::ConfirmedRequest {
            segment,
            invoke_id,
            ..
        }
        | Apdu::ComplexAck {
            segment,
            invoke_id,
            ..
        } => {
            write!(f, ", invoke {invoke_id}")?;
            fmt_segment(*segment, f)
        }
        Apdu::UnconfirmedRequest { .. } => Ok(()),
        Apdu::SegmentAck {
            invoke_id,
            sequence_number,
            window,
            ..
        } => write!(
            f,
            ", invoke {invoke_id}, segment {sequence_number}, window {window}"
        ),
        Apdu::SimpleAck { invoke_id, .. }
        | Apdu::Error { invoke_id, .. }
        | Apdu::Reject { invoke_id, .. }
        | Apdu::Abort { invoke_id, .. } => write!(f, ", invoke {invoke_id}"),
    }
}

/// Prints which segment it is (20.1.2.2, 20.1.2.7).
fn fmt_segment<W: fmt::Write>(segment: Option<Segment>, f: &mut fmt::Formatter<W>) -> fmt::Result
    ensures { WritesOnOk W.write_str_gives f.old result (which_segment segment) f.new }
{
    let Some(segment) = segment else {
        return Ok(());
    };
    let number = segment.sequence_number;
    if segment.more_follows {
        write!(f, ", segment {number}, more follow")
    } else {
        write!(f, ", segment {number}, the last")
    }
}

/// The data of an APDU, which are tags.
fn data_of<'a>(apdu: &Apdu<'a>, octets: &'a [u8]) -> &'a [u8]
    ensures { result.now ≡ spec.data_of (apdu_of apdu.now) octets.entry.now }
{
    match apdu {
        Apdu::ConfirmedRequest { data, .. }
        | Apdu::UnconfirmedRequest { data, .. }
        | Apdu::ComplexAck { data, .. } => data,
        Apdu::Error { .. } => contents_of_error(octets),
        Apdu::SimpleAck { .. }
        | Apdu::SegmentAck { .. }
        | Apdu::Reject { .. }
        | Apdu::Abort { .. } => &[],
    }
}

/// The parameters of an APDU's data.
fn rows_of(apdu: &Apdu<'_>) -> &'static [Row]
    ensures { result.now ≡ spec.rows_of (apdu_of apdu.now) }
{
    match apdu {
        Apdu::ConfirmedRequest {
            segment,
            service,
            ..
        } => rows_from(*segment, PduType::ConfirmedRequest, *service),
        Apdu::UnconfirmedRequest { service, .. } => {
            production(PduType::UnconfirmedRequest, *service)
        }
        Apdu::ComplexAck {
            segment,
            service,
            ..
        } => rows_from(*segment, PduType::ComplexAck, *service),
        Apdu::Error { service, .. } => production(PduType::Error, *service),
        Apdu::SimpleAck { .. }
        | Apdu::SegmentAck { .. }
        | Apdu::Reject { .. }
        | Apdu::Abort { .. } => &[],
    }
}

/// The parameters of data, or of those of the first segment; of the others they aren't known.
#[tactic(auto, unfolding(crate::specs::Summary::rows_from))]
pub(crate) fn rows_from(segment: Option<Segment>, pdu_type: PduType, service: u8) -> &'static [Row]
    ensures { result.now ≡ spec.rows_from segment pdu_type service }
{
    match segment {
        None => production(pdu_type, service),
        Some(segment) => {
            if segment.sequence_number == 0 {
                production(pdu_type, service)
            } else {
                &[]
            }
        }
    }
}

/// Prints the words of the tags of octets, of all up to one that is refused (20.2.1).
#[tactic(auto, using(crate::proofs::ExplainLaws::gist_rules))]
fn print_gist<W: Write>(rows: &[Row], octets: &[u8], out: &mut W) -> io::Result<()>
    ensures { OnOk result (PrintsGist rows.now start octets.now (W.contents out.old) (W.contents out.new)) }
{
    let mut reader = Reader::new(octets);
    let mut position = Position::start();
    while let Some(tag) = next_tag(&mut reader) {
        let parameter = position.parameter(rows, &tag);
        let note = Note {
            parameter,
            position,
            tag,
        };
        write!(out, "{}", Known(note))?;
        position = position.behind(parameter, &tag);
    }
    Ok(())
}

/// The next tag, if none is refused.
fn next_tag<'a>(reader: &mut Reader<'a>) -> Option<Tag<'a>>
    ensures read { IfSome result (λ tag. TakesTag reader.old (plain_tag tag) reader.new) }
    ensures end { IfNone result ((reader.old ≡ []) ⊎ NoTag reader.old) }
{
    match reader.next() {
        Ok(tag) => tag,
        Err(_) => None,
    }
}
