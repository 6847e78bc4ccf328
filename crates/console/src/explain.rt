//! `bacsite explain`: one datagram taken apart, header by header and tag by tag, and with names behind a line that says
//! what it is.

ghost use Rattle.std.specs.Prelude.{◌≡◌, ◌≤◌, true, false, None, IfOk, OnOk, map, string_bytes};
ghost use Rattle.bvll.specs.Datagram.{datagram_of};
ghost use Rattle.npdu.specs.Header.{header_of};
ghost use Rattle.apdu.specs.Apdu.{apdu_of};
ghost use Rattle.names.specs.Headers.{confirmed_services};
ghost use Rattle.names.specs.Tables.{row_of};
ghost use Rattle.parameters.specs.Position.{start};
ghost use Rattle.console.specs.Answer.{text_of};
ghost use Rattle.console.specs.Explain.{PrintsTags, PrintsService, PrintsCall, PrintsFields, ExplainsApdu};
ghost use Rattle.console.specs.Explain.{PrintsAddresses, ExplainsNpdu, ExplainsForwarded, ExplainsRest};
ghost use Rattle.console.specs.Explain.{ExplainsDatagram, Explains, ExplainsCarried, PrintsExplained};

use crate::refusal::say_failed;
use crate::stop::Stop;
use crate::summary::{print_line, print_npdu_line, rows_from};
use apdu::{Apdu, PduType, Segment};
use bvll::Bvll;
use header_lines::{
    Behind, Dashed, Pairs, contents_of_error, print_contents, print_control, print_destination,
    print_flags, print_hops, print_message, print_named, print_reason, print_result,
    print_segment_ack, print_source, print_tag, print_transaction, print_type,
};
use names::{
    abort_reasons, bvll_functions, bvll_results, confirmed_services, reject_reasons,
    unconfirmed_services,
};
use npdu::View;
use octet_texts::read_octets;
use parameters::{Note, Position, Row, production};
use printing::Spelling;
use std::alloc::Allocator;
use std::io;
use std::io::Write;
use tags::Reader;

/// What the words of a datagram may be.
const EXPECTED: &str =
    "expected octets as 810A0011, 81 0A 00 11, 81:0a:00:11 or 0x81, 0x0a, or a hex dump";

/// Prints the fields and tags of the datagram that the words say in hexadecimal digits, each on a line of its own, and
/// last the refusal where there is one; with names, after a line that says what the datagram is. The digits stand in
/// pairs, in a list as `81:0a` or `0x81, 0x0a`, or in the lines of a hex dump. Returns the exit status: 1 for faulty
/// digits, octets that are refused, a failed write or want of memory, and else 0.
pub fn explain_line<A: Allocator + Copy, W: Write, E: Write>(
    alloc: A,
    spelling: Spelling,
    words: &[String],
    out: &mut W,
    err: &mut E,
) -> u8
    ensures status { result ≤ 1 }
    ensures explained { result ≡ 0
        → PrintsExplained spelling (text_of (map string_bytes words.now)) (W.contents out.old) (W.contents out.new) }
{
    match explain(alloc, spelling, words, out, err) {
        Ok(status) => status,
        Err(error) => say_failed(&error, err),
    }
}

fn explain<A: Allocator + Copy, W: Write, E: Write>(
    alloc: A,
    spelling: Spelling,
    words: &[String],
    out: &mut W,
    err: &mut E,
) -> io::Result<u8>
    ensures status { IfOk result (λ status. status ≤ 1) }
    ensures explained { IfOk result (λ status. status ≡ 0
        → PrintsExplained spelling (text_of (map string_bytes words.now)) (W.contents out.old) (W.contents out.new)) }
{
    let Some(datagram) = read_octets(alloc, words)? else {
        writeln!(err, "bacsite: hex\n{EXPECTED}")?;
        return Ok(1);
    };
    let is_whole = explain_datagram(spelling, datagram.as_slice(), out)?;
    Ok(if is_whole { 0 } else { 1 })
}

/// Prints the fields and tags of a datagram of BACnet/IP (J.2), each on a line of its own, and last the refusal where
/// there is one; with names behind a line that says what it is. Answers whether nothing is refused.
///
/// # Errors
/// Those of writing.
pub fn explain_datagram<W: Write>(
    spelling: Spelling,
    octets: &[u8],
    out: &mut W,
) -> io::Result<bool>
    ensures { IfOk result (λ is_whole. is_whole ≡ true
        → Explains spelling octets.now (W.contents out.old) (W.contents out.new)) }
{
    match spelling {
        Spelling::Numbers => explain_fields(spelling, octets, out),
        Spelling::Names => {
            let is_read = print_line(octets, out)?;
            Ok(explain_fields(spelling, octets, out)? && is_read)
        }
    }
}

/// Prints the fields and tags of a datagram, and last the refusal where there is one.
fn explain_fields<W: Write>(spelling: Spelling, octets: &[u8], out: &mut W) -> io::Result<bool>
    ensures { IfOk result (λ is_whole. is_whole ≡ true
        → ExplainsDatagram spelling octets.now (W.contents out.old) (W.contents out.new)) }
{
    match print_datagram(spelling, octets, out) {
        Ok(()) => Ok(true),
        Err(stop) => say_stop(stop, out),
    }
}

/// Prints the fields and tags of an NPDU (6.2) in the same way.
///
/// # Errors
/// Those of writing.
pub fn explain_npdu<W: Write>(spelling: Spelling, octets: &[u8], out: &mut W) -> io::Result<bool>
    ensures { IfOk result (λ is_whole. is_whole ≡ true
        → ExplainsCarried spelling octets.now (W.contents out.old) (W.contents out.new)) }
{
    match spelling {
        Spelling::Numbers => explain_npdu_fields(spelling, octets, out),
        Spelling::Names => {
            let is_read = print_npdu_line(octets, out)?;
            Ok(explain_npdu_fields(spelling, octets, out)? && is_read)
        }
    }
}

/// Prints the fields and tags of an NPDU, and last the refusal where there is one.
fn explain_npdu_fields<W: Write>(spelling: Spelling, octets: &[u8], out: &mut W) -> io::Result<bool>
    ensures { IfOk result (λ is_whole. is_whole ≡ true
        → ExplainsNpdu spelling octets.now (W.contents out.old) (W.contents out.new)) }
{
    match print_npdu(spelling, octets, out) {
        Ok(()) => Ok(true),
        Err(stop) => say_stop(stop, out),
    }
}

/// Prints the refusal of what is left, and answers that there is one.
fn say_stop<W: Write>(stop: Stop, out: &mut W) -> io::Result<bool>
    ensures { IfOk result (λ is_whole. is_whole ≡ false) }
{
    match stop {
        Stop::Refused(fault) => {
            writeln!(out, "refused {} {fault}", u8::from(fault))?;
            Ok(false)
        }
        Stop::Unwritten(error) => Err(error),
    }
}

/// Prints a datagram of BACnet/IP (J.2).
fn print_datagram<W: Write>(spelling: Spelling, octets: &[u8], out: &mut W) -> Result<(), Stop>
    ensures { OnOk result (ExplainsDatagram spelling octets.now (W.contents out.old) (W.contents out.new)) }
{
    let datagram = Bvll::read(octets)?;
    let function = u8::from(datagram.function());
    let name = Behind {
        spelling,
        table: bvll_functions(),
        number: u32::from(function),
    };
    writeln!(out, "bvll {} {}{name}", Pairs(&[function]), octets.len())?;
    print_carried(spelling, datagram, octets, out)
}

/// Prints what a datagram carries (J.2).
fn print_carried<W: Write>(
    spelling: Spelling,
    bvll: Bvll<'_>,
    octets: &[u8],
    out: &mut W,
) -> Result<(), Stop>
    ensures { OnOk result (ExplainsRest spelling (datagram_of bvll.entry) octets.now
        (W.contents out.old) (W.contents out.new)) }
{
    match bvll {
        Bvll::ForwardedNpdu { origin, npdu } => {
            print_forwarded(spelling, &origin.to_octets(), npdu, out)
        }
        Bvll::DistributeBroadcastToNetwork(npdu)
        | Bvll::OriginalUnicastNpdu(npdu)
        | Bvll::OriginalBroadcastNpdu(npdu) => print_npdu(spelling, npdu, out),
        Bvll::Result(code) => {
            let name = Behind {
                spelling,
                table: bvll_results(),
                number: u32::from(u16::from(code)),
            };
            Ok(print_result(octets, name, out)?)
        }
        Bvll::WriteBroadcastDistributionTable(_)
        | Bvll::ReadBroadcastDistributionTable
        | Bvll::ReadBroadcastDistributionTableAck(_)
        | Bvll::RegisterForeignDevice { .. }
        | Bvll::ReadForeignDeviceTable
        | Bvll::ReadForeignDeviceTableAck(_)
        | Bvll::DeleteForeignDeviceTableEntry(_) => Ok(print_contents(octets, out)?),
    }
}

/// Prints the NPDU of a Forwarded-NPDU behind its origin (J.2.5).
fn print_forwarded<W: Write>(
    spelling: Spelling,
    origin: &[u8],
    npdu: &[u8],
    out: &mut W,
) -> Result<(), Stop>
    ensures { OnOk result (ExplainsForwarded spelling origin.now npdu.now (W.contents out.old) (W.contents out.new)) }
{
    writeln!(out, "origin {}", Dashed(origin))?;
    print_npdu(spelling, npdu, out)
}

/// Prints an NPDU (6.2).
fn print_npdu<W: Write>(spelling: Spelling, octets: &[u8], out: &mut W) -> Result<(), Stop>
    ensures { OnOk result (ExplainsNpdu spelling octets.now (W.contents out.old) (W.contents out.new)) }
{
    let view = View::read(octets)?;
    print_control(spelling, &view, octets, out)?;
    print_addresses(spelling, &view, out)?;
    match view.message {
        Some(message) => Ok(print_message(spelling, message, view.body, out)?),
        None => print_apdu(spelling, view.body, out),
    }
}

/// Prints the addresses of a header (6.2.2).
fn print_addresses<W: Write>(spelling: Spelling, view: &View<'_>, out: &mut W) -> io::Result<()>
    ensures { OnOk result (PrintsAddresses spelling (header_of view.now) (W.contents out.old) (W.contents out.new)) }
{
    print_destination(spelling, view.destination, out)?;
    print_source(view.source, out)?;
    print_hops(view.destination, out)
}

/// Prints an APDU (20.1).
fn print_apdu<W: Write>(spelling: Spelling, octets: &[u8], out: &mut W) -> Result<(), Stop>
    ensures { OnOk result (ExplainsApdu spelling octets.now (W.contents out.old) (W.contents out.new)) }
{
    let apdu = Apdu::read(octets)?;
    print_type(spelling, apdu.pdu_type(), out)?;
    print_flags(spelling, &apdu, octets, out)?;
    print_fields(spelling, apdu, octets, out)
}

/// Prints what stands behind the flags and sizes of an APDU (20.1).
fn print_fields<W: Write>(
    spelling: Spelling,
    apdu: Apdu<'_>,
    octets: &[u8],
    out: &mut W,
) -> Result<(), Stop>
    ensures { OnOk result (PrintsFields spelling (apdu_of apdu.entry) octets.now
        (W.contents out.old) (W.contents out.new)) }
{
    match apdu {
        Apdu::ConfirmedRequest {
            segment,
            invoke_id,
            service,
            data,
            ..
        } => {
            let rows = rows_from(segment, PduType::ConfirmedRequest, service);
            print_call(spelling, rows, invoke_id, segment, service, data, out)
        }
        Apdu::ComplexAck {
            segment,
            invoke_id,
            service,
            data,
        } => {
            let rows = rows_from(segment, PduType::ComplexAck, service);
            print_call(spelling, rows, invoke_id, segment, service, data, out)
        }
        Apdu::UnconfirmedRequest { service, data } => {
            let rows = production(PduType::UnconfirmedRequest, service);
            print_service(spelling, unconfirmed_services(), rows, service, data, out)
        }
        Apdu::SimpleAck { invoke_id, service } => {
            print_call(spelling, &[], invoke_id, None, service, &[], out)
        }
        Apdu::SegmentAck {
            invoke_id,
            sequence_number,
            window,
            ..
        } => Ok(print_segment_ack(invoke_id, sequence_number, window, out)?),
        Apdu::Error {
            invoke_id,
            service,
            ..
        } => {
            let rows = production(PduType::Error, service);
            let contents = contents_of_error(octets);
            print_call(spelling, rows, invoke_id, None, service, contents, out)
        }
        Apdu::Reject { invoke_id, reason } => {
            Ok(print_reason(spelling, reject_reasons(), invoke_id, u8::from(reason), out)?)
        }
        Apdu::Abort {
            invoke_id,
            reason,
            ..
        } => Ok(print_reason(spelling, abort_reasons(), invoke_id, u8::from(reason), out)?),
    }
}

/// Prints the invoke ID and what a segment says of itself, and then the service.
fn print_call<W: Write>(
    spelling: Spelling,
    rows: &[Row],
    invoke_id: u8,
    segment: Option<Segment>,
    service: u8,
    body: &[u8],
    out: &mut W,
) -> Result<(), Stop>
    ensures { OnOk result (PrintsCall spelling rows.now (invoke_id, segment) service body.now
        (W.contents out.old) (W.contents out.new)) }
{
    print_transaction(invoke_id, segment, out)?;
    print_service(spelling, confirmed_services(), rows, service, body, out)
}

/// Prints a service's number with its name in a table, and the tags of what stands behind it.
fn print_service<W: Write>(
    spelling: Spelling,
    table: &[names::Row],
    rows: &[Row],
    service: u8,
    octets: &[u8],
    out: &mut W,
) -> Result<(), Stop>
    ensures { OnOk result (PrintsService spelling (map row_of table.now, rows.now) service octets.now
        (W.contents out.old) (W.contents out.new)) }
{
    print_named(spelling, "service ", table, service, out)?;
    print_tags(spelling, rows, octets, out)
}

/// Prints tags, up to the first that is refused (20.2.1).
fn print_tags<W: Write>(
    spelling: Spelling,
    rows: &[Row],
    octets: &[u8],
    out: &mut W,
) -> Result<(), Stop>
    ensures { OnOk result (PrintsTags spelling rows.now start octets.now (W.contents out.old) (W.contents out.new)) }
{
    let mut reader = Reader::new(octets);
    let mut position = Position::start();
    while let Some(tag) = reader.next()? {
        let parameter = position.parameter(rows, &tag);
        let note = Note {
            parameter,
            position,
            tag,
        };
        print_tag(spelling, note, out)?;
        position = position.behind(parameter, &tag);
    }
    Ok(())
}
