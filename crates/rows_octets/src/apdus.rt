//! APDUs (clause 20.1), as `ConfirmedRequest accepts segments SixtyFour UpTo1476 invoke 1 service 12 ..`,
//! and written again.

use apdu::{Apdu, Segment, ServiceError};
use primitives::PropertyReference;
use sheets::{
    Counts, Given, Stop, Trial, buffer, differs, push_octets, refusal, run_octets, with_written,
};
use std::alloc::AllocError;
use words::Words;

/// Octets that an APDU is read from, and that are written of it.
struct Apdus;

impl<'a> Trial<'a> for Apdus {
    fn answer(&self, given: Given<'a>, octets: &[u8]) -> Result<String, Stop> {
        let apdu = match Apdu::read(octets) {
            Ok(apdu) => apdu,
            Err(fault) => return refusal(given.alloc, fault),
        };
        if !apdu.is_sound() {
            return Err(differs(given.alloc, "an APDU without a spelling"));
        }
        let mut text = String::new(given.alloc);
        push_apdu(&apdu, &mut text)?;
        let mut out = buffer(given)?;
        let came = apdu.write(&mut out);
        with_written(given, octets, came, out.as_slice(), text)
    }
}

/// Runs a row of an APDU.
pub(crate) fn run(given: Given<'_>, asked: &str, wanted: &str) -> Result<Counts, Stop> {
    run_octets(given, &Apdus, asked, wanted)
}

/// Appends an APDU in words.
fn push_apdu(apdu: &Apdu<'_>, out: &mut String) -> Result<(), AllocError> {
    write!(out, "{:?}", apdu.pdu_type())?;
    match apdu {
        Apdu::ConfirmedRequest {
            segment,
            segmented_response_accepted,
            max_segments,
            max_apdu,
            invoke_id,
            service,
            data,
        } => {
            push_segment(*segment, out)?;
            push_flag(*segmented_response_accepted, " accepts", out)?;
            write!(out, " segments {max_segments:?} {max_apdu:?}")?;
            push_service(*invoke_id, *service, out)?;
            push_data(data, out)
        }
        Apdu::UnconfirmedRequest { service, data } => {
            write!(out, " service {service}")?;
            push_data(data, out)
        }
        Apdu::SimpleAck { invoke_id, service } => push_service(*invoke_id, *service, out),
        Apdu::ComplexAck {
            segment,
            invoke_id,
            service,
            data,
        } => {
            push_segment(*segment, out)?;
            push_service(*invoke_id, *service, out)?;
            push_data(data, out)
        }
        _ => push_end(apdu, out),
    }
}

/// Appends an APDU of those by which a transaction goes on or ends.
fn push_end(apdu: &Apdu<'_>, out: &mut String) -> Result<(), AllocError> {
    match apdu {
        Apdu::SegmentAck {
            negative,
            server,
            invoke_id,
            sequence_number,
            window,
        } => {
            push_flag(*negative, " negative", out)?;
            push_flag(*server, " server", out)?;
            write!(
                out,
                " invoke {invoke_id} seq {sequence_number} window {window}"
            )
        }
        Apdu::Error {
            invoke_id,
            service,
            error,
        } => {
            push_service(*invoke_id, *service, out)?;
            push_error(error, out)
        }
        Apdu::Reject { invoke_id, reason } => {
            write!(out, " invoke {invoke_id} reason {}", u8::from(*reason))
        }
        Apdu::Abort {
            server,
            invoke_id,
            reason,
        } => {
            push_flag(*server, " server", out)?;
            write!(out, " invoke {invoke_id} reason {}", u8::from(*reason))
        }
        _ => Ok(()),
    }
}

/// Appends a word where it holds.
fn push_flag(holds: bool, word: &str, out: &mut String) -> Result<(), AllocError> {
    if holds {
        out.push_str(word)?;
    }
    Ok(())
}

/// Appends what a segment says of itself.
fn push_segment(segment: Option<Segment>, out: &mut String) -> Result<(), AllocError> {
    let Some(segment) = segment else {
        return Ok(());
    };
    write!(
        out,
        " seq {} window {}",
        segment.sequence_number, segment.window
    )?;
    push_flag(segment.more_follows, " more", out)
}

/// Appends the invoke ID and the service.
fn push_service(invoke_id: u8, service: u8, out: &mut String) -> Result<(), AllocError> {
    write!(out, " invoke {invoke_id} service {service}")
}

/// Appends service data.
fn push_data(data: &[u8], out: &mut String) -> Result<(), AllocError> {
    out.push_str(" data ")?;
    push_octets(data, out)
}

/// Appends why a service failed.
fn push_error(error: &ServiceError, out: &mut String) -> Result<(), AllocError> {
    write!(
        out,
        " error {} {}",
        u32::from(error.class),
        u32::from(error.code)
    )?;
    let Some(failed) = error.first_failed else {
        return Ok(());
    };
    let reference = PropertyReference {
        property: failed.property,
        index: failed.index,
    };
    write!(out, " at {} {}", Words(&failed.object), Words(&reference))
}
