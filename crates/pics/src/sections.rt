//! The sections of a statement that are counts, sizes and times of the profile, and what is or isn't there (Annex A).

use crate::page::Form;
use profile::{
    APDU_SEGMENT_TIMEOUT_MS, APDU_TIMEOUT_MS, LinkKind, MAX_BINDINGS, MAX_FOREIGN_DEVICES,
    MAX_GATHERINGS, MAX_LEARNED_ROUTES, MAX_OBJECTS, MAX_PEERS, MAX_REMEMBERED,
    MAX_SEGMENTS_ACCEPTED, MAX_SERVICE_DATA_OCTETS, MAX_TEXT_OCTETS, N_POLL, N_RETRY_TOKEN,
    NUMBER_OF_APDU_RETRIES, WINDOW_SIZE,
};
use std::io;
use std::io::Write;

/// Writes the data links (Annex A, Data Link Layer Options).
pub(crate) fn write_links<W: Write>(form: Form, out: &mut W) -> io::Result<()> {
    form.write_section("Data link layers", out)?;
    write_internet(form, out)?;
    write_bus(form, out)?;
    form.write_row("Other data links", "none", out)
}

/// Writes what is there of BACnet/IP (Annex J).
fn write_internet<W: Write>(form: Form, out: &mut W) -> io::Result<()> {
    form.write_row("BACnet/IP (Annex J)", "yes", out)?;
    form.write_row("BACnet/IP (Annex J), foreign device", "yes", out)?;
    let octets = LinkKind::BacnetIp.max_apdu();
    form.write_shown("Octets of an APDU on BACnet/IP, at most", &octets, out)
}

/// Writes what is there of MS/TP (clause 9).
fn write_bus<W: Write>(form: Form, out: &mut W) -> io::Result<()> {
    form.write_row(
        "MS/TP master (clause 9)",
        "yes, on simulated buses without a baud rate",
        out,
    )?;
    form.write_row("MS/TP slave (clause 9)", "no", out)?;
    form.write_shown(
        "Octets of an APDU on MS/TP, at most",
        &LinkKind::MsTp.max_apdu(),
        out,
    )?;
    form.write_shown("Npoll of a master", &N_POLL, out)?;
    form.write_shown("Nretry_token of a master", &N_RETRY_TOKEN, out)
}

/// Writes the counts of segmented messages (5.2, 20.1.2.8).
pub(crate) fn write_segments<W: Write>(form: Form, out: &mut W) -> io::Result<()> {
    form.write_shown(
        "Window size, proposed and at most granted",
        &WINDOW_SIZE,
        out,
    )?;
    form.write_shown(
        "Segments of a message, at most",
        &MAX_SEGMENTS_ACCEPTED,
        out,
    )?;
    form.write_shown(
        "Octets of service data in a message, at most",
        &MAX_SERVICE_DATA_OCTETS,
        out,
    )
}

/// Writes how stations find one another, and what routers and broadcast managers do (Annex A, Device Address Binding
/// and Networking Options).
pub(crate) fn write_networking<W: Write>(form: Form, out: &mut W) -> io::Result<()> {
    form.write_section("Device address binding and networking", out)?;
    form.write_row("Static device binding", "no", out)?;
    form.write_shown("Device bindings of a client, at most", &MAX_BINDINGS, out)?;
    form.write_row(
        "Router (clause 6)",
        "between networks of BACnet/IP and of MS/TP, in any number",
        out,
    )?;
    form.write_shown(
        "Routes that a router learns, at most",
        &MAX_LEARNED_ROUTES,
        out,
    )?;
    write_managers(form, out)
}

/// Writes what broadcast managers do (J.4, J.5).
fn write_managers<W: Write>(form: Form, out: &mut W) -> io::Result<()> {
    form.write_row("BBMD (Annex J)", "yes, with two-hop distribution", out)?;
    form.write_shown("Other BBMDs of a BBMD, at most", &MAX_PEERS, out)?;
    form.write_row("Registrations by foreign devices", "yes", out)?;
    form.write_shown(
        "Foreign devices of a BBMD, at most",
        &MAX_FOREIGN_DEVICES,
        out,
    )?;
    form.write_row(
        "Write-Broadcast-Distribution-Table",
        "refused, as the table is the site's",
        out,
    )?;
    form.write_row("Network address translation", "no", out)
}

/// Writes security and character sets (Annex A).
pub(crate) fn write_others<W: Write>(form: Form, out: &mut W) -> io::Result<()> {
    form.write_section("Network security and character sets", out)?;
    form.write_row("Network security", "none", out)?;
    form.write_row("Character sets", "ISO 10646 (UTF-8)", out)
}

/// Writes counts and times of a device and of a client (12.11, 5.4).
pub(crate) fn write_limits<W: Write>(form: Form, out: &mut W) -> io::Result<()> {
    form.write_section("Limits", out)?;
    form.write_shown(
        "Objects of a device beside its Device object, at most",
        &MAX_OBJECTS,
        out,
    )?;
    form.write_shown(
        "Octets of a text that is written, at most",
        &MAX_TEXT_OCTETS,
        out,
    )?;
    form.write_shown(
        "Answers that a device remembers, at most",
        &MAX_REMEMBERED,
        out,
    )?;
    form.write_shown(
        "Segmented requests that a device gathers at a time, at most",
        &MAX_GATHERINGS,
        out,
    )?;
    write_times(form, out)
}

/// Writes waits and repeats of a client (12.11).
fn write_times<W: Write>(form: Form, out: &mut W) -> io::Result<()> {
    form.write_shown("APDU_Timeout, in milliseconds", &APDU_TIMEOUT_MS, out)?;
    form.write_shown(
        "APDU_Segment_Timeout, in milliseconds",
        &APDU_SEGMENT_TIMEOUT_MS,
        out,
    )?;
    form.write_shown("Number_Of_APDU_Retries", &NUMBER_OF_APDU_RETRIES, out)
}
