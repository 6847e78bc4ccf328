//! Datagrams of the virtual link layer (Annex J), as `RegisterForeignDevice ttl 60`, and written again.

use bvll::{Address, Bvll, BvllTable, DistributionEntry, ForeignDevice, TableEntry};
use sheets::{
    Counts, Given, Part, Stop, Trial, buffer, differs, octets, push_octets, push_written, refusal,
    run_octets, run_text, written_octets,
};
use std::alloc::{AllocError, Global};

/// Octets that a datagram is read from, and that are written of it.
struct Datagrams;

impl<'a> Trial<'a> for Datagrams {
    fn answer(&self, given: Given<'a>, octets: &[u8]) -> Result<String, Stop> {
        let datagram = match Bvll::read(octets) {
            Ok(datagram) => datagram,
            Err(fault) => return refusal(given.alloc, fault),
        };
        let mut text = String::new(given.alloc);
        push_datagram(&datagram, &mut text)?;
        push_again(given, octets, &datagram, &mut text)?;
        match &datagram {
            Bvll::WriteBroadcastDistributionTable(table) => {
                let listed = entries(given.alloc, table)?;
                let list = Bvll::WriteBroadcastDistributionTable(BvllTable::Entries(
                    listed.as_slice(),
                ));
                push_again(given, octets, &list, &mut text)?;
            }
            Bvll::ReadBroadcastDistributionTableAck(table) => {
                let listed = entries(given.alloc, table)?;
                let list = Bvll::ReadBroadcastDistributionTableAck(BvllTable::Entries(
                    listed.as_slice(),
                ));
                push_again(given, octets, &list, &mut text)?;
            }
            Bvll::ReadForeignDeviceTableAck(table) => {
                let listed = entries(given.alloc, table)?;
                let list = Bvll::ReadForeignDeviceTableAck(BvllTable::Entries(listed.as_slice()));
                push_again(given, octets, &list, &mut text)?;
            }
            Bvll::Result(_)
            | Bvll::ReadBroadcastDistributionTable
            | Bvll::ForwardedNpdu { .. }
            | Bvll::RegisterForeignDevice { .. }
            | Bvll::ReadForeignDeviceTable
            | Bvll::DeleteForeignDeviceTableEntry(_)
            | Bvll::DistributeBroadcastToNetwork(_)
            | Bvll::OriginalUnicastNpdu(_)
            | Bvll::OriginalBroadcastNpdu(_) => {}
        }
        Ok(text)
    }
}

/// Appends what is written of a datagram, where that is not what was read.
fn push_again(
    given: Given<'_>,
    octets: &[u8],
    datagram: &Bvll<'_>,
    text: &mut String,
) -> Result<(), Stop> {
    if datagram.whole_length().is_none() {
        return Err(differs(given.alloc, "a datagram without a spelling"));
    }
    let mut out = buffer(given)?;
    let came = datagram.write(&mut out);
    push_written(octets, written_octets(given, came, out.as_slice())?, text)?;
    Ok(())
}

/// The entries of a table, one by one.
fn entries<E: TableEntry + PartialEq>(
    alloc: Global,
    table: &BvllTable<'_, E>,
) -> Result<Vec<E>, Stop> {
    let mut entries = Vec::new(alloc);
    for entry in table.iter() {
        if table.get(entries.len()) != Some(entry) {
            return Err(differs(alloc, "another entry at its index"));
        }
        entries.push(entry)?;
    }
    if table.len() != entries.len() || table.get(entries.len()).is_some() {
        return Err(differs(alloc, "another number of entries"));
    }
    Ok(entries)
}

/// Appends a datagram in words.
fn push_datagram(datagram: &Bvll<'_>, out: &mut String) -> Result<(), AllocError> {
    write!(out, "{:?}", datagram.function())?;
    match datagram {
        Bvll::Result(code) => write!(out, " {code:?}"),
        Bvll::ReadBroadcastDistributionTable | Bvll::ReadForeignDeviceTable => Ok(()),
        Bvll::WriteBroadcastDistributionTable(table)
        | Bvll::ReadBroadcastDistributionTableAck(table) => push_peers(table, out),
        Bvll::ReadForeignDeviceTableAck(table) => push_devices(table, out),
        Bvll::ForwardedNpdu { origin, npdu } => {
            out.push_str(" from ")?;
            push_address(origin, out)?;
            push_npdu(npdu, out)
        }
        Bvll::RegisterForeignDevice { seconds_to_live } => write!(out, " ttl {seconds_to_live}"),
        Bvll::DeleteForeignDeviceTableEntry(address) => {
            out.push(' ')?;
            push_address(address, out)
        }
        Bvll::DistributeBroadcastToNetwork(npdu)
        | Bvll::OriginalUnicastNpdu(npdu)
        | Bvll::OriginalBroadcastNpdu(npdu) => push_npdu(npdu, out),
    }
}

/// Appends an address, as `127.0.0.1:47808`.
fn push_address(address: &Address, out: &mut String) -> Result<(), AllocError> {
    let [a, b, c, d] = address.ip;
    write!(out, "{a}.{b}.{c}.{d}:{}", address.port)
}

/// Appends an NPDU.
fn push_npdu(npdu: &[u8], out: &mut String) -> Result<(), AllocError> {
    out.push_str(" npdu ")?;
    push_octets(npdu, out)
}

/// Appends the number of entries of a distribution table, and each.
fn push_peers(
    table: &BvllTable<'_, DistributionEntry>,
    out: &mut String,
) -> Result<(), AllocError> {
    write!(out, " {} entries", table.len())?;
    for entry in table.iter() {
        out.push_str(", ")?;
        push_address(&entry.address, out)?;
        out.push_str(" mask ")?;
        push_octets(&entry.mask, out)?;
    }
    Ok(())
}

/// Appends the number of entries of a foreign device table, and each.
fn push_devices(table: &BvllTable<'_, ForeignDevice>, out: &mut String) -> Result<(), AllocError> {
    write!(out, " {} entries", table.len())?;
    for entry in table.iter() {
        out.push_str(", ")?;
        push_address(&entry.address, out)?;
        write!(
            out,
            " ttl {} left {}",
            entry.seconds_to_live, entry.seconds_left
        )?;
    }
    Ok(())
}

/// Runs a row: of the length of a datagram with this NPDU, or of a datagram.
pub(crate) fn run(given: Given<'_>, asked: &str, wanted: &str) -> Result<Counts, Stop> {
    match asked.split_once(' ') {
        None => run_octets(given, &Datagrams, asked, wanted),
        Some(("length", word)) => run_length(given.alloc, word, wanted),
        _ => Err(Stop::Unread(Part::Asked)),
    }
}

/// Runs a row of the length of a datagram with this NPDU.
fn run_length(alloc: Global, word: &str, wanted: &str) -> Result<Counts, Stop> {
    let npdu = octets(alloc, word)?;
    let found = match Bvll::OriginalUnicastNpdu(npdu.as_slice()).whole_length() {
        Some(length) => format!(in alloc; "{length}")?,
        None => String::from_str(alloc, "none")?,
    };
    run_text(found, wanted)
}
