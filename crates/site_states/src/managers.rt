//! What is told of a broadcast manager: its tables.

use crate::telling::Telling;
use bbmd::Bbmd;
use bvll::{Address, ForeignDevice};
use npdu::{Mac, Station};
use site_trace::NameAt;
use std::alloc::Allocator;
use std::io;
use std::io::Write;

/// Writes the entries of its broadcast distribution table, itself among them, and those of its foreign device table
/// (J.4.3, J.5.2).
pub(crate) fn write_manager<A: Allocator + Copy, W: Write>(
    telling: Telling<'_, A>,
    net: u16,
    manager: &Bbmd<A>,
    out: &mut W,
) -> io::Result<()> {
    writeln!(out, " bbmd")?;
    let managers = manager.tables().distribution_entries()?;
    for entry in managers.as_slice() {
        let peer = at(telling, net, entry.address);
        writeln!(out, "{} bdt {peer}", telling.head())?;
    }
    let foreign = manager.tables().foreign_entries(telling.moment)?;
    write_foreign(telling, net, foreign.as_slice(), out)
}

/// Writes foreign devices: for how many seconds each registered, and how many are left.
fn write_foreign<A: Allocator + Copy, W: Write>(
    telling: Telling<'_, A>,
    net: u16,
    devices: &[ForeignDevice],
    out: &mut W,
) -> io::Result<()> {
    for entry in devices {
        let device = at(telling, net, entry.address);
        let seconds_to_live = entry.seconds_to_live;
        let seconds_left = entry.seconds_left;
        writeln!(
            out,
            "{} fdt {device} {seconds_to_live} {seconds_left}",
            telling.head()
        )?;
    }
    Ok(())
}

/// The station at an address of a network of BACnet/IP.
fn at<'a, A: Allocator>(telling: Telling<'a, A>, net: u16, address: Address) -> NameAt<'a, A> {
    NameAt {
        address: Station {
            net,
            mac: Mac::Six(address.to_octets()),
        },
        stations: telling.stations,
    }
}
