//! What is told of a router: its networks, and the routes that it has learned.

use crate::telling::Telling;
use npdu::Station;
use router::{Route, Router};
use site_trace::NameAt;
use std::alloc::Allocator;
use std::io;
use std::io::Write;

/// Writes the networks that it joins, with its address on each, and the routes that it has learned (6.6.1).
pub(crate) fn write_router<A: Allocator + Copy, W: Write>(
    telling: Telling<'_, A>,
    router: &Router<A>,
    out: &mut W,
) -> io::Result<()> {
    writeln!(out, " router")?;
    for port in router.ports() {
        write_port(telling, *port, out)?;
    }
    write_routes(telling, router, out)
}

/// Writes a network that a router is on, and its address there.
fn write_port<A: Allocator, W: Write>(
    telling: Telling<'_, A>,
    port: Station,
    out: &mut W,
) -> io::Result<()> {
    let address: NameAt<'_, A> = NameAt {
        address: port,
        stations: &[],
    };
    let net = port.net;
    writeln!(out, "{} network {net} {address}", telling.head())
}

/// Writes the routes of a router.
fn write_routes<A: Allocator + Copy, W: Write>(
    telling: Telling<'_, A>,
    router: &Router<A>,
    out: &mut W,
) -> io::Result<()> {
    for entry in router.routes() {
        let (net, route) = *entry;
        write_route(telling, net, route, router.ports(), out)?;
    }
    Ok(())
}

/// Writes the route to a network: over which network of the router, by which router there.
fn write_route<A: Allocator, W: Write>(
    telling: Telling<'_, A>,
    net: u16,
    route: Route,
    ports: &[Station],
    out: &mut W,
) -> io::Result<()> {
    let Some(port) = ports.get(route.port) else {
        return Ok(());
    };
    let over = port.net;
    let next = NameAt {
        address: Station {
            net: over,
            mac: route.next,
        },
        stations: telling.stations,
    };
    writeln!(out, "{} route {net} over {over} by {next}", telling.head())
}
