//! Messages that a router passes on (6.2.2, 6.3, 6.5).

ghost use Rattle.std.specs.Prelude.{◌≡◌, ◌==◌, ◌++◌, option_map, length, IfOk, IfErr, IfSome, OnOk};
ghost use Rattle.npdu.specs.Header.{IsDestination, IsSound, IsSource, destination_of, header_of, source_of};
ghost use Rattle.inside.specs.Routed.{lowered, source_on};
ghost use Rattle.router.specs.Passing as spec;
ghost use Rattle.router.specs.Passing.{carries, last_of, passed, spread_there, way_of};
ghost use Rattle.router.specs.Plan.{heard_of};
ghost use Rattle.router.specs.Router.{IsNumbered};
ghost use Rattle.router.specs.Sending.{of_others, unless};

use crate::heard::Heard;
use crate::plan::PortParcel;
use npdu::{Destination, Mac, NetworkRejectReason, Parcel, Source, Station, Target, View};
use profile::LinkKind;
use std::alloc::Allocator;
use tags::{Fault, Items, Octets};

/// How many octets SNET, SLEN and SADR have at most that a router puts in.
const SOURCE_OCTETS: usize = 9;

/// The kind of link where the router has this address.
fn link_of(own: Mac) -> LinkKind
    ensures { result ≡ spec.link_of own }
{
    match own {
        Mac::One(_) => LinkKind::MsTp,
        Mac::Six(_) => LinkKind::BacnetIp,
    }
}

/// Whether a link carries so many octets of an NPDU with this header.
fn carries(link: LinkKind, octets: usize, view: &View<'_>) -> bool
    ensures { result ≡ carries link octets (header_of view.now) }
{
    octets <= usize::from(link.max_npdu())
        && (view.message.is_some() || view.body.len() <= usize::from(link.max_apdu()))
}

/// The network that a message is for, as what goes back names it.
fn net_of(destination: Option<Destination<'_>>) -> u16
    ensures { result ≡ spec.net_of (option_map destination_of destination.entry) }
{
    match destination {
        Some(destination) => u16::from(destination.net),
        None => 0,
    }
}

/// The source that a message has, else the station that sent it on the network heard.
fn source_on<'a>(at: Station, from: &'a Mac, source: Option<Source<'a>>) -> Source<'a>
    requires numbered { IsNumbered at }
    requires sound { IfSome (option_map source_of source) IsSource }
    ensures source { source_of result ≡ source_on at.net from.entry.now (option_map source_of source.entry) }
    ensures sound { IsSource (source_of result) }
{
    match source {
        Some(source) => source,
        None => Source {
            net: at.net,
            mac: from.as_octets(),
        },
    }
}

/// A destination with one hop less.
fn lowered<'a>(destination: Destination<'a>) -> Destination<'a>
    requires sound { IsDestination (destination_of destination) }
    ensures lowered { destination_of result ≡ lowered (destination_of destination.entry) }
    ensures sound { IsDestination (destination_of result) }
{
    Destination {
        net: destination.net,
        mac: destination.mac,
        hops: destination.hops.saturating_sub(1),
    }
}

impl<'a, A: Allocator + Copy> Heard<'a, A> {
    /// Its header on the way to a further network.
    pub(crate) fn way_of<'b>(&'b self) -> View<'b>
        requires sound { IsSound (header_of self.now.view) }
        requires numbered { IsNumbered self.now.at }
        ensures way { header_of result ≡ way_of (heard_of self.entry.now) }
        ensures sound { IsSound (header_of result) }
    {
        match self.view.destination {
            None => self.view,
            Some(destination) => View {
                destination: Some(lowered(destination)),
                source: Some(source_on(self.at, &self.from, self.view.source)),
                ..self.view
            },
        }
    }

    /// Its header on the last network.
    pub(crate) fn last_of<'b>(&'b self) -> View<'b>
        requires sound { IsSound (header_of self.now.view) }
        requires numbered { IsNumbered self.now.at }
        ensures last { header_of result ≡ last_of (heard_of self.entry.now) }
        ensures sound { IsSound (header_of result) }
    {
        View {
            destination: None,
            source: Some(source_on(self.at, &self.from, self.view.source)),
            ..self.view
        }
    }

    /// It goes out over a port with this header, or its source is told that it is too long there.
    #[tactic(auto, unfolding(crate::specs::Passing::passed))]
    pub(crate) fn passed(
        &self,
        view: &View<'_>,
        port: usize,
        own: Mac,
        to: Target,
    ) -> Result<PortParcel<A>, Fault>
        requires heard { IsSound (header_of self.now.view) }
        requires sound { IsSound (header_of view.now) }
        ensures passed { IfOk result (λ o. o ≡ passed (heard_of self.now) (header_of view.now) port own to) }
        ensures memory { IfErr result (λ fault. fault ≡ Fault.Memory) }
    {
        let room = self.npdu.len().saturating_add(SOURCE_OCTETS);
        let mut npdu = Vec::with_capacity(self.alloc, room)?;
        npdu::write(view, &mut npdu)?;
        if !carries(link_of(own), npdu.len(), view) {
            let reason = NetworkRejectReason::TooLong;
            return self.refused(reason, net_of(self.view.destination));
        }
        Ok(PortParcel {
            port,
            parcel: Parcel {
                from: own,
                to,
                npdu: Octets::from_vec(npdu),
                stamp: self.stamp,
            },
        })
    }

    /// It goes to all stations of the network of the port of this number, where it wasn't heard there.
    fn put_spread(
        &self,
        view: &View<'_>,
        number: usize,
        station: Station,
        out: &mut Items<PortParcel<A>, A>,
    ) -> Result<(), Fault>
        requires heard { IsSound (header_of self.now.view) }
        requires sound { IsSound (header_of view.now) }
        requires way { header_of view.now ≡ way_of (heard_of self.now) }
        ensures spread { OnOk result (out.new ≡ out.old ++ unless (number == self.now.port)
            (spread_there (heard_of self.now) number station)) }
        ensures memory { IfErr result (λ fault. fault ≡ Fault.Memory) }
    {
        if number == self.port {
            return Ok(());
        }
        let passed = self.passed(view, number, station.mac, Target::All)?;
        out.push(passed)?;
        Ok(())
    }

    /// It goes to all stations of the networks of all ports but the one that heard it, in order.
    pub(crate) fn spread(&self, ports: &[Station]) -> Result<Items<PortParcel<A>, A>, Fault>
        requires sound { IsSound (header_of self.now.view) }
        requires numbered { IsNumbered self.now.at }
        ensures spread { IfOk result (λ out. out ≡
            of_others (spread_there (heard_of self.now)) self.now.port ports.now) }
        ensures memory { IfErr result (λ fault. fault ≡ Fault.Memory) }
    {
        let view = self.way_of();
        let mut out = Items::new(self.alloc);
        for (number, station) in ports.iter().enumerate() {
            self.put_spread(&view, number, *station, &mut out)?;
        }
        Ok(out)
    }
}
