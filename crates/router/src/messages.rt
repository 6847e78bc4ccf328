//! What a router says of itself, and asks: network messages (6.4).

ghost use Rattle.std.specs.Prelude.{◌≡◌, ◌==◌, ◌++◌, ◌∷◌, [], option_map, IfOk, IfErr, IfSome, OnOk};
ghost use Rattle.byteorder.specs.Endian.{big_bytes};
ghost use Rattle.npdu.specs.Header.{IsDestination, IsSound, destination_of, header_of, source_of};
ghost use Rattle.npdu.specs.Message.{IsMessage};
ghost use Rattle.router.specs.Messages as spec;
ghost use Rattle.router.specs.Messages.{back_to, behind, learned_behind, message_npdu, named_on, named_on_each};
ghost use Rattle.router.specs.Messages.{net_there, refused, said_on, said_on_others, said_there};
ghost use Rattle.router.specs.Plan.{heard_of};
ghost use Rattle.router.specs.Sending.{of_others, unless};

use crate::heard::Heard;
use crate::plan::PortParcel;
use crate::router::Router;
use crate::routes::Route;
use npdu::{
    Destination, Dnet, INITIAL_HOP_COUNT, Mac, Message, NetworkRejectReason, Parcel, Priority,
    Rejected, Source, Station, Target, View,
};
use std::alloc::{AllocError, Allocator};
use tags::{Fault, Items, Octets};

/// The room that a network message begins with, in octets: a short one needs no more.
const SHORT_NPDU: usize = 32;

/// The octets of a network message.
#[tactic(auto, unfolding(crate::specs::Messages::message_npdu))]
fn message_npdu<'a, A: Allocator + Copy>(
    alloc: A,
    message: Message,
    destination: Option<Destination<'a>>,
    contents: &'a [u8],
) -> Result<Octets<A>, Fault>
    requires message { IsMessage message }
    requires destination { IfSome (option_map destination_of destination) IsDestination }
    ensures npdu { IfOk result (λ npdu. npdu ≡
        message_npdu message (option_map destination_of destination.entry) contents.now) }
    ensures memory { IfErr result (λ fault. fault ≡ Fault.Memory) }
{
    let view = View {
        expects_reply: false,
        priority: Priority::Normal,
        destination,
        source: None,
        message: Some(message),
        body: contents,
    };
    let mut out = Vec::with_capacity(alloc, SHORT_NPDU)?;
    npdu::write(&view, &mut out)?;
    Ok(Octets::from_vec(out))
}

/// A network message to all stations of a port's network.
pub(crate) fn said_on<A: Allocator + Copy>(
    alloc: A,
    port: usize,
    own: Mac,
    stamp: u64,
    message: Message,
    contents: &[u8],
) -> Result<PortParcel<A>, Fault>
    requires message { IsMessage message }
    ensures said { IfOk result (λ o. o ≡ said_on port own stamp message contents.now) }
    ensures memory { IfErr result (λ fault. fault ≡ Fault.Memory) }
{
    Ok(PortParcel {
        port,
        parcel: Parcel {
            from: own,
            to: Target::All,
            npdu: message_npdu(alloc, message, None, contents)?,
            stamp,
        },
    })
}

/// A network message that goes out over several ports.
#[derive(Clone, Copy)]
pub(crate) struct Announcement<'a> {
    pub stamp: u64,
    pub message: Message,
    pub contents: &'a [u8],
}

impl Announcement<'_> {
    /// Over the port of this number, where it isn't that one.
    fn put_unless<A: Allocator + Copy>(
        &self,
        alloc: A,
        that: usize,
        number: usize,
        station: Station,
        out: &mut Items<PortParcel<A>, A>,
    ) -> Result<(), Fault>
        requires message { IsMessage self.now.message }
        ensures said { OnOk result (out.new ≡ out.old ++ unless (number == that)
            (said_there self.now.stamp self.now.message self.now.contents.now number station)) }
        ensures memory { IfErr result (λ fault. fault ≡ Fault.Memory) }
    {
        if number == that {
            return Ok(());
        }
        let said = said_on(
            alloc,
            number,
            station.mac,
            self.stamp,
            self.message,
            self.contents,
        )?;
        out.push(said)?;
        Ok(())
    }

    /// Over each of the ports but that one, in order.
    pub(crate) fn on_others<A: Allocator + Copy>(
        &self,
        alloc: A,
        port: usize,
        ports: &[Station],
    ) -> Result<Items<PortParcel<A>, A>, Fault>
        requires message { IsMessage self.now.message }
        ensures said { IfOk result (λ out. out ≡
            said_on_others self.now.stamp self.now.message self.now.contents.now port ports.now) }
        ensures memory { IfErr result (λ fault. fault ≡ Fault.Memory) }
    {
        let mut out = Items::new(alloc);
        for (number, station) in ports.iter().enumerate() {
            self.put_unless(alloc, port, number, *station, &mut out)?;
        }
        Ok(out)
    }
}

/// The number of a network behind the port of this number, in two octets, where it isn't that one.
fn put_net_unless<A: Allocator>(
    that: usize,
    number: usize,
    net: u16,
    out: &mut Vec<u8, A>,
) -> Result<(), AllocError>
    ensures { OnOk result (out.new.items ≡ out.old.items ++ unless (number == that) (big_bytes 2 net)) }
{
    if number == that {
        return Ok(());
    }
    out.extend_from_slice(&net.to_be_bytes())
}

/// The numbers of the networks of all ports but that one, in order.
fn put_own_behind<A: Allocator>(
    port: usize,
    ports: &[Station],
    out: &mut Vec<u8, A>,
) -> Result<(), AllocError>
    ensures { OnOk result (out.new.items ≡ out.old.items ++ of_others net_there port ports.now) }
{
    for (number, station) in ports.iter().enumerate() {
        put_net_unless(port, number, station.net, out)?;
    }
    Ok(())
}

/// Those of the networks learned over other ports than that one, in ascending order.
fn put_learned_behind<A: Allocator>(
    port: usize,
    routes: &[(u16, Route)],
    out: &mut Vec<u8, A>,
) -> Result<(), AllocError>
    ensures { OnOk result (out.new.items ≡ out.old.items ++ learned_behind port routes.now) }
{
    for (net, route) in routes {
        put_net_unless(port, route.port, *net, out)?;
    }
    Ok(())
}

/// Who said a message, as what goes back names the station.
fn back_to<'a>(source: Source<'a>) -> Destination<'a>
    ensures { destination_of result ≡ back_to (source_of source.entry) }
{
    Destination {
        net: Dnet::Network(source.net),
        mac: source.mac,
        hops: INITIAL_HOP_COUNT,
    }
}

impl<'a, A: Allocator + Copy> Heard<'a, A> {
    /// Its source is told why it isn't passed on, and which network that is about.
    pub(crate) fn refused(
        &self,
        reason: NetworkRejectReason,
        net: u16,
    ) -> Result<PortParcel<A>, Fault>
        requires sound { IsSound (header_of self.now.view) }
        ensures refused { IfOk result (λ o. o ≡ refused (heard_of self.now) reason net) }
        ensures memory { IfErr result (λ fault. fault ≡ Fault.Memory) }
    {
        let mut contents = Vec::new(self.alloc);
        Rejected { reason, net }.write(&mut contents)?;
        let destination = match self.view.source {
            Some(source) => Some(back_to(source)),
            None => None,
        };
        let message = Message::RejectMessageToNetwork;
        Ok(PortParcel {
            port: self.port,
            parcel: Parcel {
                from: self.at.mac,
                to: Target::One(self.from),
                npdu: message_npdu(self.alloc, message, destination, contents.as_slice())?,
                stamp: self.moment,
            },
        })
    }
}

impl<A: Allocator + Copy> Router<A> {
    /// The numbers of the networks behind all ports but this one.
    fn behind(&self, port: usize) -> Result<Vec<u8, A>, AllocError>
        ensures { IfOk result (λ out. out.items ≡ behind port self.now) }
    {
        let mut out = Vec::new(self.alloc);
        put_own_behind(port, self.ports.as_slice(), &mut out)?;
        put_learned_behind(port, self.routes.as_slice(), &mut out)?;
        Ok(out)
    }

    /// On a port it names the networks behind its others.
    pub(crate) fn named_on(&self, port: usize, own: Mac, now: u64) -> Result<PortParcel<A>, Fault>
        ensures named { IfOk result (λ o. o ≡ named_on now port own self.now) }
        ensures memory { IfErr result (λ fault. fault ≡ Fault.Memory) }
    {
        let contents = self.behind(port)?;
        let message = Message::IAmRouterToNetwork;
        said_on(self.alloc, port, own, now, message, contents.as_slice())
    }

    /// On each port it names the networks behind its others, in the order of the ports.
    pub(crate) fn named_on_each(&self, now: u64) -> Result<Items<PortParcel<A>, A>, Fault>
        ensures named { IfOk result (λ out. out ≡ named_on_each now 0 self.now.ports self.now) }
        ensures memory { IfErr result (λ fault. fault ≡ Fault.Memory) }
    {
        let ports = self.ports();
        let mut out = Items::new(self.alloc);
        for (number, station) in ports.iter().enumerate() {
            let named = self.named_on(number, station.mac, now)?;
            out.push(named)?;
        }
        Ok(out)
    }
}
