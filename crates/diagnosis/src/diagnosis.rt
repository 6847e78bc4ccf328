//! What is known of a capture, packet by packet.

use crate::sighting::Sightings;
use crate::stations::{Route, Stations};
use apdu::{UnconfirmedService, i_am_from};
use bus_findings::Buses;
use bvll::{Bvll, ResultCode};
use captures::{Carried, Datagram, Packet};
use diagnosis_parts::{
    Answered, Asked, At, Heading, Key, LinkAddress, PacketCounts, Party, RequestCounts, Role,
    Settings, Station, Transaction, WentOn, heading_of, raise,
};
use findings::{Finding, Findings, Kind, Layer, Packets};
use following::Following;
use mstp_frame::{Frame, FrameType};
use network_findings::Networks;
use npdu::{Message, View};
use std::alloc::{AllocError, Allocator};
use std::marker::Model;
use tags::Fault;

/// The address that stands for all nodes of a bus (9.1.2).
const ALL_NODES: u8 = 255;

/// What is known of a capture, packet by packet.
#[derive(Drop)]
pub struct Diagnosis<A: Allocator> {
    counts: PacketCounts,
    /// When the first packet with a stamp was captured, in microseconds.
    began: Option<u64>,
    /// When the last one was.
    moment: u64,
    sightings: Sightings<A>,
    following: Following<A>,
    stations: Stations<A>,
    networks: Networks<A>,
    buses: Buses<A>,
    findings: Findings<A>,
    /// A port beside the usual ones.
    port: Option<u16>,
}

/// The first port of UDP that BACnet/IP uses (J.1.2).
const FIRST_PORT: u16 = 47_808;

/// .. and the last one of those that networks use beside it.
const LAST_PORT: u16 = 47_823;

/// Where a datagram or a frame comes from, and where it goes.
#[derive(Clone, Copy)]
struct Way {
    from: LinkAddress,
    to: LinkAddress,
}

/// The ends of a message on its link; several stations receive it where there is no one end.
#[derive(Clone, Copy)]
struct Ends {
    from: LinkAddress,
    to: Option<LinkAddress>,
    /// The address that it is sent to, also where that stands for several.
    target: LinkAddress,
}

/// A contract sees how many packets were taken, and the findings that are kept: each packet that they name was taken.
impl<A: Allocator> Model for Diagnosis<A> {
    ghost use Rattle.std.specs.Prelude.{ℕ, List};
    ghost use Rattle.findings.specs.declared.finding.Finding.{Finding};

    ghost Value = { ℕ × List Finding };

    ghost view = { λ d. d.findings };
}

impl Ends {
    /// Where the message comes from, and where it goes.
    fn way(&self) -> Way {
        Way {
            from: self.from,
            to: self.target,
        }
    }
}

impl<A: Allocator + Copy> Diagnosis<A> {
    ghost use Rattle.std.specs.Prelude.{◌≡◌};

    /// Nothing is known yet.
    ///
    /// # Errors
    /// Want of memory.
    pub fn new(alloc: A, settings: Settings) -> Result<Diagnosis<A>, AllocError> {
        Ok(Diagnosis {
            counts: PacketCounts::none(),
            began: None,
            moment: 0,
            sightings: Sightings::new(alloc, settings.sightings)?,
            following: Following::new(alloc, settings)?,
            stations: Stations::new(alloc, settings)?,
            networks: Networks::new(alloc, settings)?,
            buses: Buses::new(alloc, settings)?,
            findings: Findings::new(alloc, settings.findings),
            port: settings.port,
        })
    }

    /// Takes the next packet.
    ///
    /// # Errors
    /// Want of memory. Then part of what the packet shows may be known.
    pub fn take(&mut self, packet: &Packet<'_>) -> Result<(), AllocError> {
        self.pass(packet.microseconds)?;
        let at = At {
            packet: packet.number,
            moment: self.moment,
            since: self.duration(),
        };
        match packet.carried {
            Carried::Datagram(datagram) => self.take_datagram(at, &datagram),
            Carried::Frame(octets) => self.take_frame(at, packet.interface, octets),
            Carried::Other(_) => {
                raise(&mut self.counts.passed_over);
                Ok(())
            }
        }
    }

    /// Passes a packet over, of which only that it was captured counts, and when, if that is told.
    ///
    /// # Errors
    /// Want of memory.
    pub fn pass(&mut self, moment: Option<u64>) -> Result<(), AllocError> {
        self.findings.count_packet();
        if let Some(moment) = moment {
            self.began = Some(self.began.unwrap_or(moment));
            self.moment = moment;
        }
        self.following.pass(self.moment, &mut self.findings)
    }

    /// Takes a datagram, but for one that was captured before.
    fn take_datagram(&mut self, at: At, datagram: &Datagram<'_>) -> Result<(), AllocError> {
        if self.sightings.is_again(datagram, at.moment)? {
            raise(&mut self.counts.twice);
            return Ok(());
        }
        raise(&mut self.counts.datagrams);
        let from = LinkAddress::from(datagram.from);
        let to = LinkAddress::from(datagram.to);
        match Bvll::read(datagram.octets) {
            Ok(bvll) => self.take_bvll(at, from, to, bvll),
            Err(fault) => {
                raise(&mut self.counts.unread);
                self.tell_malformed(at, Way { from, to }, Layer::Bvll, fault)
            }
        }
    }

    /// Tells that a header can't be read, where the port is one of BACnet/IP. A function or a type that isn't known may
    /// be another maker's.
    fn tell_malformed(
        &mut self,
        at: At,
        way: Way,
        layer: Layer,
        fault: Fault,
    ) -> Result<(), AllocError> {
        if fault == Fault::BadTag || !self.is_judged(way.from) && !self.is_judged(way.to) {
            return Ok(());
        }
        self.findings.tell(Finding {
            kind: Kind::Malformed {
                from: way.from,
                to: way.to,
                layer,
                fault,
            },
            packets: Packets::one(at.packet),
        })
    }

    /// Whether an address has a port of BACnet/IP, or the one that is asked for.
    fn is_judged(&self, address: LinkAddress) -> bool {
        match address {
            LinkAddress::Ip(_, port) => {
                (FIRST_PORT <= port && port <= LAST_PORT) || self.port == Some(port)
            }
            LinkAddress::Node(_, _) => false,
        }
    }

    /// Takes what a datagram carries (J.2).
    fn take_bvll(
        &mut self,
        at: At,
        from: LinkAddress,
        to: LinkAddress,
        bvll: Bvll<'_>,
    ) -> Result<(), AllocError> {
        match bvll {
            Bvll::OriginalUnicastNpdu(npdu) => {
                let ends = Ends {
                    from,
                    to: Some(to),
                    target: to,
                };
                self.take_npdu(at, ends, npdu)
            }
            Bvll::OriginalBroadcastNpdu(npdu) => self.take_broadcast(at, from, to, npdu),
            Bvll::DistributeBroadcastToNetwork(npdu) => {
                self.hear_as(at, from, Role::ForeignDevice)?;
                self.take_broadcast(at, from, to, npdu)
            }
            Bvll::ForwardedNpdu { origin, npdu } => {
                self.hear_as(at, from, Role::Manager)?;
                let origin = LinkAddress::from(origin);
                self.networks
                    .forward(from, to, origin, npdu, at, &mut self.findings)?;
                self.take_broadcast(at, origin, to, npdu)
            }
            Bvll::RegisterForeignDevice { .. } => {
                self.networks.register(from, to, at)?;
                self.hear_as(at, from, Role::ForeignDevice)
            }
            Bvll::Result(ResultCode::RegisterForeignDeviceNak) => {
                self.networks.refuse(to, from, at, &mut self.findings)?;
                self.hear(at, from)
            }
            Bvll::Result(_)
            | Bvll::WriteBroadcastDistributionTable(_)
            | Bvll::ReadBroadcastDistributionTable
            | Bvll::ReadBroadcastDistributionTableAck(_)
            | Bvll::ReadForeignDeviceTable
            | Bvll::ReadForeignDeviceTableAck(_)
            | Bvll::DeleteForeignDeviceTableEntry(_) => self.hear(at, from),
        }
    }

    /// Takes a broadcast that came from a station on the link or through a manager, to this address.
    fn take_broadcast(
        &mut self,
        at: At,
        from: LinkAddress,
        target: LinkAddress,
        npdu: &[u8],
    ) -> Result<(), AllocError> {
        self.networks.hear_broadcast(at, &mut self.findings)?;
        let ends = Ends {
            from,
            to: None,
            target,
        };
        self.take_npdu(at, ends, npdu)
    }

    /// Takes a frame of the bus of an interface (9.3).
    fn take_frame(&mut self, at: At, bus: u32, octets: &[u8]) -> Result<(), AllocError> {
        let frame = Frame::read(octets);
        self.buses.hear(bus, octets, frame, at, &mut self.findings)?;
        let Some(frame) = frame else {
            raise(&mut self.counts.passed_over);
            return Ok(());
        };
        raise(&mut self.counts.frames);
        let from = LinkAddress::Node(bus, frame.source);
        let target = LinkAddress::Node(bus, frame.destination);
        match frame.frame_type {
            FrameType::BacnetDataExpectingReply | FrameType::BacnetDataNotExpectingReply => {
                if frame.destination == ALL_NODES {
                    return self.take_broadcast(at, from, target, frame.data);
                }
                let ends = Ends {
                    from,
                    to: Some(target),
                    target,
                };
                self.take_npdu(at, ends, frame.data)
            }
            FrameType::Token
            | FrameType::PollForMaster
            | FrameType::ReplyToPollForMaster
            | FrameType::TestRequest
            | FrameType::TestResponse
            | FrameType::ReplyPostponed
            | FrameType::Other(_) => self.hear(at, from),
        }
    }

    /// A station on the link sent a packet.
    fn hear(&mut self, at: At, from: LinkAddress) -> Result<(), AllocError> {
        self.stations.hear(
            Party {
                link: from,
                remote: None,
            },
            at.packet,
        )
    }

    /// A station on the link sent a packet as stations of a role do.
    fn hear_as(&mut self, at: At, from: LinkAddress, role: Role) -> Result<(), AllocError> {
        self.hear(at, from)?;
        self.stations.note_role(
            Party {
                link: from,
                remote: None,
            },
            role,
        )
    }

    /// Takes a message of the network layer (6.2).
    fn take_npdu(&mut self, at: At, ends: Ends, npdu: &[u8]) -> Result<(), AllocError> {
        let view = match View::read(npdu) {
            Ok(view) => view,
            Err(fault) => {
                raise(&mut self.counts.unread);
                self.tell_malformed(at, ends.way(), Layer::Npdu, fault)?;
                return self.hear(at, ends.from);
            }
        };
        let Some(sender) = Party::sender(ends.from, view.source) else {
            return Ok(());
        };
        self.stations.hear(sender, at.packet)?;
        self.networks
            .pass(ends.from, sender, &view, at, &mut self.findings)?;
        match view.message {
            Some(message) => self.take_message(at, sender, ends.target, message, view.body),
            None => {
                let receiver = match ends.to {
                    Some(to) => Party::receiver(to, view.destination),
                    None => None,
                };
                self.take_apdu(at, ends, sender, receiver, view.body)
            }
        }
    }

    /// Takes a message for routers (6.2.4).
    fn take_message(
        &mut self,
        at: At,
        sender: Party,
        target: LinkAddress,
        message: Message,
        contents: &[u8],
    ) -> Result<(), AllocError> {
        match message {
            Message::IAmRouterToNetwork => {
                self.networks
                    .announce(sender, target, contents, at, &mut self.findings)?;
                self.stations.announce(sender, contents, at.packet)
            }
            Message::RejectMessageToNetwork => {
                self.networks
                    .reject(sender, contents, at, &mut self.findings)
            }
            Message::WhoIsRouterToNetwork | Message::Other(_) | Message::Proprietary { .. } => {
                Ok(())
            }
        }
    }

    /// Takes an APDU (20.1).
    fn take_apdu(
        &mut self,
        at: At,
        ends: Ends,
        sender: Party,
        receiver: Option<Party>,
        octets: &[u8],
    ) -> Result<(), AllocError> {
        let heading = match heading_of(octets) {
            Ok(heading) => heading,
            Err(fault) => {
                raise(&mut self.counts.unread);
                return self.tell_malformed(at, ends.way(), Layer::Apdu, fault);
            }
        };
        match (heading, receiver) {
            (Heading::Unconfirmed { service, data }, _) => {
                self.take_unconfirmed(at, sender, service, data)
            }
            (heading, Some(receiver)) => self.follow(at, sender, receiver, heading, octets),
            (_, None) => Ok(()),
        }
    }

    /// Takes a request that is not answered (20.1.3).
    fn take_unconfirmed(
        &mut self,
        at: At,
        sender: Party,
        service: u8,
        data: &[u8],
    ) -> Result<(), AllocError> {
        if service != u8::from(UnconfirmedService::IAm) {
            return Ok(());
        }
        match i_am_from(data) {
            Some(i_am) => {
                self.networks
                    .claim(sender, i_am.instance, at, &mut self.findings)?;
                self.stations.identify(sender, i_am)
            }
            None => Ok(()),
        }
    }

    /// Follows a transaction by one of its messages, which has these octets.
    fn follow(
        &mut self,
        at: At,
        sender: Party,
        receiver: Party,
        heading: Heading<'_>,
        octets: &[u8],
    ) -> Result<(), AllocError> {
        match heading {
            Heading::Request {
                invoke_id,
                service,
                segment,
                data,
            } => {
                let key = Key::of(sender, receiver, invoke_id);
                let asked = Asked {
                    service,
                    segment,
                    data,
                };
                self.following.asked(key, asked, at, &mut self.findings)
            }
            Heading::Answer {
                invoke_id,
                outcome,
                segment,
                data,
            } => {
                let key = Key::of(receiver, sender, invoke_id);
                let answered = Answered {
                    outcome,
                    segment,
                    data,
                    octets,
                };
                self.following
                    .answered(key, answered, at, &mut self.findings)
            }
            Heading::GaveUp { invoke_id, outcome } => {
                let key = Key::of(sender, receiver, invoke_id);
                self.go_on(key, WentOn::GaveUp(outcome), at)
            }
            Heading::ClientTook { invoke_id, taken } => {
                let key = Key::of(sender, receiver, invoke_id);
                self.go_on(key, WentOn::ClientTook(taken), at)
            }
            Heading::ServerTook { invoke_id, taken } => {
                let key = Key::of(receiver, sender, invoke_id);
                self.go_on(key, WentOn::ServerTook(taken), at)
            }
            Heading::Unconfirmed { .. } => Ok(()),
        }
    }

    /// Follows a transaction by what is said between its request and its answer.
    fn go_on(&mut self, key: Key, went_on: WentOn, at: At) -> Result<(), AllocError> {
        self.following.went_on(key, went_on, at, &mut self.findings)
    }

    /// The capture ends: what can be found only then is found.
    ///
    /// # Errors
    /// Want of memory.
    pub fn finish(&mut self) -> Result<(), AllocError> {
        self.following.finish(self.moment, &mut self.findings)?;
        self.buses.finish(&mut self.findings)
    }

    /// The findings; each packet that one names has been taken.
    pub fn findings(&self) -> &Findings<A>
        ensures { result.now ≡ self.now }
    {
        &self.findings
    }

    /// Keeps none of the findings so far.
    pub fn forget_findings(&mut self) {
        self.findings.forget_kept();
    }

    /// What is counted of packets.
    pub fn packets(&self) -> PacketCounts
        ensures { result.packets ≡ self.now.0 }
    {
        PacketCounts {
            packets: self.findings.packets_read(),
            ..self.counts
        }
    }

    /// What is counted of transactions, where the capture ends with the packet that was taken last.
    pub fn requests(&self) -> RequestCounts {
        self.following.counts(self.moment)
    }

    /// From when to when the capture goes, in microseconds.
    pub fn duration(&self) -> u64 {
        self.moment
            .saturating_sub(self.began.unwrap_or(self.moment))
    }

    /// The time, in microseconds, within which so many of a hundred answers came, within two percent.
    pub fn percentile(&self, percent: u64) -> Option<u64> {
        self.following.percentile(percent)
    }

    /// How many stations are known.
    pub fn station_count(&self) -> usize {
        self.stations.len()
    }

    /// How many stations left, since there were too many.
    pub fn stations_left(&self) -> u64 {
        self.stations.left()
    }

    /// The transactions that are listed, by their first packets.
    ///
    /// # Errors
    /// Want of memory.
    pub fn transactions(&self, alloc: A) -> Result<Vec<(Key, Transaction), A>, AllocError> {
        self.following.all(alloc)
    }

    /// The stations that are known, by their first packets.
    ///
    /// # Errors
    /// Want of memory.
    pub fn stations(&self, alloc: A) -> Result<Vec<(Party, Station), A>, AllocError> {
        self.stations.all(alloc)
    }

    /// The networks that routers announce, by the first packets that did.
    ///
    /// # Errors
    /// Want of memory.
    pub fn routes(&self, alloc: A) -> Result<Vec<(Route, u64), A>, AllocError> {
        self.stations.routes(alloc)
    }
}
