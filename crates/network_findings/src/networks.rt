//! What is found of stations, routers and broadcasts.

use crate::circles::Circles;
use crate::forwarding::Forwarding;
use crate::instances::Instances;
use crate::routers::Routers;
use crate::storms::Storms;
use diagnosis_parts::{At, LinkAddress, Party, Settings};
use findings::{Finding, Findings, Kind, Packets};
use npdu::View;
use std::alloc::{AllocError, Allocator};

/// What is known of stations, routers and broadcasts.
#[derive(Drop)]
pub struct Networks<A: Allocator> {
    instances: Instances<A>,
    routers: Routers<A>,
    circles: Circles<A>,
    forwarding: Forwarding<A>,
    storms: Storms,
}

/// The reasons of a Reject-Message-To-Network for which a message wasn't passed on (6.4.4): another error, no route, a
/// router that is busy, and a message that is too long.
const NOT_PASSED_ON: [u8; 4] = [0, 1, 2, 4];

impl<A: Allocator + Copy> Networks<A> {
    /// Nothing is known yet.
    ///
    /// # Errors
    /// Want of memory.
    pub fn new(alloc: A, settings: Settings) -> Result<Networks<A>, AllocError> {
        Ok(Networks {
            instances: Instances::new(alloc, settings.stations)?,
            routers: Routers::new(alloc, settings.stations)?,
            circles: Circles::new(alloc, settings.sightings)?,
            forwarding: Forwarding::new(alloc, settings.sightings)?,
            storms: Storms::new(settings.broadcasts),
        })
    }

    /// A station says in its I-Am that it is the device with this instance (16.10).
    ///
    /// # Errors
    /// Want of memory.
    pub fn claim(
        &mut self,
        by: Party,
        instance: u32,
        at: At,
        findings: &mut Findings<A>,
    ) -> Result<(), AllocError> {
        self.instances.claim(by, instance, at, findings)
    }

    /// A router announces the networks whose numbers these octets are, to an address of its link (6.4.2).
    ///
    /// # Errors
    /// Want of memory.
    pub fn announce(
        &mut self,
        router: Party,
        to: LinkAddress,
        nets: &[u8],
        at: At,
        findings: &mut Findings<A>,
    ) -> Result<(), AllocError> {
        if router.remote.is_some() {
            return Ok(());
        }
        self.routers.announce(router.link, to, nets, at, findings)
    }

    /// A router refuses a message (6.4.4).
    ///
    /// # Errors
    /// Want of memory.
    pub fn reject(
        &mut self,
        router: Party,
        contents: &[u8],
        at: At,
        findings: &mut Findings<A>,
    ) -> Result<(), AllocError> {
        let [reason, high, low, ..] = contents else {
            return Ok(());
        };
        if !NOT_PASSED_ON.contains(reason) {
            return Ok(());
        }
        findings.tell(Finding {
            kind: Kind::NoRoute {
                router,
                net: u16::from_be_bytes([*high, *low]),
                reason: *reason,
            },
            packets: Packets::one(at.packet),
        })
    }

    /// A message passes, which may be for another network (6.2.2).
    ///
    /// # Errors
    /// Want of memory.
    pub fn pass(
        &mut self,
        from: LinkAddress,
        sender: Party,
        view: &View<'_>,
        at: At,
        findings: &mut Findings<A>,
    ) -> Result<(), AllocError> {
        match view.destination {
            Some(destination) => {
                self.circles
                    .pass(from, sender, destination, view, at, findings)
            }
            None => Ok(()),
        }
    }

    /// A broadcast came.
    ///
    /// # Errors
    /// Want of memory.
    pub fn hear_broadcast(&mut self, at: At, findings: &mut Findings<A>) -> Result<(), AllocError> {
        match self.storms.hear(at) {
            Some(storm) => findings.tell(storm),
            None => Ok(()),
        }
    }

    /// A manager forwards the broadcast of an origin to an address (J.4.5).
    ///
    /// # Errors
    /// Want of memory.
    pub fn forward(
        &mut self,
        by: LinkAddress,
        to: LinkAddress,
        origin: LinkAddress,
        npdu: &[u8],
        at: At,
        findings: &mut Findings<A>,
    ) -> Result<(), AllocError> {
        self.forwarding.forward(by, to, origin, npdu, at, findings)
    }

    /// A foreign device asks a manager to register it (J.5.2).
    ///
    /// # Errors
    /// Want of memory.
    pub fn register(
        &mut self,
        device: LinkAddress,
        manager: LinkAddress,
        at: At,
    ) -> Result<(), AllocError> {
        self.forwarding.register(device, manager, at)
    }

    /// A manager refuses to register a foreign device (J.2.1).
    ///
    /// # Errors
    /// Want of memory.
    pub fn refuse(
        &mut self,
        device: LinkAddress,
        manager: LinkAddress,
        at: At,
        findings: &mut Findings<A>,
    ) -> Result<(), AllocError> {
        findings.tell(self.forwarding.refusal(device, manager, at))
    }
}
