//! All that a router says to a message.

ghost use Rattle.std.specs.Prelude.{◌≡◌, ◌≢◌, ◌∷◌, [], IfOk, IfErr, OnErr};
ghost use Rattle.npdu.specs.Header.{IsSound, header_of};
ghost use Rattle.npdu.specs.Message.{IsMessage};
ghost use Rattle.router.specs.Messages.{said_on_others};
ghost use Rattle.router.specs.Plan.{heard_of};
ghost use Rattle.router.specs.Router.{IsNumbered};
ghost use Rattle.router.specs.Said.{said};

use crate::handling::Handling;
use crate::heard::Heard;
use crate::messages::{Announcement, said_on};
use crate::plan::PortParcel;
use crate::router::Router;
use npdu::{Message, NetworkRejectReason, Target};
use std::alloc::Allocator;
use tags::{Fault, Items};

/// One parcel.
fn one<A: Allocator + Copy>(
    alloc: A,
    parcel: PortParcel<A>,
) -> Result<Items<PortParcel<A>, A>, Fault>
    ensures one { IfOk result (λ out. out ≡ parcel ∷ []) }
    ensures memory { IfErr result (λ fault. fault ≡ Fault.Memory) }
{
    let mut out = Items::new(alloc);
    out.push(parcel)?;
    Ok(out)
}

impl<A: Allocator + Copy> Router<A> {
    /// Returns what goes out, by what is done with the message.
    pub(crate) fn said(
        &self,
        heard: &Heard<'_, A>,
        handling: Handling,
    ) -> Result<Items<PortParcel<A>, A>, Fault>
        requires sound { IsSound (header_of heard.now.view) }
        requires numbered { IsNumbered heard.now.at }
        ensures said { IfOk result (λ out. out ≡ said (heard_of heard.now) self.now handling) }
        ensures memory { IfErr result (λ fault. fault ≡ Fault.Memory) }
        ensures taken { OnErr result (handling ≢ Handling.Discard) }
    {
        let alloc = self.alloc;
        match handling {
            Handling::Discard => Ok(Items::new(alloc)),
            Handling::Spread => heard.spread(self.ports()),
            Handling::Relay { port, own, next } => {
                let way = heard.way_of();
                one(alloc, heard.passed(&way, port, own, Target::One(next))?)
            }
            Handling::Deliver { port, own, to } => {
                let last = heard.last_of();
                one(alloc, heard.passed(&last, port, own, to)?)
            }
            Handling::FindRoute(net) => self.find_route(heard, net),
            Handling::NameAll => {
                one(
                    alloc,
                    self.named_on(heard.port, heard.at.mac, heard.moment)?,
                )
            }
            Handling::NameAsked => self.name_asked(heard),
            Handling::AskOthers => self.hand_on(heard, Message::WhoIsRouterToNetwork),
            Handling::Learn => self.hand_on(heard, Message::IAmRouterToNetwork),
            Handling::RefuseType => {
                let reason = NetworkRejectReason::UnknownMessageType;
                one(alloc, heard.refused(reason, heard.at.net)?)
            }
        }
    }

    /// It asks for a route on the other ports, and then tells the source that it has none.
    fn find_route(&self, heard: &Heard<'_, A>, net: u16) -> Result<Items<PortParcel<A>, A>, Fault>
        requires sound { IsSound (header_of heard.now.view) }
        ensures said { IfOk result (λ out. out ≡ said (heard_of heard.now) self.now (Handling.FindRoute net)) }
        ensures memory { IfErr result (λ fault. fault ≡ Fault.Memory) }
    {
        let question = Announcement {
            stamp: heard.moment,
            message: Message::WhoIsRouterToNetwork,
            contents: &net.to_be_bytes(),
        };
        let mut out = question.on_others(self.alloc, heard.port, self.ports())?;
        let refused = heard.refused(NetworkRejectReason::NoRoute, net)?;
        out.push(refused)?;
        Ok(out)
    }

    /// It says that it has a route to the network that was asked for.
    fn name_asked(&self, heard: &Heard<'_, A>) -> Result<Items<PortParcel<A>, A>, Fault>
        ensures said { IfOk result (λ out. out ≡ said (heard_of heard.now) self.now Handling.NameAsked) }
        ensures memory { IfErr result (λ fault. fault ≡ Fault.Memory) }
    {
        let said = said_on(
            self.alloc,
            heard.port,
            heard.at.mac,
            heard.moment,
            Message::IAmRouterToNetwork,
            heard.view.body,
        )?;
        let out = one(self.alloc, said)?;
        Ok(out)
    }

    /// A question or an announcement goes on to the other ports, with its stamp.
    fn hand_on(
        &self,
        heard: &Heard<'_, A>,
        message: Message,
    ) -> Result<Items<PortParcel<A>, A>, Fault>
        requires message { IsMessage message }
        ensures said { IfOk result (λ out. out ≡ said_on_others heard.now.stamp message
            heard.now.view.body.now heard.now.port self.now.ports) }
        ensures memory { IfErr result (λ fault. fault ≡ Fault.Memory) }
    {
        let announcement = Announcement {
            stamp: heard.stamp,
            message,
            contents: heard.view.body,
        };
        let out = announcement.on_others(self.alloc, heard.port, self.ports())?;
        Ok(out)
    }
}
