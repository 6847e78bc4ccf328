//! What is found, as an object: its name, its packets, whom it is about, and the line that is printed of it.

use crate::members::{put_exchange, put_key, put_packets, write_object};
use findings::{Finding, Kind, Layer};
use json_object::Object;
use std::alloc::{AllocError, Allocator};
use std::fmt::Display;
use std::io;
use std::io::Write;

/// Writes a finding.
///
/// # Errors
/// Those of writing, and want of memory.
pub fn write_finding<A: Allocator + Copy, W: Write>(
    alloc: A,
    finding: &Finding,
    out: &mut W,
) -> io::Result<()> {
    write_object(object_of(alloc, finding)?, out)
}

/// A finding as an object.
fn object_of<A: Allocator + Copy>(alloc: A, finding: &Finding) -> Result<Object<A>, AllocError> {
    let mut object = Object::new(alloc)?;
    object.shown("found", &finding.kind.name())?;
    put_packets(&finding.packets, &mut object)?;
    put_kind(&finding.kind, &mut object)?;
    object.shown("text", finding)?;
    Ok(object)
}

/// Adds whom a finding of requests is about.
fn put_kind<A: Allocator + Copy>(kind: &Kind, object: &mut Object<A>) -> Result<(), AllocError> {
    match kind {
        Kind::ExecutedTwice(exchange)
        | Kind::AnswerChanged(exchange)
        | Kind::InvokeIdReused(exchange)
        | Kind::Unanswered(exchange) => put_exchange(exchange, object),
        Kind::AnswerOfAnother { exchange, answered } => {
            put_exchange(exchange, object)?;
            object.shown("answered", answered)
        }
        Kind::LateAnswer { exchange, time } | Kind::Slow { exchange, time } => {
            put_exchange(exchange, object)?;
            object.number("microseconds", *time)
        }
        Kind::AnswerWithoutRequest(key) | Kind::SegmentsLost(key) => put_key(key, object),
        Kind::WindowExceeded { key, window } => {
            put_key(key, object)?;
            object.number("window", u64::from(*window))
        }
        Kind::OneSidedCapture { strays, answers } => {
            object.number("strays", *strays)?;
            object.number("answers", *answers)
        }
        Kind::TwoAddressesOneInstance { .. }
        | Kind::BroadcastTwice { .. }
        | Kind::BroadcastStorm(_)
        | Kind::TwoRoutersOneNetwork { .. }
        | Kind::MessageCircles { .. }
        | Kind::NoRoute { .. }
        | Kind::RegistrationRefused { .. }
        | Kind::TokenLost { .. }
        | Kind::BadCheck { .. }
        | Kind::SlowReply { .. }
        | Kind::Malformed { .. } => put_kind_of_links(kind, object),
    }
}

/// Adds whom a finding of links and networks is about.
fn put_kind_of_links<A: Allocator + Copy>(
    kind: &Kind,
    object: &mut Object<A>,
) -> Result<(), AllocError> {
    match kind {
        Kind::TwoAddressesOneInstance {
            instance,
            one,
            other,
        } => {
            object.number("instance", u64::from(*instance))?;
            put_both(one, other, object)
        }
        Kind::BroadcastTwice { origin, one, other } => {
            object.shown("origin", origin)?;
            put_both(one, other, object)
        }
        Kind::BroadcastStorm(count) => object.number("more_than", *count),
        Kind::TwoRoutersOneNetwork { net, one, other } => {
            object.number("network", u64::from(*net))?;
            put_both(one, other, object)
        }
        Kind::MessageCircles { sender, hops } => {
            object.shown("sender", sender)?;
            object.number("hops", u64::from(*hops))
        }
        Kind::NoRoute {
            router,
            net,
            reason,
        } => {
            object.shown("router", router)?;
            object.number("network", u64::from(*net))?;
            object.number("reason", u64::from(*reason))
        }
        Kind::RegistrationRefused { device, manager } => {
            object.shown("device", device)?;
            object.shown("manager", manager)
        }
        _ => put_kind_of_frames(kind, object),
    }
}

/// Adds whom a finding of frames, or of headers, is about.
fn put_kind_of_frames<A: Allocator + Copy>(
    kind: &Kind,
    object: &mut Object<A>,
) -> Result<(), AllocError> {
    match kind {
        Kind::TokenLost { bus, silence } => {
            object.number("bus", u64::from(*bus))?;
            object.number("microseconds", *silence)
        }
        Kind::BadCheck { bus, bad, frames } => {
            object.number("bus", u64::from(*bus))?;
            object.number("bad", *bad)?;
            object.number("frames", *frames)
        }
        Kind::SlowReply { node, time } => {
            object.shown("node", node)?;
            object.number("microseconds", *time)
        }
        Kind::Malformed {
            from,
            to,
            layer,
            fault,
        } => {
            object.shown("from", from)?;
            object.shown("to", to)?;
            object.text("layer", word_of(*layer))?;
            object.shown("fault", fault)
        }
        _ => Ok(()),
    }
}

/// Adds the two stations that a finding is about.
fn put_both<A: Allocator + Copy, D: Display>(
    one: &D,
    other: &D,
    object: &mut Object<A>,
) -> Result<(), AllocError> {
    object.shown("one", one)?;
    object.shown("other", other)
}

/// The name of a layer among the members of `explain`.
fn word_of(layer: Layer) -> &'static str {
    match layer {
        Layer::Bvll => "bvll",
        Layer::Npdu => "npdu",
        Layer::Apdu => "apdu",
    }
}
