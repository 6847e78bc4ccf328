//! Headers of the network layer (6.2), as `reply Normal dnet 2 05 hops 255 body ..`, and written again.

use npdu::{Destination, Dnet, Message, Source, View};
use sheets::{
    Counts, Given, Stop, Trial, buffer, differs, push_octets, refusal, run_octets, with_written,
};
use std::alloc::AllocError;

/// Octets that a header is read from, and that are written of it.
struct Headers;

impl<'a> Trial<'a> for Headers {
    fn answer(&self, given: Given<'a>, octets: &[u8]) -> Result<String, Stop> {
        let view = match View::read(octets) {
            Ok(view) => view,
            Err(fault) => return refusal(given.alloc, fault),
        };
        if !view.is_sound() {
            return Err(differs(given.alloc, "a header without a spelling"));
        }
        let mut text = String::new(given.alloc);
        push_header(&view, &mut text)?;
        let mut out = buffer(given)?;
        let came = npdu::write(&view, &mut out);
        with_written(given, octets, came, out.as_slice(), text)
    }
}

/// Runs a row of a header.
pub(crate) fn run(given: Given<'_>, asked: &str, wanted: &str) -> Result<Counts, Stop> {
    run_octets(given, &Headers, asked, wanted)
}

/// Appends a header in words.
fn push_header(view: &View<'_>, out: &mut String) -> Result<(), AllocError> {
    if view.expects_reply {
        out.push_str("reply ")?;
    }
    write!(out, "{:?}", view.priority)?;
    if let Some(destination) = &view.destination {
        push_destination(destination, out)?;
    }
    if let Some(source) = &view.source {
        push_source(source, out)?;
    }
    if let Some(message) = view.message {
        push_message(message, out)?;
    }
    out.push_str(" body ")?;
    push_octets(view.body, out)
}

/// Appends where a message goes.
fn push_destination(destination: &Destination<'_>, out: &mut String) -> Result<(), AllocError> {
    match destination.net {
        Dnet::Network(number) => write!(out, " dnet {number} ")?,
        Dnet::Global => out.push_str(" dnet all ")?,
    }
    push_octets(destination.mac, out)?;
    write!(out, " hops {}", destination.hops)
}

/// Appends where a message comes from.
fn push_source(source: &Source<'_>, out: &mut String) -> Result<(), AllocError> {
    write!(out, " snet {} ", source.net)?;
    push_octets(source.mac, out)
}

/// Appends the type of a network message.
fn push_message(message: Message, out: &mut String) -> Result<(), AllocError> {
    match message {
        Message::WhoIsRouterToNetwork
        | Message::IAmRouterToNetwork
        | Message::RejectMessageToNetwork => write!(out, " {message:?}"),
        Message::Other(kind) => write!(out, " message {kind}"),
        Message::Proprietary { kind, vendor } => write!(out, " message {kind} vendor {vendor}"),
    }
}
