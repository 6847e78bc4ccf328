//! An event as a line of a script.

use simulator::Event;
use std::alloc::Allocator;
use std::fmt;
use words::{Hex, Words};

/// The name of a station.
#[derive(Clone, Copy)]
struct Name<'a>(&'a [u8]);

impl fmt::Display for Name<'_> {
    fn fmt<W: fmt::Write>(&self, f: &mut fmt::Formatter<W>) -> fmt::Result {
        match std::str::from_utf8(self.0) {
            Ok(name) => f.write_str(name),
            Err(_) => Err(fmt::Error),
        }
    }
}

/// An event as a line of a script.
#[derive(Clone, Copy)]
pub(crate) struct Line<'e, A: Allocator>(pub(crate) &'e Event<A>);

impl<A: Allocator> fmt::Display for Line<'_, A> {
    fn fmt<W: fmt::Write>(&self, f: &mut fmt::Formatter<W>) -> fmt::Result {
        match self.0 {
            Event::Issue {
                client,
                instance,
                request,
            } => {
                let client = Name(client.as_slice());
                write!(f, "issue {client} {instance} {}", Words(request))
            }
            Event::WhoIs { client, limits } => {
                let client = Name(client.as_slice());
                match limits {
                    Some(limits) => write!(f, "whois {client} {} {}", limits.low, limits.high),
                    None => write!(f, "whois {client}"),
                }
            }
            Event::Tick(n) => write!(f, "tick {n}"),
            Event::Wake(station) => write!(f, "wake {}", Name(station.as_slice())),
            Event::Deliver(number) => write!(f, "deliver {number}"),
            Event::Hear {
                network,
                station,
                octets,
            } => {
                let station = Name(station.as_slice());
                write!(f, "hear {network} {station} {}", Hex(octets.as_slice()))
            }
            Event::Register(station) => write!(f, "register {}", Name(station.as_slice())),
            Event::Restart(station) => write!(f, "restart {}", Name(station.as_slice())),
        }
    }
}
