//! The lines of what was put out, without their ends.

ghost use Rattle.std.specs.Prelude.{Some};
ghost use Rattle.site_trace.specs.Lines.{frame_text, item_text};

use crate::naming::NameAt;
use bus_traffic::Sending;
use npdu::{Mac, Station};
use std::alloc::Allocator;
use std::fmt;
use traffic::Item;
use words::Hex;

/// The line of an item that was put out, with its number and the names of the stations that it comes from and goes to:
/// `0 item 0 c d 810B000C0120FFFF00FF1008`.
#[derive(Clone, Copy)]
pub(crate) struct ItemLine<'a, A: Allocator> {
    pub(crate) number: usize,
    pub(crate) item: &'a Item<A>,
    pub(crate) stations: &'a [site_parts::Station<A>],
    pub(crate) moment: u64,
}

impl<A: Allocator> fmt::Display for ItemLine<'_, A> {
    ghost output = { λ l. Some (item_text l.stations.now l.number l.item.now l.moment) };

    #[tactic(auto, unfolding(crate::specs::Lines::item_text))]
    fn fmt<W: fmt::Write>(&self, f: &mut fmt::Formatter<W>) -> fmt::Result {
        let stations = self.stations;
        let Item {
            net,
            from,
            to,
            octets,
            ..
        } = self.item;
        let from = NameAt {
            address: Station {
                net: *net,
                mac: *from,
            },
            stations,
        };
        let to = NameAt {
            address: Station {
                net: *net,
                mac: *to,
            },
            stations,
        };
        write!(
            f,
            "{} item {} {from} {to} {}",
            self.moment,
            self.number,
            Hex(octets.as_slice())
        )
    }
}

/// The line of a frame that was put out, with its number, the network of its bus and the name of the station that it
/// comes from: `510 frame 0 2 c 55FF0102010000F5`.
#[derive(Clone, Copy)]
pub(crate) struct FrameLine<'a, A: Allocator> {
    pub(crate) net: u16,
    pub(crate) sending: &'a Sending<A>,
    pub(crate) stations: &'a [site_parts::Station<A>],
    pub(crate) moment: u64,
}

impl<A: Allocator> fmt::Display for FrameLine<'_, A> {
    ghost output = { λ l. Some (frame_text l.stations.now l.net l.sending.now l.moment) };

    #[tactic(auto, unfolding(crate::specs::Lines::frame_text))]
    fn fmt<W: fmt::Write>(&self, f: &mut fmt::Formatter<W>) -> fmt::Result {
        let net = self.net;
        let Sending {
            sender,
            octets,
            place,
            ..
        } = self.sending;
        let from = NameAt {
            address: Station {
                net,
                mac: Mac::One(*sender),
            },
            stations: self.stations,
        };
        write!(
            f,
            "{} frame {} {net} {from} {}",
            self.moment,
            place.frames,
            Hex(octets.as_slice())
        )
    }
}
