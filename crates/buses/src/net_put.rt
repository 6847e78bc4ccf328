//! A frame that is to be put out.

use bus_traffic::{Place, Put, Sending};
use std::alloc::{AllocError, Allocator};
use std::marker::Model;
use traffic::FramePut;

/// A frame that is to be put out on the bus of a network, with all memory that this takes of the frame's own.
#[derive(Drop)]
pub(crate) struct NetPut<A: Allocator> {
    pub(crate) net: u16,
    pub(crate) behind: u64,
    pub(crate) put: Put<A>,
}

impl<A: Allocator> Model for NetPut<A> {
    ghost use Rattle.traffic.specs.declared.frame.FramePut.{FramePut};

    ghost Value = { FramePut A };

    ghost view = { λ p. record {
      net = p.net;
      sender = p.put.sender;
      octets = p.put.octets;
      stamp = p.put.stamp;
      behind = p.behind;
    } };
}

impl<A: Allocator + Copy> NetPut<A> {
    ghost use Rattle.std.specs.Prelude.{◌≡◌, IfOk};
    ghost use Rattle.buses.specs.Puts.{sending_of};

    /// A frame that is to be put out.
    ///
    /// # Errors
    /// Want of memory.
    pub(crate) fn new(alloc: A, frame: FramePut<A>) -> Result<Self, AllocError>
        ensures { IfOk result (λ put. put ≡ frame) }
    {
        let FramePut {
            net,
            sender,
            octets,
            stamp,
            behind,
        } = frame;
        let sending = Sending {
            sender,
            octets,
            stamp,
            place: Place {
                items: 0,
                frames: 0,
            },
        };
        let put = Put::new(alloc, sending)?;
        Ok(NetPut { net, behind, put })
    }

    /// It is put out behind so many datagrams of earlier steps and so many frames.
    pub(crate) fn behind(self, items: u64, frames: u64) -> Put<A>
        ensures { result ≡ sending_of items frames self }
    {
        let NetPut { behind, put, .. } = self;
        put.placed(Place {
            items: items.saturating_add(behind),
            frames,
        })
    }
}
