//! The port, and its calls.

ghost use Rattle.std.specs.Prelude.{◌≡◌, IfOk};

use bvll::Address;
use npdu::{Mac, Station};
use std::alloc::{AllocError, Allocator};
use std::marker::Model;
use tags::Items;

/// How a port reaches all stations of its network.
#[derive(Drop)]
pub enum Reach<A: Allocator> {
    /// By a datagram to each of the other members of its subnet, its broadcast manager among them, in their order
    /// (J.4.5).
    Members(Items<Address, A>),
    /// By the broadcast manager where it registers as a foreign device, for 1 to 65535 seconds (J.5.2).
    Foreign {
        manager: Address,
        seconds_to_live: u16,
    },
}

impl<A: Allocator + Copy> Reach<A> {
    /// An equal one, in memory of `alloc`.
    ///
    /// # Errors
    /// Want of memory.
    pub fn copy(&self, alloc: A) -> Result<Self, AllocError>
        ensures { IfOk result (λ copy. copy ≡ self.now) }
    {
        Ok(match self {
            Reach::Members(others) => Reach::Members(others.copy(alloc)?),
            Reach::Foreign {
                manager,
                seconds_to_live,
            } => Reach::Foreign {
                manager: *manager,
                seconds_to_live: *seconds_to_live,
            },
        })
    }
}

/// A port on a network of BACnet/IP: one end of it, at an address. It puts out at once what is handed down.
#[derive(Drop)]
pub struct IpPort<A: Allocator> {
    pub(crate) alloc: A,
    net: u16,
    address: Address,
    pub(crate) reach: Reach<A>,
    moment: u64,
}

impl<A: Allocator> Model for IpPort<A> {
    ghost use Rattle.link_ip.specs.Port.{IpPortState};

    ghost Value = { IpPortState A };

    ghost view = { λ p. record { net = p.net; address = p.address; reach = p.reach; moment = p.moment } };
}

impl<A: Allocator + Copy> IpPort<A> {
    ghost use Rattle.std.specs.Prelude.{◌≡◌, IfOk};
    ghost use Rattle.link_ip.specs.Port.{at_moment, is_foreign, new_port, station_of};

    /// A port on the network of this number, 1 to 65534, at this address; the members by which it reaches all of its
    /// network are others than itself.
    pub fn new(alloc: A, net: u16, address: Address, reach: Reach<A>) -> Self
        ensures { result ≡ new_port net address reach }
    {
        IpPort {
            alloc,
            net,
            address,
            reach,
            moment: 0,
        }
    }

    /// The network, and this station's address on it (J.1.2).
    pub fn station(&self) -> Station
        ensures { result ≡ station_of self.now }
    {
        Station {
            net: self.net,
            mac: Mac::Six(self.address.to_octets()),
        }
    }

    /// Whether it is a foreign device's, which registers at a broadcast manager (J.5.2).
    pub fn is_foreign(&self) -> bool
        ensures { result ≡ is_foreign self.now.reach }
    {
        match self.reach {
            Reach::Members(_) => false,
            Reach::Foreign { .. } => true,
        }
    }

    /// The moment of the last call that was not refused, in milliseconds.
    pub fn moment(&self) -> u64
        ensures { result ≡ self.now.moment }
    {
        self.moment
    }

    /// An equal port, in the same memory.
    ///
    /// # Errors
    /// Want of memory.
    pub fn copy(&self) -> Result<Self, AllocError>
        ensures { IfOk result (λ copy. copy ≡ self.now) }
    {
        Ok(IpPort {
            alloc: self.alloc,
            net: self.net,
            address: self.address,
            reach: self.reach.copy(self.alloc)?,
            moment: self.moment,
        })
    }

    /// Comes to the moment `now`, in milliseconds.
    pub(crate) fn later(&mut self, now: u64)
        ensures { self.new ≡ at_moment now self.old }
    {
        self.moment = now;
    }
}
