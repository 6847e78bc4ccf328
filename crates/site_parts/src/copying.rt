//! Equal copies of parts.

use crate::parts::{Parts, Station};
use crate::place::{Foreign, Place};
use crate::role::Role;
use primitives::{CopyIn, copy_all};
use std::alloc::{AllocError, Allocator};

impl<A: Allocator + Copy> CopyIn<A> for Foreign<A> {
    fn copy_in(&self, alloc: A) -> Result<Self, AllocError> {
        Ok(Foreign {
            network: self.network,
            address: self.address,
            manager: self.manager.copy(alloc)?,
            seconds_to_live: self.seconds_to_live,
        })
    }
}

impl<A: Allocator + Copy> CopyIn<A> for Place<A> {
    fn copy_in(&self, alloc: A) -> Result<Self, AllocError> {
        match self {
            Place::On(link) => Ok(Place::On(*link)),
            Place::Beyond(foreign) => Ok(Place::Beyond(foreign.copy_in(alloc)?)),
        }
    }
}

impl<A: Allocator + Copy> CopyIn<A> for Role<A> {
    fn copy_in(&self, alloc: A) -> Result<Self, AllocError> {
        match self {
            Role::Manager(link) => Ok(Role::Manager(*link)),
            Role::Router(ports) => Ok(Role::Router(ports.copy(alloc)?)),
            Role::Device { place, objects } => Ok(Role::Device {
                place: place.copy_in(alloc)?,
                objects: objects.copy(alloc)?,
            }),
            Role::Client { place, segmented } => Ok(Role::Client {
                place: place.copy_in(alloc)?,
                segmented: *segmented,
            }),
        }
    }
}

impl<A: Allocator + Copy> CopyIn<A> for Station<A> {
    fn copy_in(&self, alloc: A) -> Result<Self, AllocError> {
        Ok(Station {
            name: self.name.copy(alloc)?,
            role: self.role.copy_in(alloc)?,
        })
    }
}

impl<A: Allocator + Copy> Parts<A> {
    ghost use Rattle.std.specs.Prelude.{◌≡◌, IfOk};

    /// Equal parts, in memory of `alloc`.
    ///
    /// # Errors
    /// Want of memory.
    pub fn copy(&self, alloc: A) -> Result<Self, AllocError>
        ensures { IfOk result (λ copy. copy ≡ self.now) }
    {
        Ok(Parts {
            networks: self.networks.copy(alloc)?,
            stations: copy_all(alloc, self.stations.as_slice())?,
        })
    }
}
