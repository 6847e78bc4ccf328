//! Copies of a bus.

ghost use Rattle.std.specs.Prelude.{◌≡◌, IfOk};
ghost use Rattle.bus_traffic.specs.Bus.{bus_of};

use crate::bus::Bus;
use crate::ear::Ear;
use crate::sending::{Known, Recent, RecentBox, Sending};
use std::alloc::{AllocError, Allocator};

/// An equal ear.
fn ear_of(ear: &Ear) -> Ear
    ensures { result ≡ ear.now }
{
    Ear {
        address: ear.address,
        deframer: ear.deframer.copy(),
        last: ear.last,
    }
}

/// Equal ears.
fn ears_of<A: Allocator + Copy>(alloc: A, ears: &[Ear]) -> Result<Vec<Ear, A>, AllocError>
    ensures { IfOk result (λ copies. copies.items ≡ ears.now) }
{
    let mut copies = Vec::new(alloc);
    for ear in ears {
        copies.push(ear_of(ear))?;
    }
    Ok(copies)
}

/// Returns copies of all that is known of equal frames.
fn known_of<A: Allocator + Copy>(
    alloc: A,
    known: &[Known<A>],
) -> Result<Vec<Known<A>, A>, AllocError>
    ensures { IfOk result (λ copies. copies.items ≡ known.now) }
{
    let mut copies = Vec::new(alloc);
    for one in known {
        copies.push(Known {
            octets: one.octets.copy(alloc)?,
            stamp: one.stamp,
        })?;
    }
    Ok(copies)
}

/// An equal frame that was put out, delivered at the same stations.
fn recent_one<A: Allocator + Copy>(alloc: A, recent: &Recent<A>) -> Result<RecentBox<A>, AllocError>
    ensures { IfOk result (λ copy. copy ≡ recent.now) }
{
    let sending = &recent.sending;
    let sending = Sending {
        sender: sending.sender,
        octets: sending.octets.copy(alloc)?,
        stamp: sending.stamp,
        place: sending.place,
    };
    let heard = recent.heard;
    RecentBox::new(alloc, Recent { sending, heard })
}

/// Equal frames that were put out.
fn recent_of<A: Allocator + Copy>(
    alloc: A,
    recent: &[RecentBox<A>],
) -> Result<Vec<RecentBox<A>, A>, AllocError>
    ensures { IfOk result (λ copies. copies.items ≡ recent.now) }
{
    let mut copies = Vec::new(alloc);
    for one in recent {
        copies.push(recent_one(alloc, one.recent())?)?;
    }
    Ok(copies)
}

impl<A: Allocator + Copy> Bus<A> {
    /// An equal bus, in memory of `alloc`.
    ///
    /// # Errors
    /// Want of memory.
    pub fn copy(&self, alloc: A) -> Result<Self, AllocError>
        ensures { IfOk result (λ copy. bus_of copy ≡ bus_of self.now) }
    {
        Ok(Bus {
            net: self.net,
            ears: ears_of(alloc, self.ears.as_slice())?,
            known: known_of(alloc, self.known.as_slice())?,
            recent: recent_of(alloc, self.recent.as_slice())?,
            is_in_turn: self.is_in_turn,
            settled: self.settled,
        })
    }
}
